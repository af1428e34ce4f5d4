// The text of a memory.
ghost use Rattle.std.specs.Prelude.{◌≡◌, ◌++◌, IfOk, OnOk};
ghost use Rattle.std.specs.List.{flat_map};
ghost use Rattle.memory_text.specs.MemoryText.{cell_line, memory_text};

use decompiler::add_hex4;
use j1_simulator::memory_cells;
use j1_table::Image;
use std::alloc::{AllocError, Global};

// Appends the line of a cell.
fn add_line(text: &mut Vec<u8>, cell: u16) -> Result<(), AllocError>
    ensures { OnOk result (text.new.items ≡ text.old.items ++ cell_line cell) }
{
    add_hex4(text, cell)?;
    text.extend_from_slice(b"\n")
}

// Appends the lines of cells.
fn add_lines(text: &mut Vec<u8>, cells: &[u16]) -> Result<(), AllocError>
    ensures { OnOk result (text.new.items ≡ text.old.items ++ flat_map cell_line cells.now) }
{
    for cell in cells {
        add_line(text, *cell)?;
    }
    Ok(())
}

/// The memory that an image begins with, as 8192 lines of four hexadecimal digits. An error is want of memory.
#[tactic(auto, unfolding(crate::specs::MemoryText::memory_text))]
pub fn memory_text(alloc: Global, image: &Image) -> Result<Vec<u8>, AllocError>
    ensures { IfOk result (λ text. text.items ≡ memory_text image.now) }
{
    let memory = memory_cells(alloc, image)?;
    let mut text = Vec::new(alloc);
    add_lines(&mut text, memory.as_slice())?;
    Ok(text)
}

// The memory of an image.
ghost use Rattle.std.specs.Prelude.{◌≡◌, ◌++◌, ◌≤◌, length, IfOk, OnOk};
ghost use Rattle.cell_math.specs.Bytes.{cells_of_bytes, filled};
ghost use Rattle.j1_simulator.specs.Run.{memory_of};

use j1_table::Image;
use std::alloc::{AllocError, Global};

// Appends bytes as cells, the low byte first.
fn add_bytes(memory: &mut Vec<u16>, bytes: &[u8]) -> Result<(), AllocError>
    ensures { OnOk result (memory.new.items ≡ memory.old.items ++ cells_of_bytes bytes.now) }
{
    let mut rest = bytes;
    while let [low, high, others @ ..] = rest {
        memory.push(u16::from(*low) + 256 * u16::from(*high))?;
        rest = others;
    }
    if let [low] = rest {
        memory.push(u16::from(*low))?;
    }
    Ok(())
}

// Adds zeros, up to a length.
#[tactic(auto, using(std::proofs::lemmas::List::take_all))]
fn fill(cells: &mut Vec<u16>, len: usize) -> Result<(), AllocError>
    requires { length cells.old.items ≤ len }
    ensures items { OnOk result (cells.new.items ≡ filled len cells.old.items) }
    ensures len { OnOk result (length cells.new.items ≡ len) }
{
    cells.resize(len, 0)
}

/// The memory that an image begins with.
#[tactic(auto, using(crate::proofs::Bytes::cells_few))]
pub fn memory_cells(alloc: Global, image: &Image) -> Result<Vec<u16>, AllocError>
    ensures cells { IfOk result (λ memory. memory.items ≡ memory_of image.now) }
    ensures len { IfOk result (λ memory. length memory.items ≡ 0x2000) }
{
    let mut memory = image.cells().to_vec(alloc)?;
    fill(&mut memory, usize::from(image.data_start()) / 2)?;
    add_bytes(&mut memory, image.bytes())?;
    fill(&mut memory, 0x2000)?;
    Ok(memory)
}

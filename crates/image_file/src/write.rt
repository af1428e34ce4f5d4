// Writing.
ghost use Rattle.std.specs.Prelude.{◌≡◌, ◌++◌, length, OnOk, IfOk};
ghost use Rattle.std.specs.List.{flat_map};
ghost use Rattle.image_file.specs.File.{pair, front, image_bytes, IsImage};
ghost use Rattle.j1_table.specs.Image.{HasRoom};

use byteorder::{ByteOrder, LittleEndian};
use j1_table::Image;
use std::alloc::{AllocError, Global};

// Appends a number in two bytes, the low one first.
#[tactic(auto, using(crate::proofs::Pairs::pair_is))]
fn add_number(file: &mut Vec<u8>, number: u16) -> Result<(), AllocError>
    ensures { OnOk result (file.new.items ≡ file.old.items ++ pair number) }
{
    let mut bytes = [0; 2];
    LittleEndian::write_u16(&mut bytes, number);
    file.extend_from_slice(&bytes)
}

// Appends what stands before the counts.
fn add_front(file: &mut Vec<u8>, data_start: u16) -> Result<(), AllocError>
    ensures { OnOk result (file.new.items ≡ file.old.items ++ front data_start) }
{
    if data_start == 8192 {
        return file.extend_from_slice(&[b'J', b'1', b'I', b'M', 1, 0]);
    }
    file.extend_from_slice(&[b'J', b'1', b'I', b'M', 2, 0])?;
    add_number(file, data_start)
}

// Appends cells.
fn add_cells(file: &mut Vec<u8>, cells: &[u16]) -> Result<(), AllocError>
    ensures { OnOk result (file.new.items ≡ file.old.items ++ flat_map pair cells.now) }
{
    for cell in cells {
        add_number(file, *cell)?;
    }
    Ok(())
}

// The file of these cells and bytes.
fn file_of(
    alloc: Global,
    data_start: u16,
    cells: &[u16],
    space: &[u8],
) -> Result<Vec<u8>, AllocError>
    requires { HasRoom (record { cells = cells.now; bytes = space.now; data_start = data_start }) }
    ensures bytes { IfOk result (λ file. file.items ≡ image_bytes (record { cells = cells.now; bytes = space.now; data_start = data_start })) }
    ensures image { IsImage (record { cells = cells.now; bytes = space.now; data_start = data_start }) }
{
    let mut file = Vec::new(alloc);
    add_front(&mut file, data_start)?;
    add_number(&mut file, cells.len() as u16)?;
    add_number(&mut file, space.len() as u16)?;
    add_cells(&mut file, cells)?;
    file.extend_from_slice(space)?;
    Ok(file)
}

/// The file of an image. An error is want of memory.
pub fn write_image(alloc: Global, image: &Image) -> Result<Vec<u8>, AllocError>
    ensures bytes { IfOk result (λ file. file.items ≡ image_bytes image.now) }
    ensures image { IsImage image.now }
{
    file_of(alloc, image.data_start(), image.cells(), image.bytes())
}

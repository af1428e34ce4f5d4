// Listings.
ghost use Rattle.std.specs.Prelude.{◌≡◌, ◌<◌, ◌≤◌, ◌+◌, ◌-◌, ◌/◌, ◌++◌, ◌∷◌, [], length, map, OnOk, IfOk};
ghost use Rattle.std.specs.List.{flat_map};
ghost use Rattle.decompiler.specs.Listing.{hex2, spaced, place, header_fields, data_rows, line_text, listing};

use crate::code::add_code;
use crate::digits::{add_hex2, add_hex4, add_place};
use j1_table::Image;
use std::alloc::{AllocError, Global};

// Appends the header.
fn add_header(text: &mut Vec<u8>, data_start: u16) -> Result<(), AllocError>
    ensures { OnOk result (text.new.items ≡ text.old.items ++ line_text (header_fields data_start)) }
{
    if data_start == 8192 {
        return text.extend_from_slice(b"J1 1\n");
    }
    text.extend_from_slice(b"J1 2 ")?;
    add_hex4(text, data_start)?;
    text.extend_from_slice(b"\n")
}

// Appends bytes, each behind a space.
fn add_bytes(text: &mut Vec<u8>, bytes: &[u8]) -> Result<(), AllocError>
    ensures { OnOk result (text.new.items ≡ text.old.items ++ flat_map spaced (map hex2 bytes.now)) }
{
    for byte in bytes {
        text.extend_from_slice(b" ")?;
        add_hex2(text, *byte)?;
    }
    Ok(())
}

// Appends a data line.
fn add_data_line(text: &mut Vec<u8>, address: u16, bytes: &[u8]) -> Result<(), AllocError>
    ensures { OnOk result (text.new.items ≡ text.old.items ++ line_text (place address ∷ map hex2 bytes.now)) }
{
    add_place(text, address)?;
    add_bytes(text, bytes)?;
    text.extend_from_slice(b"\n")
}

// Appends the data lines of bytes that begin at an address.
fn add_data(text: &mut Vec<u8>, start: u16, bytes: &[u8]) -> Result<(), AllocError>
    requires { start + length bytes.now ≤ 16384 }
    ensures { OnOk result (text.new.items ≡ text.old.items ++ flat_map line_text (data_rows ((length bytes.now + 15) / 16) start bytes.now)) }
{
    let mut address = start;
    let mut rest = bytes;
    while !rest.is_empty() {
        let (row, behind) = rest.split_at(rest.len().min(16));
        add_data_line(text, address, row)?;
        address += 16;
        rest = behind;
    }
    Ok(())
}

/// The listing of an image: an assembly text, with the number of each cell and the address of each data line. An error is want
/// of memory.
#[tactic(auto, using(crate::proofs::Spaced::lines_append))]
pub fn listing(alloc: Global, image: &Image) -> Result<Vec<u8>, AllocError>
    ensures { IfOk result (λ text. text.items ≡ listing image.now) }
{
    let mut text = Vec::new(alloc);
    add_header(&mut text, image.data_start())?;
    text.extend_from_slice(b"CODE\n")?;
    add_code(&mut text, image.cells())?;
    text.extend_from_slice(b"DATA\n")?;
    add_data(&mut text, image.data_start(), image.bytes())?;
    text.extend_from_slice(b"END\n")?;
    Ok(text)
}

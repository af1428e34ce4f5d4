// Reading.
ghost use Rattle.std.specs.Prelude.{◌≡◌, ◌≢◌, ◌+◌, ◌*◌, ◌-◌, ◌/◌, ◌%◌, ◌<◌, ◌≤◌, ◌++◌, ◌∷◌, [], ◌⊎◌, length, take, drop, slice_index, MatchResult, IfOk, MatchOption, IfErr, IsTrue, ◌↔◌};
ghost use Rattle.console_ports.specs.DataSpace.{IsDataStart};
ghost use Rattle.image_file.specs.File.{pair, letters, front, image_bytes, FirstBad};
ghost use Rattle.image_file.specs.Refusal.{IsRefusal};
ghost use Rattle.image_file.specs.Reading.{StartsAt, IsBadNumber, IsHead, cells_of};

use byteorder::{ByteOrder, LittleEndian};
use j1_table::Image;
use std::alloc::{AllocError, Global};

/// Why bytes are read as no image.
#[derive(Clone, Copy, Debug, PartialEq, Eq)]
pub enum ImageError {
    /// They are no file of an image, with the first bad offset.
    Refused(u32),
    /// There is no memory.
    OutOfMemory,
}

// What stands before the cells of a file, and how many bytes it takes.
#[derive(Clone, Copy)]
struct Head {
    data_start: u16,
    cells: u16,
    bytes: u16,
    len: usize,
}

// The byte at an offset.
fn byte_at(bytes: &[u8], offset: usize) -> Option<u8>
    ensures { MatchOption result (length bytes.now ≤ offset) (λ byte. (offset < length bytes.now) × (byte ≡ slice_index bytes.now offset)) }
{
    bytes.get(offset).copied()
}

// Whether this byte stands at an offset.
fn stands_at(bytes: &[u8], offset: usize, byte: u8) -> bool
    ensures { IsTrue result ↔ ((offset < length bytes.now) × (slice_index bytes.now offset ≡ byte)) }
{
    match byte_at(bytes, offset) {
        Some(found) => found == byte,
        None => false,
    }
}

// Goes over the letters in front.
fn expect_letters(bytes: &[u8]) -> Result<(), u32>
    ensures { MatchResult result (λ _. take 4 bytes.now ≡ letters) (λ offset. FirstBad bytes.now offset) }
{
    for (offset, letter) in b"J1IM".iter().enumerate() {
        if !stands_at(bytes, offset, *letter) {
            return Err(offset as u32);
        }
    }
    Ok(())
}

// Goes over the second byte of the version.
fn expect_zero(bytes: &[u8], version: u8) -> Result<(), u32>
    requires version { (version ≡ 1) ⊎ (version ≡ 2) }
    requires front { take 5 bytes.now ≡ letters ++ version ∷ [] }
    ensures { MatchResult result (λ _. take 6 bytes.now ≡ letters ++ version ∷ 0 ∷ []) (λ offset. FirstBad bytes.now offset) }
{
    if stands_at(bytes, 5, 0) {
        Ok(())
    } else {
        Err(5)
    }
}

// Whether version 2 may state this even data start.
fn is_stated(start: u16) -> bool
    ensures { IsTrue result ↔ ((4096 ≤ start) × (start ≤ 16000) × (start ≢ 8192)) }
{
    start >= 4096 && start <= 16000 && start != 8192
}

// The data start of version 2.
fn stated_start(bytes: &[u8]) -> Result<u16, u32>
    requires { take 6 bytes.now ≡ letters ++ 2 ∷ 0 ∷ [] }
    ensures { MatchResult result (λ start. StartsAt bytes.now start 8) (λ offset. FirstBad bytes.now offset) }
{
    let Some(low) = byte_at(bytes, 6) else {
        return Err(6);
    };
    if low % 2 == 1 {
        return Err(6);
    }
    let Some(high) = byte_at(bytes, 7) else {
        return Err(7);
    };
    let start = u16::from(low) + 256 * u16::from(high);
    if !is_stated(start) {
        return Err(7);
    }
    Ok(start)
}

// The data start, and how many bytes stand up to it.
fn start_of(bytes: &[u8]) -> Result<(u16, usize), u32>
    requires { take 4 bytes.now ≡ letters }
    ensures { MatchResult result (λ found. StartsAt bytes.now found.0 found.1) (λ offset. FirstBad bytes.now offset) }
{
    if stands_at(bytes, 4, 1) {
        return match expect_zero(bytes, 1) {
            Ok(()) => Ok((8192, 6)),
            Err(offset) => Err(offset),
        };
    }
    if !stands_at(bytes, 4, 2) {
        return Err(4);
    }
    expect_zero(bytes, 2)?;
    let start = stated_start(bytes)?;
    Ok((start, 8))
}

// The number in two bytes, if it is at most so much.
fn number_at(bytes: &[u8], offset: usize, most: u16) -> Result<u16, u32>
    requires within { offset ≤ length bytes.now }
    requires small { offset < 100 }
    requires most { 255 ≤ most }
    ensures { MatchResult result
        (λ number. (offset + 2 ≤ length bytes.now) × (number ≤ most) × (take (offset + 2) bytes.now ≡ take offset bytes.now ++ pair number))
        (λ bad. IsBadNumber bytes.now offset most bad) }
{
    if bytes.len() < offset + 2 {
        return Err(bytes.len() as u32);
    }
    let number = LittleEndian::read_u16(&bytes[offset..]);
    if number > most {
        return Err(offset as u32 + 1);
    }
    Ok(number)
}

// What stands before the cells.
fn head_of(bytes: &[u8]) -> Result<Head, u32>
    ensures { MatchResult result (λ head. IsHead bytes.now head.data_start head.cells head.bytes head.len) (λ offset. FirstBad bytes.now offset) }
{
    expect_letters(bytes)?;
    let (data_start, at) = start_of(bytes)?;
    let cells = cells_at(bytes, data_start, at)?;
    let count = bytes_at(bytes, data_start, cells, at + 2)?;
    Ok(Head {
        data_start,
        cells,
        bytes: count,
        len: at + 4,
    })
}

// The number of cells behind a front.
fn cells_at(bytes: &[u8], data_start: u16, at: usize) -> Result<u16, u32>
    requires { StartsAt bytes.now data_start at }
    ensures { MatchResult result
        (λ cells. (cells ≤ data_start / 2) × (at + 2 ≤ length bytes.now) × (take (at + 2) bytes.now ≡ front data_start ++ pair cells))
        (λ offset. FirstBad bytes.now offset) }
{
    match number_at(bytes, at, data_start / 2) {
        Ok(cells) => Ok(cells),
        Err(offset) => Err(offset),
    }
}

// The number of data bytes behind that of the cells.
fn bytes_at(bytes: &[u8], data_start: u16, cells: u16, at: usize) -> Result<u16, u32>
    requires start { IsDataStart data_start }
    requires cells { cells ≤ data_start / 2 }
    requires small { at < 100 }
    requires stands { take at bytes.now ≡ front data_start ++ pair cells }
    requires within { at ≤ length bytes.now }
    ensures { MatchResult result
        (λ count. (count ≤ 16384 - data_start) × (at + 2 ≤ length bytes.now) × (take (at + 2) bytes.now ≡ (front data_start ++ pair cells) ++ pair count))
        (λ offset. FirstBad bytes.now offset) }
{
    match number_at(bytes, at, 16384 - data_start) {
        Ok(count) => Ok(count),
        Err(offset) => Err(offset),
    }
}

// The cells that stand in an even number of bytes.
#[tactic(auto, using(crate::proofs::Pairs::cells_none))]
fn cells_of(alloc: Global, bytes: &[u8]) -> Result<Vec<u16>, AllocError>
    ensures { IfOk result (λ cells. cells.items ≡ cells_of bytes.now) }
{
    let mut cells = Vec::new(alloc);
    let mut rest = bytes;
    while rest.len() >= 2 {
        cells.push(LittleEndian::read_u16(rest))?;
        rest = &rest[2..];
    }
    Ok(cells)
}

// The image of a whole file with this head.
fn image_of(alloc: Global, bytes: &[u8], head: Head) -> Result<Image, AllocError>
    requires head { IsHead bytes.now head.data_start head.cells head.bytes head.len }
    requires whole { length bytes.now ≡ head.len + (2 * head.cells + head.bytes) }
    ensures { IfOk result (λ image. bytes.now ≡ image_bytes image) }
{
    let (_, body) = bytes.split_at(head.len);
    let (code, space) = body.split_at(2 * usize::from(head.cells));
    let cells = cells_of(alloc, code)?;
    Image::split(alloc, cells.as_slice(), space, head.data_start)
}

/// The image whose file the bytes are.
///
/// They are refused exactly where they are no file of an image, with the first bad offset: image files begin with the bytes
/// before it, and none with the byte at it too. Where the bytes are a shorter beginning of a file, it is their number.
pub fn read_image(alloc: Global, bytes: &[u8]) -> Result<Image, ImageError>
    ensures read { IfOk result (λ image. bytes.now ≡ image_bytes image) }
    ensures refused { IfErr result (λ error. IsRefusal bytes.now error) }
{
    let head = match head_of(bytes) {
        Ok(head) => head,
        Err(offset) => return Err(ImageError::Refused(offset)),
    };
    let end = head.len + 2 * usize::from(head.cells) + usize::from(head.bytes);
    if bytes.len() < end {
        return Err(ImageError::Refused(bytes.len() as u32));
    }
    if bytes.len() > end {
        return Err(ImageError::Refused(end as u32));
    }
    match image_of(alloc, bytes, head) {
        Ok(image) => Ok(image),
        Err(AllocError) => Err(ImageError::OutOfMemory),
    }
}

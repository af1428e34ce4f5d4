// Cells of data space as bytes.
ghost use Rattle.std.specs.Prelude.{◌≡◌, ◌≤◌, length, IfOk};
ghost use Rattle.host_state.specs.FirstImage.{bytes_of_cells, used_length, greater};

use std::alloc::{AllocError, Global};

/// Two bytes for each cell, the low byte first.
pub(crate) fn bytes_of_cells(alloc: Global, cells: &[u16]) -> Result<Vec<u8>, AllocError>
    ensures { IfOk result (λ bytes. bytes.items ≡ bytes_of_cells cells.now) }
{
    let mut bytes = Vec::new(alloc);
    let mut rest = cells;
    while let Some((cell, tail)) = rest.split_first() {
        match bytes.extend_from_slice(&[(*cell % 256) as u8, (*cell / 256) as u8]) {
            Ok(()) => {}
            Err(_) => return Err(AllocError),
        }
        rest = tail;
    }
    Ok(bytes)
}

/// The place behind the last byte that is not 0.
pub(crate) fn used_length(bytes: &[u8]) -> usize
    ensures value { result ≡ used_length bytes.now }
{
    let mut used = 0;
    let mut place = 0;
    let mut rest = bytes;
    while let Some((byte, tail)) = rest.split_first() {
        place += 1;
        if *byte != 0 {
            used = place;
        }
        rest = tail;
    }
    used
}

/// The greater of two numbers.
pub(crate) fn greater(m: usize, n: usize) -> usize
    ensures { result ≡ greater m n }
{
    if m <= n { n } else { m }
}

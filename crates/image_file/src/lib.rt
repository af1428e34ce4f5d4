//! Image files: the bytes of an image, and the image of bytes.
//!
//! | offset | bytes | in version 1 |
//! |---|---|---|
//! | 0 | 4 | `J1IM` |
//! | 4 | 2 | 1 and 0; the data start is 8192 |
//! | 6 | 2 | the number c of code cells, at most 4096 |
//! | 8 | 2 | the number d of data bytes, at most 8192 |
//! | 10 | 2c | the cells from cell 0 on |
//! | 10 + 2c | d | the bytes from address 8192 on |
//!
//! Version 2 has 2 and 0, and then two bytes more: the data start s, which is even, from 4096 to 16000, and not 8192. There are
//! at most s / 2 cells and 16384 - s bytes. Numbers and cells have their low byte first, and nothing follows.
#![tactic(auto)]

mod laws;
mod read;
mod write;

pub use laws::{bytes_have_one_first_bad, files_are_images, images_fit, refused_is_no_file};
pub use read::{ImageError, read_image};
pub use write::write_image;

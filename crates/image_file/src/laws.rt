// Laws of the definitions.
ghost use Rattle.std.specs.Prelude.{ℕ, ◌<◌, ◌^◌, slice_index};
ghost use Rattle.image_file.specs.File.{IsImage};
ghost use Rattle.image_file.specs.Laws.{FilesAreImages, BadIsNoFile, OneFirstBad};

use j1_table::Image;

/// Two images with one file are the same image.
pub fn files_are_images()
    ensures { FilesAreImages }
{}

/// Bytes that are refused are no file of an image.
pub fn refused_is_no_file()
    ensures { BadIsNoFile }
{}

/// Bytes have at most one first bad offset.
pub fn bytes_have_one_first_bad()
    ensures { OneFirstBad }
{}

// Cells and bytes are in range.
fn are_in_range(cells: &[u16], bytes: &[u8])
    ensures cells { (k : ℕ) → slice_index cells.now k < 2 ^ 16 }
    ensures bytes { (k : ℕ) → slice_index bytes.now k < 2 ^ 8 }
{}

/// The cells and bytes of an image are in range, and have room.
pub fn images_fit(image: &Image)
    ensures { IsImage image.now }
{
    are_in_range(image.cells(), image.bytes());
}

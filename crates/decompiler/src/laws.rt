// A law of the definitions.
ghost use Rattle.std.specs.Prelude.{ℕ, ◌<◌, ◌^◌, slice_index};
ghost use Rattle.decompiler.specs.Listing.{listing};
ghost use Rattle.decompiler.specs.Laws.{AssemblesOnlyTo};

use j1_assembler::assembles_by_grammar;
use j1_table::{Image, cells_are_instructions};

// Cells and bytes are in range.
fn are_in_range(cells: &[u16], bytes: &[u8])
    ensures cells { (k : ℕ) → slice_index cells.now k < 2 ^ 16 }
    ensures bytes { (k : ℕ) → slice_index bytes.now k < 2 ^ 8 }
{}

/// The listing of an image assembles to the image, and to no other.
pub fn listings_assemble(image: &Image)
    ensures { AssemblesOnlyTo (listing image.now) image.now }
{
    assembles_by_grammar();
    cells_are_instructions();
    are_in_range(image.cells(), image.bytes());
}

// What comes back to the code that has called by GO.
ghost use Rattle.typed_code.specs.WayBack.{ReturnsGoBack, ReturnsGoBackOnChip, SavedKeepsCode, TypedWordsGoBackOnChip};

use crate::laws::a_typed_word_comes_back;
use word_laws::{rings_do_the_same, rings_keep_places, runs_join};

/// What takes no data cells, leaves none and comes to its return address, as RUN-CODE does, is a return behind `GO`: on the open
/// machine, and where it stays within the rings, on the chip, where it keeps the places of all live cells.
pub fn returns_go_back()
    ensures open { ReturnsGoBack }
    ensures chip { ReturnsGoBackOnChip }
{
    runs_join();
    rings_do_the_same();
    rings_keep_places();
}

/// Taking cells into memory keeps the code before data space, and leaves a data space of the same size, with cells of 16 bits where
/// there were such.
pub fn saved_cells_keep_code()
    ensures { SavedKeepsCode }
{}

/// On the chip a typed word as a whole, from RUN-CODE on, is a return behind `GO` that keeps the places of the kernel's live cells, where the
/// word comes from RUN-CALL to the cell behind it within the rings.
pub fn typed_words_go_back()
    ensures { TypedWordsGoBackOnChip }
{
    a_typed_word_comes_back();
    returns_go_back();
    saved_cells_keep_code();
}

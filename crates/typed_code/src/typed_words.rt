// A typed word as a whole.
ghost use Rattle.typed_code.specs.TypedWords.{TypedWordsDoTheirMeaning, TypedWordsDoTheirMeaningOnChip};

use crate::laws::{calls_lead_behind, cells_are_loaded, cells_are_saved};
use crate::way_back::{returns_go_back, saved_cells_keep_code};
use forth_program::worlds_grow;
use typed_items::{items_do_their_meaning, items_do_their_meaning_on_chip, typed_code_is_kept};
use word_laws::runs_join;

/// A listed word or a name at RUN-CALL does what it means from the user's cells, both ways, and where it has been done the whole comes back
/// behind GO, with the cells that it has left as the user's.
pub fn typed_words_do_their_meaning()
    ensures { TypedWordsDoTheirMeaning }
{
    runs_join();
    worlds_grow();
    cells_are_loaded();
    cells_are_saved();
    calls_lead_behind();
    returns_go_back();
    saved_cells_keep_code();
    items_do_their_meaning();
    typed_code_is_kept();
}

/// So it does on the chip, where it fits.
pub fn typed_words_do_their_meaning_on_chip()
    ensures { TypedWordsDoTheirMeaningOnChip }
{
    typed_words_do_their_meaning();
    items_do_their_meaning_on_chip();
    returns_go_back();
}

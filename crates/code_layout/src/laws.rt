// What the open machine does on the image of a program.
ghost use Rattle.code_layout.specs.Agreement.{ImagesAgree};
ghost use Rattle.code_layout.specs.Chip.{ChipsAgree};
ghost use Rattle.code_layout.specs.Leaving.{ImagesAreLedOut};
ghost use Rattle.code_layout.specs.Returning.{ImagesReturn};
ghost use Rattle.code_layout.specs.ReturningChip.{ChipsReturn};
ghost use Rattle.code_layout.specs.LastCalls.{LastCallsAreJumps};
ghost use Rattle.code_layout.specs.Weights.{CodeIsLight, ItemsAreLight, TokensAreLight};

use forth_program::only_go_leaves;
use j1_simulator::runs_only_grow;
use word_laws::{
    cells_stand, control_leads, halt_ends, needs_are_exact, numbers_do_their_meaning,
    rings_do_the_same, rings_keep_places, runs_join, words_change_depths, words_do_their_meaning,
    words_keep_their_bounds, words_leave_cells,
};

/// With a library whose bodies mean its words: as long as a source lacks no cells and no return entries, its image does what the
/// source does, in no more instructions than the word steps may cost. It prints the same, ends alike and leaves the same input and
/// data space. And what n instructions print is no more than what `(n + 1) * (source_tokens + 4)` word steps print, and their end
/// is the source's.
pub fn images_agree()
    ensures { ImagesAgree }
{
    words_do_their_meaning();
    words_keep_their_bounds();
    needs_are_exact();
    words_leave_cells();
    words_change_depths();
    numbers_do_their_meaning();
    control_leads();
    halt_ends();
    cells_stand();
    runs_join();
    runs_only_grow();
}

/// A step of `GO` leads the open machine to its address, within the price of the steps up to it, with the data cells, the data
/// space, the input left and the prints of the source.
pub fn images_are_led_out()
    ensures { ImagesAreLedOut }
{
    words_do_their_meaning();
    words_keep_their_bounds();
    needs_are_exact();
    words_leave_cells();
    words_change_depths();
    numbers_do_their_meaning();
    control_leads();
    halt_ends();
    cells_stand();
    runs_join();
    runs_only_grow();
}

/// Where the code that `GO` calls comes back, with other data space, input and prints, the image goes on as the source does, both
/// ways and within stated steps, for every list of returns. At each instruction both stacks have no more cells than the word steps
/// take.
pub fn images_return()
    ensures { ImagesReturn }
{
    words_do_their_meaning();
    words_keep_their_bounds();
    needs_are_exact();
    words_leave_cells();
    words_change_depths();
    numbers_do_their_meaning();
    control_leads();
    halt_ends();
    cells_stand();
    runs_join();
    runs_only_grow();
    only_go_leaves();
}

/// Where the source never lacks cells or return entries, and no step needs more than 33 data cells or 32 return cells, the chip
/// with its rings agrees with the source, both ways and within stated steps, and wraps no stack.
pub fn chips_agree()
    ensures { ChipsAgree }
{
    images_agree();
    rings_do_the_same();
    runs_join();
    runs_only_grow();
}

/// So it does on the chip too, where what `GO` calls keeps the places of the live cells: the rings do what the stacks without end
/// do, and wrap nothing.
pub fn chips_return()
    ensures { ChipsReturn }
{
    images_return();
    rings_do_the_same();
    rings_keep_places();
    runs_join();
    runs_only_grow();
}

/// Last calls are jumps: where `CHARS` is not used, no `CASE` begins with `EXIT`, and calls lead to definitions that do not come
/// later, no call stands before a return, be it directly or with no more than a jump to it between, unless a way leads back to
/// the return.
pub fn last_calls_are_jumps()
    ensures { LastCallsAreJumps }
{
    cells_stand();
}

/// The code of a program has at most as many cells as the header, EXECUTE and ABORT", a jump for each token, the library, the
/// weight of the definitions and the code of the tokens.
pub fn code_is_light()
    ensures { CodeIsLight }
{}

/// Each item of a definition takes at most its weight in cells, and so does each execution token with its jump.
pub fn items_are_light()
    ensures items { ItemsAreLight }
    ensures tokens { TokensAreLight }
{}

// The state that the kernel begins with.
ghost use Rattle.target_forth.specs.FirstState.{FirstLinesBegin, KernelBegins};

use crate::laws::kernel_is_read;
use control_flow::{programs_are_sources, texts_end_in_sources};
use kernel_lines::{lines_keep_their_laws, main_repeats_lines, what_is_outside_stays};

/// The kernel begins in a data space with its texts at their places, in which no word has failed, no definition is open and no user cells are, and
/// HERE and the newest header are those of its text. So the laws of `kernel_lines` hold from there on.
pub fn kernel_begins()
    ensures { KernelBegins }
{
    texts_end_in_sources();
    programs_are_sources();
}

/// From its start the kernel comes to its first line in that state, with no input taken and nothing printed. From there on each line is what the
/// laws of `kernel_lines` say.
pub fn first_line_begins()
    ensures { FirstLinesBegin }
{
    kernel_begins();
    kernel_is_read();
    lines_keep_their_laws();
    main_repeats_lines();
    what_is_outside_stays();
}

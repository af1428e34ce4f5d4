// What holds of all source texts.
ghost use Rattle.control_flow.specs.SourceLaw.{EachEndsInItsSource, EachIsJudged, EachProgramIsSource, SourcesHaveNoGo, TestsWiden};

use host_state::host_words_keep;
use word_table::each_is_found;

/// Each text has a program or a first refusal: the definition never gives up.
pub fn texts_are_judged()
    ensures { EachIsJudged }
{
    host_words_keep();
}

/// The program of a text is that of what the text has come to at its end: of its definitions, of the names there, and of what host words
/// have made of data space. Where the text is refused before its end, that is its refusal.
pub fn texts_end_in_sources()
    ensures { EachEndsInItsSource }
{}

/// The program of a text meets the condition of a program; its numbers are cells, its words are inline, of the library or on
/// return entries, its calls lead to the definition in which they stand or to earlier ones, and its texts lie in data space; so do its
/// execution tokens; the weights of both are within the limit, its source has a token for each of its parts, and its first data space
/// is bytes. All this holds of kernels too; the program of a source has no `GO`.
pub fn programs_are_sources()
    ensures each { EachProgramIsSource }
    ensures no_go { SourcesHaveNoGo }
{
    host_words_keep();
    each_is_found();
}

/// Where a test holds of every item, also in structures, each wider test does.
pub fn tests_widen()
    ensures { TestsWiden }
{}

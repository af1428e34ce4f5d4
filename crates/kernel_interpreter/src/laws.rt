// What the kernel's interpreter does.
ghost use Rattle.kernel_interpreter.specs.Laws.{LackingWordsFail, NeedsAreKnown, NoUserCellsFail, NumbersAreTaken, ReturnsStay};
ghost use Rattle.kernel_interpreter.specs.Laws.{StructuresAreDone, UnknownWordsFail, UserCellsArePopped, UserCellsArePushed, WordsAreFound};
ghost use Rattle.kernel_interpreter.specs.Laws.{WordsAreRun};

use kernel_words::kernel_words_keep_their_laws;

/// In every program that has the kernel's definitions at their places, its interpreter does what the kernel's text says in words, with
/// nothing printed and no input taken, within stated word steps and for a stated price.
pub fn kernel_interpreter_keeps_its_laws()
    ensures stay { ReturnsStay }
    ensures pushed { UserCellsArePushed }
    ensures popped { UserCellsArePopped }
    ensures none_popped { NoUserCellsFail }
    ensures need { NeedsAreKnown }
    ensures lacking { LackingWordsFail }
    ensures run { WordsAreRun }
    ensures found { WordsAreFound }
    ensures structure { StructuresAreDone }
    ensures number { NumbersAreTaken }
    ensures unknown { UnknownWordsFail }
{
    kernel_words_keep_their_laws();
}

// What the kernel's definitions of a line do.
ghost use Rattle.std.specs.Prelude.{◌≡◌};
ghost use Rattle.kernel_words.specs.Laws.{NextWordsAreKept};
ghost use Rattle.kernel_lines.specs.Laws.{BytesStay, CellsStay, ChangesFollow, StatesStay, TextsStay};
ghost use Rattle.kernel_lines.specs.Interpreting.{ErrorsEndLines};
ghost use Rattle.kernel_lines.specs.Main.{FirstLineBegins, InputEnds, LinesAreDone};
ghost use Rattle.kernel_lines.specs.Laws.{KernelIsSetBack, LinesAreRead};
ghost use Rattle.kernel_lines.specs.Main.{LinesAreReplied, LinesBegin, LinesHaveEnded, MainGoesOn, MainRepeatsLines};
ghost use Rattle.kernel_lines.specs.Interpreting.{LinesEnd};
ghost use Rattle.kernel_lines.specs.Laws.{NextWordsAreRead, PlacesAreKept};
ghost use Rattle.kernel_lines.specs.Laws.{RepliesAreGiven, WordsAreChecked, WordsAreReadInTurn};
ghost use Rattle.kernel_lines.specs.Interpreting.{WordsAreBegun, WordsAreDone, WordsAreEnded};
ghost use Rattle.kernel_lines.specs.Laws.{WordsAreWhole, WordsHaveBytes};

use kernel_words::kernel_words_keep_their_laws;

/// Where only bytes of some ranges may have changed, the cells, bytes, texts and the whole state of the kernel that lie outside are as
/// before.
pub fn what_is_outside_stays()
    ensures cells { CellsStay }
    ensures bytes { BytesStay }
    ensures state { StatesStay }
    ensures texts { TextsStay }
    ensures follow { ChangesFollow }
{}

/// In every program that has these definitions at their places, they read a line and its words, check and keep the places behind each word,
/// reply, and go back behind an error, as the kernel's text says: with these prints and this input taken, the kernel's state afterwards and
/// the bytes that may change, within stated word steps and for a stated price.
pub fn lines_keep_their_laws()
    ensures checked { WordsAreChecked }
    ensures places { PlacesAreKept }
    ensures set_back { KernelIsSetBack }
    ensures reply { RepliesAreGiven }
    ensures line { LinesAreRead }
    ensures next { NextWordsAreRead }
    ensures in_turn { WordsAreReadInTurn }
    ensures whole { WordsAreWhole }
    ensures bytes { WordsHaveBytes }
{
    kernel_words_keep_their_laws();
}

/// INTERPRET reads word by word up to the end of the source or an error; each word is what INTERPRET-WORD, and TRY where that leaves code,
/// do of it.
pub fn lines_are_interpreted()
    ensures errors { ErrorsEndLines }
    ensures ends { LinesEnd }
    ensures begun { WordsAreBegun }
    ensures ended { WordsAreEnded }
    ensures done { WordsAreDone }
{}

/// ONE-LINE reads a line, interprets it and replies; MAIN sets the kernel back and repeats ONE-LINE, until the input ends.
pub fn main_repeats_lines()
    ensures line { LinesAreDone }
    ensures replied { LinesAreReplied }
    ensures first { FirstLineBegins }
    ensures begins { LinesBegin }
    ensures ended { LinesHaveEnded }
    ensures main { MainRepeatsLines }
    ensures further { MainGoesOn }
    ensures ends { InputEnds }
{}

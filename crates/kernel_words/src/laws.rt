// What the kernel's definitions do.
ghost use Rattle.kernel_words.specs.Laws.{CellsAreLaid, HeadersAreMade, ListIsLonger, NamesAreFound, NextWordsAreKept, NumbersAreRead};
ghost use Rattle.kernel_words.specs.Laws.{TextsAreKept, TextsAreParsed, WordsAreKept, WordsAreTaken};

/// In every program that has the kernel's definitions at their places, these do what the kernel's text says in words: they read the source,
/// numbers and names, and lay cells and headers, with nothing printed and no input taken, within stated word steps and for a stated price.
pub fn kernel_words_keep_their_laws()
    ensures taken { WordsAreTaken }
    ensures parsed { TextsAreParsed }
    ensures text_kept { TextsAreKept }
    ensures word_kept { WordsAreKept }
    ensures next_kept { NextWordsAreKept }
    ensures number { NumbersAreRead }
    ensures found { NamesAreFound }
    ensures cell { CellsAreLaid }
    ensures header { HeadersAreMade }
    ensures list { ListIsLonger }
{}

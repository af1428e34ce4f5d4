// What the cells of the inline words and of the words on return entries do.
ghost use Rattle.word_laws.specs.Words.{WordsDoTheirMeaning, WordsKeepTheirBounds, WordsEndWithinBounds, NeedsAreExact, WordsLeaveCells, WordsChangeDepths};

/// The cells of each inline word, and of `>R R> R@ I J UNLOOP`, do the word's meaning in as many instructions, or have ended
/// as the word ends (an access outside, the end of the input, `ABORT`, `QUIT`, or a store to the halt port).
pub fn words_do_their_meaning()
    ensures { WordsDoTheirMeaning }
{}

/// Before each of these instructions both depth counters are within the word's need, peak and back, and where the word ends the
/// run, after them too.
pub fn words_keep_their_bounds()
    ensures before_each { WordsKeepTheirBounds }
    ensures at_the_end { WordsEndWithinBounds }
{}

/// Such a word lacks cells or return entries exactly where there are fewer cells than its need, or other entries.
pub fn needs_are_exact()
    ensures { NeedsAreExact }
{}

/// Such a word leaves cells of 16 bits where it found cells of 16 bits and input bytes, and it leaves the work, the frames below
/// and the place of data space as they were.
pub fn words_leave_cells()
    ensures { WordsLeaveCells }
{}

/// Such a word changes the number of data cells by its exit in the table, and a word without an exit ends each run.
pub fn words_change_depths()
    ensures { WordsChangeDepths }
{}

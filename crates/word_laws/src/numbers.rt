// What the cells of a number do.
ghost use Rattle.word_laws.specs.Numbers.{NumbersDoTheirMeaning, NumbersKeepTheirBounds};

/// The cells of a number put it on the data cells, in as many instructions, with the data counter as before or one more and the
/// return counter as before.
pub fn numbers_do_their_meaning()
    ensures meaning { NumbersDoTheirMeaning }
    ensures bounds { NumbersKeepTheirBounds }
{}

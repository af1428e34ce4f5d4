// What the definitions of the library do.
ghost use Rattle.library_laws.specs.Library.{BodiesMeanWords, DefinitionsDoTheirMeaning, TypeIsCheap};
ghost use Rattle.library_laws.specs.Leaving.{LibraryWordsLeaveWell};

/// Each definition of the library does what its word means, from any state with as many data cells as the word needs: the same accesses
/// and prints, the same cells, or the same end. Its steps with its call and its end cost no more than the word, and each of them stays
/// within the word's peak and back.
pub fn definitions_do_their_meaning()
    ensures meaning { DefinitionsDoTheirMeaning }
    ensures type_is_cheap { TypeIsCheap }
{}

/// So do the bodies of a list of words, in their order.
pub fn bodies_mean_words()
    ensures { BodiesMeanWords }
{}

/// A library word that finds as many data cells as it needs leaves cells of 16 bits, as many as its exit in the table says, and a world
/// as it found one, or it ends the run for another cause than a lack of cells or return entries.
pub fn library_words_leave_well()
    ensures { LibraryWordsLeaveWell }
{}

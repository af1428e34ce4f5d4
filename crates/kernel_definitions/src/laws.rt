// What the kernel's words of definitions do.
ghost use Rattle.kernel_definitions.specs.Beginning.{DefinitionsAreBegun};
ghost use Rattle.kernel_definitions.specs.Compiling.{DefinitionsAreEnded, ItemsAreRead, OpenStays, WordsAreRead};
ghost use Rattle.kernel_definitions.specs.Laws.{BeginsAreCompiled, BranchesAreLaid, CallsAreLaid, ElsesAreCompiled, EntriesAreClosed};
ghost use Rattle.kernel_definitions.specs.Laws.{EntriesAreOpened, IfsAreCompiled, JumpsAreLaid, LargeNumbersAreLaid, PlacesArePatched};
ghost use Rattle.kernel_definitions.specs.Laws.{RepeatsAreCompiled, ReturnsAreLaid, SemicolonsAreCompiled, SmallNumbersAreLaid};
ghost use Rattle.kernel_definitions.specs.Laws.{ThensAreCompiled, UntilsAreCompiled, WhilesAreCompiled};
ghost use Rattle.kernel_definitions.specs.Ending.{DefinitionsAreKept};
ghost use Rattle.kernel_definitions.specs.Interpreting.{ColonsAreRead, SemicolonsAreRead, TextsAreRead};
ghost use Rattle.kernel_definitions.specs.Turns.{ChecksPass, PlacesWait, TurnsAreComposed, TurnsAreMade};
ghost use Rattle.kernel_definitions.specs.Opening.{DefinitionsAreOpened};
ghost use Rattle.kernel_definitions.specs.WholeLine.{BodiesAreRead, LinesOfWordsAreRead};
ghost use Rattle.kernel_definitions.specs.WholeDefinition.{DefinitionsAreTyped};

use kernel_words::kernel_words_keep_their_laws;

/// In every program that has the kernel's words of definitions at their places, each of these stores just these cells, one after the other,
/// takes and leaves these data cells, and prints nothing and takes no input, within stated word steps and for a stated price.
pub fn defining_words_store()
    ensures compile_small { SmallNumbersAreLaid }
    ensures compile_large { LargeNumbersAreLaid }
    ensures compile_call { CallsAreLaid }
    ensures compile_return { ReturnsAreLaid }
    ensures compile_jump { JumpsAreLaid }
    ensures compile_branch { BranchesAreLaid }
    ensures patch { PlacesArePatched }
    ensures open { EntriesAreOpened }
    ensures close { EntriesAreClosed }
    ensures kernel_if { IfsAreCompiled }
    ensures kernel_then { ThensAreCompiled }
    ensures kernel_else { ElsesAreCompiled }
    ensures kernel_begin { BeginsAreCompiled }
    ensures kernel_until { UntilsAreCompiled }
    ensures kernel_while { WhilesAreCompiled }
    ensures kernel_repeat { RepeatsAreCompiled }
    ensures kernel_semicolon { SemicolonsAreCompiled }
{}

/// In every program that has the kernel's words of definitions at their places, `:` begins a definition, whose header is made and not yet
/// on the chain, each word of an open definition leaves the cells of the items that were read, with the open structures' places still to be
/// filled, and `;` the cells of all items and the new header on the chain. Nothing is printed or taken, and no other cell of data space is
/// changed, within stated word steps and for a stated price.
pub fn typed_definitions_are_compiled()
    ensures begin { DefinitionsAreBegun }
    ensures word { WordsAreRead }
    ensures end { DefinitionsAreEnded }
    ensures stays { OpenStays }
{
    kernel_words_keep_their_laws();
}

/// The words that items are typed as lead, one by one, to these items, with two open entries for each level of nesting at most.
pub fn items_are_typed()
    ensures { ItemsAreRead }
{}

/// INTERPRET-WORD begins a definition by `:` and ends it by `;`, and reads a word of an open definition: a name that is found is called or,
/// where it is a structure word, done, and any other text is compiled as the number that it is.
pub fn texts_are_interpreted()
    ensures colon { ColonsAreRead }
    ensures word { TextsAreRead }
    ensures semicolon { SemicolonsAreRead }
{
    kernel_words_keep_their_laws();
    typed_definitions_are_compiled();
}

/// A turn of INTERPRET's loop comes back to the test of the loop with a word of an open definition read, and with no byte changed but those
/// that the word and NEXT-WORD change; and so does a turn with any word that INTERPRET-WORD leaves 0 for, with what its parts leave. CHECK
/// finds nothing where places and cells are within their limits, and KEEP-PLACES keeps nothing while a definition is open.
pub fn turns_read_words()
    ensures turn { TurnsAreMade }
    ensures composed { TurnsAreComposed }
    ensures check { ChecksPass }
    ensures wait { PlacesWait }
{
    kernel_words_keep_their_laws();
    texts_are_interpreted();
}

/// A turn of INTERPRET's loop with `:` and a name opens a definition. The words of a definition, one after the other on a line, are read by
/// as many turns, so that the items of a definition are read whole, and no other byte is changed but those of HERE, of the open structures,
/// of >IN and of WORD-BUFFER. A turn with `;` then leaves the definition whole, and its end and its header as the places to come back to.
/// So a whole definition on a line is compiled to the cells of its items, and all that it leaves is known.
pub fn definitions_are_read_off_lines()
    ensures words { LinesOfWordsAreRead }
    ensures opened { DefinitionsAreOpened }
    ensures body { BodiesAreRead }
    ensures kept { DefinitionsAreKept }
    ensures whole { DefinitionsAreTyped }
{
    kernel_words_keep_their_laws();
    texts_are_interpreted();
    turns_read_words();
}

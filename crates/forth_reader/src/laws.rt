// What readings mean, for all texts.
ghost use Rattle.forth_reader.specs.Splitting.{NextIsComputed, NameIsComputed, StringIsComputed};
ghost use Rattle.forth_reader.specs.TokenList.{HasTokens, HasNoOtherTokens, CallsGiveTokens};

/// What `next`, `name` and `string` read at a place is what a splitting of the text allows, and nothing else.
pub fn readings_are_splittings()
    ensures next { NextIsComputed }
    ensures name { NameIsComputed }
    ensures string { StringIsComputed }
{}

/// Each text has one list of tokens, whichever of them are read as names. A reader that is asked by `next` and `name`, and by
/// `string` behind each string word that `next` gave, until a call gives no token, gives those of them that are no comments, and
/// where they end.
pub fn texts_have_one_token_list()
    ensures exists { HasTokens }
    ensures unique { HasNoOtherTokens }
    ensures given { CallsGiveTokens }
{}

// The code of execution tokens, and the jumps that lead to it.
ghost use Rattle.std.specs.Prelude.{◌≡◌, ◌+◌, ◌≤◌, ◌<◌, ◌++◌, ◌∷◌, [], length, map, OnOk, true};
ghost use Rattle.std.specs.List.{list_all};
ghost use Rattle.forth_program.specs.Parts.{token_node};
ghost use Rattle.word_laws.specs.Numbers.{number_cells};
ghost use Rattle.forth_program.specs.Tree.{Plain};
ghost use Rattle.code_layout.specs.Numbering.{library_number as number_of};
ghost use Rattle.code_layout.specs.Built.{token_is_laid_out};
ghost use Rattle.code_layout.specs.Layout.{Definition, jump_to, word_token_cells, word_token_size as word_token_code_size, word_token_place as word_token_code_place, token_size as token_code_size, token_place as token_code_place, token_cells, tokens_cells, token_jumps, tokens_size as size_of_tokens};
ghost use Rattle.code_layout.specs.Places.{ArePlaces, place_by, word_count, definition_count};

use crate::cells::{add_jump, add_number, add_return, add_word};
use crate::places::{Places, library_number};
use crate::sizes::number_size;
use forth_program::Token;
use std::alloc::AllocError;
use word_table::{Word, plain_cells};

// The code of a library word stands already.
fn word_token_size(word: Word) -> u16
    ensures { result ≡ word_token_code_size (number_of word) word }
{
    match library_number(word) {
        None => plain_cells(word).len() as u16 + 1,
        Some(_) => 0,
    }
}

#[tactic(auto, unfolding(crate::specs::Places::place_by))]
fn word_token_place(word: Word, places: &Places, at: u16) -> u16
    requires { token_is_laid_out (word_count places.now) (definition_count places.now) (Plain word) ≡ true }
    ensures { result ≡ word_token_code_place (place_by places.now) at (number_of word) }
{
    match library_number(word) {
        None => at,
        Some(number) => places.words[number as usize],
    }
}

fn add_word_token(code: &mut Vec<u16>, word: Word, data_start: u16) -> Result<(), AllocError>
    requires { data_start ≤ 16000 }
    ensures { OnOk result (code.new.items ≡ code.old.items ++ word_token_cells data_start (number_of word) word) }
{
    match library_number(word) {
        None => {
            add_word(code, word, data_start)?;
            add_return(code, true)
        }
        Some(_) => Ok(()),
    }
}

// The cells of a token's code. That of a definition stands already.
fn token_size(token: Token) -> u16
    ensures { result ≡ token_code_size (token_node token) }
{
    match token {
        Token::Def(_) => 0,
        Token::Table(word) => word_token_size(word),
        Token::Value(value) => number_size(value) + 1,
        Token::Child(_, address) => number_size(address) + 1,
    }
}

/// The cells of the code of tokens.
pub(crate) fn tokens_size(tokens: &[Token]) -> u16
    requires { size_of_tokens (map token_node tokens.now) ≤ 8000 }
    ensures { result ≡ size_of_tokens (map token_node tokens.now) }
{
    let mut total: u16 = 0;
    for token in tokens {
        total = total + token_size(*token);
    }
    total
}

// Where the code of a token begins, if that of its own would begin at a place.
#[tactic(auto, unfolding(crate::specs::Places::place_by))]
fn token_place(token: Token, places: &Places, at: u16) -> u16
    requires { token_is_laid_out (word_count places.now) (definition_count places.now) (token_node token) ≡ true }
    ensures { result ≡ token_code_place (place_by places.now) at (token_node token) }
{
    match token {
        Token::Def(id) => places.definitions[id.0 as usize],
        Token::Table(word) => word_token_place(word, places, at),
        Token::Value(_) => at,
        Token::Child(_, _) => at,
    }
}

/// A jump to the code of each token, where the first that has code of its own begins at a place.
pub(crate) fn add_token_jumps(
    code: &mut Vec<u16>,
    tokens: &[Token],
    places: &Places,
    first: u16,
) -> Result<(), AllocError>
    requires laid_out { list_all (token_is_laid_out (word_count places.now) (definition_count places.now)) (map token_node tokens.now) ≡ true }
    requires room { first + size_of_tokens (map token_node tokens.now) ≤ 8000 }
    ensures { OnOk result (code.new.items ≡ code.old.items ++ token_jumps (place_by places.now) first (map token_node tokens.now)) }
{
    let mut at = first;
    for token in tokens {
        add_jump(code, token_place(*token, places, at))?;
        at = at + token_size(*token);
    }
    Ok(())
}

#[tactic(auto, unfolding(crate::specs::Places::place_by))]
fn add_child_token(
    code: &mut Vec<u16>,
    definition: u16,
    address: u16,
    places: &Places,
) -> Result<(), AllocError>
    requires { definition < definition_count places.now }
    ensures { OnOk result (code.new.items ≡ code.old.items ++ number_cells address ++ jump_to (place_by places.now (Definition definition)) ∷ []) }
{
    add_number(code, address)?;
    add_jump(code, places.definitions[definition as usize])
}

// The code of a token: an item and a return, or of a child its address and a jump.
fn add_token(
    code: &mut Vec<u16>,
    token: Token,
    places: &Places,
    data_start: u16,
) -> Result<(), AllocError>
    requires places { ArePlaces places.now }
    requires start { data_start ≤ 16000 }
    requires laid_out { token_is_laid_out (word_count places.now) (definition_count places.now) (token_node token) ≡ true }
    ensures { OnOk result (code.new.items ≡ code.old.items ++ token_cells data_start (place_by places.now) (token_node token)) }
{
    match token {
        Token::Def(_) => Ok(()),
        Token::Table(word) => add_word_token(code, word, data_start),
        Token::Value(value) => {
            add_number(code, value)?;
            add_return(code, true)
        }
        Token::Child(id, address) => add_child_token(code, id.0, address, places),
    }
}

/// The code of tokens, one after the other.
pub(crate) fn add_tokens(
    code: &mut Vec<u16>,
    tokens: &[Token],
    places: &Places,
    data_start: u16,
) -> Result<(), AllocError>
    requires places { ArePlaces places.now }
    requires start { data_start ≤ 16000 }
    requires laid_out { list_all (token_is_laid_out (word_count places.now) (definition_count places.now)) (map token_node tokens.now) ≡ true }
    ensures { OnOk result (code.new.items ≡ code.old.items ++ tokens_cells data_start (place_by places.now) (map token_node tokens.now)) }
{
    for token in tokens {
        add_token(code, *token, places, data_start)?;
    }
    Ok(())
}

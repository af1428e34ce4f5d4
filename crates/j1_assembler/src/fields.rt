// The fields of a line.
ghost use Rattle.std.specs.Prelude.{◌≡◌, ◌<◌, ◌≤◌, [], ◌∷◌, length, MatchOption, IfSome};
ghost use Rattle.j1_assembler.specs.Text.{is_blank, from_word, from_blank, first_word, behind_word, fields_of};

fn is_blank(byte: u8) -> bool
    ensures { result ≡ is_blank byte }
{
    byte == b' ' || byte == b'\t' || byte == b'\r'
}

// What stands from the first byte on that is no blank.
fn from_word(line: &[u8]) -> &[u8]
    ensures { result.now ≡ from_word line.now }
{
    let mut rest = line;
    while let Some((byte, tail)) = rest.split_first() {
        if !is_blank(*byte) {
            return rest;
        }
        rest = tail;
    }
    rest
}

// What stands from the first blank on.
fn from_blank(line: &[u8]) -> &[u8]
    ensures { result.now ≡ from_blank line.now }
{
    let mut rest = line;
    while let Some((byte, tail)) = rest.split_first() {
        if is_blank(*byte) {
            return rest;
        }
        rest = tail;
    }
    rest
}

// The first word of a line, and what stands behind it.
#[tactic(auto, using(crate::proofs::Parts::from_shorter, crate::proofs::Parts::before_is))]
fn split_word(line: &[u8]) -> (&[u8], &[u8])
    ensures word { result.0.now ≡ first_word line.now }
    ensures behind { result.1.now ≡ behind_word line.now }
{
    let from_word = from_word(line);
    let behind = from_blank(from_word);
    let (word, _) = from_word.split_at(from_word.len() - behind.len());
    (word, behind)
}

/// The first field of a line, and the line behind it. None where a comment or nothing is left.
#[tactic(auto, using(crate::proofs::Parts::no_field, crate::proofs::Parts::comment_field, crate::proofs::Parts::some_field, crate::proofs::Parts::behind_word_shorter))]
pub fn next_field(line: &[u8]) -> Option<(&[u8], &[u8])>
    ensures cases { MatchOption result (fields_of line.now ≡ []) (λ found. fields_of line.now ≡ found.0.now ∷ fields_of found.1.now) }
    ensures shorter { IfSome result (λ found. length found.1.now < length line.now) }
{
    let (field, behind) = split_word(line);
    if field.is_empty() {
        return None;
    }
    if field == b"\\".as_slice() {
        return None;
    }
    Some((field, behind))
}

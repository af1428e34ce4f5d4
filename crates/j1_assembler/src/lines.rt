// The lines of a text.
ghost use Rattle.std.specs.Prelude.{◌≡◌, ◌<◌, ◌+◌, ◌≤◌, [], ◌∷◌, length, drop, MatchOption};
ghost use Rattle.std.specs.List.{list_all};
ghost use Rattle.j1_assembler.specs.Text.{lines_of, from_line_feed, is_line_byte, is_formed};

// What stands from the first line feed on.
fn from_line_feed(text: &[u8]) -> &[u8]
    ensures { result.now ≡ from_line_feed text.now }
{
    let mut rest = text;
    while let Some((byte, tail)) = rest.split_first() {
        if *byte == b'\n' {
            return rest;
        }
        rest = tail;
    }
    rest
}

// The text without its first byte.
fn tail(text: &[u8]) -> &[u8]
    ensures { result.now ≡ drop 1 text.now }
{
    match text.split_first() {
        Some((_, rest)) => rest,
        None => text,
    }
}

/// The first line of a text, without its line feed, and the text behind it.
#[tactic(auto, using(crate::proofs::Parts::from_shorter, crate::proofs::Parts::before_is, crate::proofs::Parts::lines_begin, crate::proofs::Parts::behind_line_shorter))]
pub fn next_line(text: &[u8]) -> Option<(&[u8], &[u8])>
    ensures { MatchOption result (lines_of text.now ≡ []) (λ found. (lines_of text.now ≡ found.0.now ∷ lines_of found.1.now) × (length found.1.now < length text.now)) }
{
    if text.is_empty() {
        return None;
    }
    let behind = from_line_feed(text);
    let (line, _) = text.split_at(text.len() - behind.len());
    Some((line, tail(behind)))
}

// Whether the byte may stand in a line.
fn is_line_byte(byte: u8) -> bool
    ensures { result ≡ is_line_byte byte }
{
    (byte >= 32 && byte <= 126) || byte == b'\t' || byte == b'\r'
}

fn are_line_bytes(bytes: &[u8]) -> bool
    ensures { result ≡ list_all is_line_byte bytes.now }
{
    for byte in bytes {
        if !is_line_byte(*byte) {
            return false;
        }
    }
    true
}

/// Whether a line has at most 256 bytes, and none but those from 32 to 126, tabs and carriage returns.
pub fn is_formed(line: &[u8]) -> bool
    ensures { result ≡ is_formed line.now }
{
    line.len() <= 256 && are_line_bytes(line)
}

// Names, and tables of names.
ghost use Rattle.std.specs.Prelude.{◌≡◌, ◌<◌, [], length, map, MatchOption, IfSome, slice_index_or, Some, None};
ghost use Rattle.std.specs.List.{list_all};
ghost use Rattle.j1_assembler.specs.Names.{is_letter, is_name_byte, is_name, label_of, operation_names, place_from, named_cells, cell_in, name_in};

const OPERATIONS: [&str; 16] = [
    "T", "N", "T+N", "T&N", "T|N", "T^N", "~T", "N=T", "N<T", "N>>T", "T-1", "R", "[T]", "N<<T",
    "depth", "Nu<T",
];

const NAMED: [(&str, u16); 22] = [
    ("noop", 0x6000),
    ("dup", 0x6081),
    ("drop", 0x6103),
    ("swap", 0x6180),
    ("over", 0x6181),
    ("nip", 0x6003),
    ("+", 0x6203),
    ("and", 0x6303),
    ("or", 0x6403),
    ("xor", 0x6503),
    ("invert", 0x6600),
    ("=", 0x6703),
    ("<", 0x6803),
    ("rshift", 0x6903),
    ("1-", 0x6A00),
    ("@", 0x6C00),
    ("lshift", 0x6D03),
    ("u<", 0x6F03),
    (">r", 0x6147),
    ("r>", 0x6B8D),
    ("r@", 0x6B81),
    ("exit", 0x700C),
];

fn is_letter(byte: u8) -> bool
    ensures { result ≡ is_letter byte }
{
    (byte >= b'A' && byte <= b'Z') || (byte >= b'a' && byte <= b'z')
}

fn is_name_byte(byte: u8) -> bool
    ensures { result ≡ is_name_byte byte }
{
    is_letter(byte) || (byte >= b'0' && byte <= b'9') || byte == b'_'
}

fn are_name_bytes(bytes: &[u8]) -> bool
    ensures { result ≡ list_all is_name_byte bytes.now }
{
    for byte in bytes {
        if !is_name_byte(*byte) {
            return false;
        }
    }
    true
}

/// Whether a field is a name: a letter, and up to 30 letters, digits or `_`.
pub fn is_name(field: &[u8]) -> bool
    ensures { result ≡ is_name field.now }
{
    match field.split_first() {
        Some((first, rest)) => is_letter(*first) && rest.len() <= 30 && are_name_bytes(rest),
        None => false,
    }
}

/// The name of a field that is a name and `:`.
pub fn label_name(field: &[u8]) -> Option<&[u8]>
    ensures { MatchOption result (label_of field.now ≡ None) (λ name. label_of field.now ≡ Some name.now) }
{
    match field.split_last() {
        Some((last, name)) if *last == b':' && is_name(name) => Some(name),
        _ => None,
    }
}

/// The name of an ALU operation.
pub fn operation_name(operation: u8) -> &'static str
    requires { operation < 16 }
    ensures { result.now ≡ slice_index_or operation_names operation [] }
{
    OPERATIONS[usize::from(operation)]
}

// The place of a field in a list of names.
fn place_in(field: &[u8], names: &[&str]) -> Option<usize>
    ensures value { result ≡ place_from 0 field.now (map (λ x. x.now) names.now) }
    ensures bound { IfSome result (λ place. place < length names.now) }
{
    for (place, name) in names.iter().enumerate() {
        if field == name.as_bytes() {
            return Some(place);
        }
    }
    None
}

// The cell of a field in a list of names with cells.
pub fn cell_in(field: &[u8], entries: &[(&str, u16)]) -> Option<u16>
    ensures { result ≡ cell_in field.now (map (λ entry. (entry.0.now, entry.1)) entries.now) }
{
    for entry in entries {
        if field == entry.0.as_bytes() {
            return Some(entry.1);
        }
    }
    None
}

// The name of a cell in such a list.
fn name_in(cell: u16, entries: &[(&'static str, u16)]) -> Option<&'static str>
    ensures { MatchOption result
        (name_in cell (map (λ entry. (entry.0.now, entry.1)) entries.now) ≡ None)
        (λ name. name_in cell (map (λ entry. (entry.0.now, entry.1)) entries.now) ≡ Some name.now) }
{
    for entry in entries {
        if cell == entry.1 {
            return Some(entry.0);
        }
    }
    None
}

/// The number of the ALU operation of this name.
pub fn operation_of(field: &[u8]) -> Option<u8>
    ensures value { result ≡ place_from 0 field.now operation_names }
    ensures bound { IfSome result (λ operation. operation < 16) }
{
    match place_in(field, &OPERATIONS) {
        Some(place) => Some(place as u8),
        None => None,
    }
}

/// The cell of a name of the table.
pub fn named_cell(field: &[u8]) -> Option<u16>
    ensures { result ≡ cell_in field.now named_cells }
{
    cell_in(field, &NAMED)
}

/// The name of a cell of the table.
pub fn name_of_cell(cell: u16) -> Option<&'static str>
    ensures { MatchOption result (name_in cell named_cells ≡ None) (λ name. name_in cell named_cells ≡ Some name.now) }
{
    name_in(cell, &NAMED)
}

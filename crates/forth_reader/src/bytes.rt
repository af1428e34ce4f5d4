// The kinds of bytes of a source.
ghost use Rattle.std.specs.Prelude.{◌≡◌};
ghost use Rattle.forth_reader.specs.Bytes.{is_graphic, is_blank, is_source_byte, is_string_byte};

/// Whether the byte can stand in a token: 33 to 126.
pub(crate) fn is_graphic(byte: u8) -> bool
    ensures { result ≡ is_graphic byte }
{
    byte >= 33 && byte <= 126
}

/// Whether the byte is a space, a tab, a line feed or a carriage return.
pub(crate) fn is_blank(byte: u8) -> bool
    ensures { result ≡ is_blank byte }
{
    byte == b' ' || byte == b'\t' || byte == b'\n' || byte == b'\r'
}

/// Whether the byte can stand in a source at all.
pub(crate) fn is_source_byte(byte: u8) -> bool
    ensures { result ≡ is_source_byte byte }
{
    is_graphic(byte) || is_blank(byte)
}

/// Whether the byte can stand in the text of a string word: no quote and no line feed.
pub(crate) fn is_string_byte(byte: u8) -> bool
    ensures { result ≡ is_string_byte byte }
{
    is_source_byte(byte) && byte != b'"' && byte != b'\n'
}

// ASCII bytes as text.
ghost use Rattle.std.specs.Prelude.{◌≡◌, ◌<◌};
ghost use Rattle.std.specs.List.{All};

/// The text of bytes below 128.
pub(crate) fn ascii_text(bytes: &[u8]) -> &str
    requires { All (λ byte. byte < 128) bytes.now }
    ensures { result.now ≡ bytes.now }
{
    unsafe { str::from_utf8_unchecked(bytes) }
}

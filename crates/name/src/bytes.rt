// Tests on the bytes of a text.
ghost use Rattle.std.specs.Prelude.{◌≡◌};
ghost use Rattle.std.specs.Str.{bytes_eq};
ghost use Rattle.name.specs.Texts.{name_byte, is_name};

// Whether two texts are equal. It takes `b"cost"` as it is, where `==` wants `b"cost".as_slice()`.
pub fn same_bytes(one: &[u8], other: &[u8]) -> bool
    ensures { result ≡ bytes_eq one.now other.now }
{
    one == other
}

fn is_name_byte(byte: &u8) -> bool
    ensures { result ≡ name_byte byte.now }
{
    byte.is_ascii_alphanumeric() || *byte == b'_' || *byte == b'.'
}

// Whether a text is 1 to 16 letters, digits, `_` and `.`.
pub(crate) fn is_name(text: &[u8]) -> bool
    ensures { result ≡ is_name text.now }
{
    (1..=16).contains(&text.len()) && text.iter().all(is_name_byte)
}

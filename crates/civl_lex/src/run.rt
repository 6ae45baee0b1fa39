// Runs of bytes of one kind.
ghost use Rattle.std.specs.Prelude.{◌≡◌, ◌==◌};
ghost use Rattle.std.specs.Char.{is_ascii_digit};
ghost use Rattle.std.specs.List.{prefix_len, position_or_len};
ghost use Rattle.civl_tree.specs.Token.{begins_name, is_name_byte};

/// Whether a name or a reserved word may begin with the byte.
pub fn begins_name(byte: u8) -> bool
    ensures { result ≡ begins_name byte }
{
    byte.is_ascii_alphabetic() || byte == b'_'
}

/// Whether the byte is a letter, a digit or `_`.
pub fn is_name_byte(byte: u8) -> bool
    ensures { result ≡ is_name_byte byte }
{
    begins_name(byte) || byte.is_ascii_digit()
}

/// How many letters, digits and `_` are at the front.
pub fn name_len(bytes: &[u8]) -> usize
    ensures { result ≡ prefix_len is_name_byte bytes.now }
{
    bytes.iter().take_while(|byte| is_name_byte(**byte)).count()
}

/// How many digits are at the front.
pub fn digit_len(bytes: &[u8]) -> usize
    ensures { result ≡ prefix_len is_ascii_digit bytes.now }
{
    bytes
        .iter()
        .take_while(|byte| byte.is_ascii_digit())
        .count()
}

/// How many bytes stand before the first line feed, or all.
pub fn line_len(bytes: &[u8]) -> usize
    ensures { result ≡ position_or_len (λ byte. byte == 10) bytes.now }
{
    bytes.iter().take_while(|byte| **byte != b'\n').count()
}

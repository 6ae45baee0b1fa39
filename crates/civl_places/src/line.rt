// The line in which a place of a text lies.
ghost use Rattle.std.specs.Prelude.{◌≡◌, ◌+◌, ◌≤◌, length};
ghost use Rattle.std.specs.List.{position_or_len};
ghost use Rattle.civl_places.specs.Lines.{is_feed, line_at};
ghost use Rattle.civl_places.specs.inner.Begin.{begin_of};

/// Where the line begins in which the offset lies.
fn line_start(bytes: &[u8], offset: usize) -> usize
    requires { offset ≤ length bytes.now }
    ensures within { result ≤ offset }
    ensures begin { result ≡ begin_of bytes.now offset }
{
    let mut start = offset;
    while start > 0 && bytes[start - 1] != b'\n' {
        start -= 1;
    }
    start
}

/// How many bytes stand before the first line feed, or all.
fn line_len(bytes: &[u8]) -> usize
    ensures { result ≡ position_or_len is_feed bytes.now }
{
    bytes.iter().take_while(|byte| **byte != b'\n').count()
}

/// The line in which the offset lies, without the line feed that ends it. An offset at a line feed lies in the line
/// that this line feed ends.
///
/// The bytes may be any, of any number. Nothing is allocated.
pub fn line_at(bytes: &[u8], offset: usize) -> &[u8]
    requires { offset ≤ length bytes.now }
    ensures { result.now ≡ line_at bytes.now offset }
{
    let start = line_start(bytes, offset);
    let end = offset + line_len(&bytes[offset..]);
    &bytes[start..end]
}

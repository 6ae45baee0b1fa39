// The line and the column of a place in a text.
ghost use Rattle.std.specs.Prelude.{◌≡◌, ◌+◌, ◌≤◌, length};
ghost use Rattle.civl_places.specs.Lines.{line_of, column_of};

/// A place in a text, as an editor counts it.
#[derive(Clone, Copy, Debug, PartialEq, Eq)]
pub struct Position {
    /// The number of the line, from 1.
    pub line: usize,
    /// The number of the byte in its line, from 1.
    pub column: usize,
}

/// The line and the column of the byte at this offset, both counted from 1, or those of the end where the offset is the
/// length. A line ends with its line feed (byte 10), a column counts bytes.
///
/// The bytes may be any, of any number. The bytes before the offset are read once, and nothing is allocated.
pub fn position_at(bytes: &[u8], offset: usize) -> Position
    requires { offset ≤ length bytes.now }
    ensures line { result.line ≡ line_of bytes.now offset }
    ensures column { result.column ≡ column_of bytes.now offset }
{
    let mut line = 1;
    let mut start = 0;
    for at in 0..offset {
        if bytes[at] == b'\n' {
            line += 1;
            start = at + 1;
        }
    }
    let column = offset - start + 1;
    Position { line, column }
}

// Why tokens are no text.

/// Why tokens are no program, or no script, with the place of the fault, counted from the first token.
#[derive(Clone, Copy, Debug, PartialEq, Eq)]
pub enum ParseFault {
    /// The tokens before this one begin a spelling, and none begins with them and this one. At the number of the
    /// tokens it is the end that can't stand there.
    NotHere(usize),
    /// This token may stand here, but opens the 65th bracket of `(`, `[` and `{` that isn't closed.
    Deep(usize),
    /// Memory is wanting.
    Memory,
}

// Tokens, with their places.

/// What a token is.
#[derive(Clone, Copy, Debug, PartialEq, Eq)]
pub enum Kind {
    /// A letter or `_`, followed by letters, digits and `_`, that is no reserved word.
    Name,
    /// Digits with no leading zero, with their value.
    Number(u32),
    /// A reserved word.
    Word,
    /// A sign, as `:=` or `(`.
    Sign,
}

/// A token of a source text.
#[derive(Clone, Copy, Debug)]
pub struct Token<'a> {
    pub kind: Kind,
    /// The bytes that spell it: the slice of the source from `start`.
    pub text: &'a [u8],
    /// The place of its first byte in the source.
    pub start: usize,
}

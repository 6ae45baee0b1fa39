// Kinds of text.

/// What a text is to be.
#[derive(Clone, Copy, Debug, PartialEq, Eq)]
pub enum TextKind {
    Program,
    Script,
    Outline,
}

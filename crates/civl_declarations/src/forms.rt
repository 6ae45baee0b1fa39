// How phrases begin: what the next token tells.

/// How a literal of a script begins.
#[derive(Clone, Copy)]
pub enum LiteralForm {
    True,
    False,
    Number,
}

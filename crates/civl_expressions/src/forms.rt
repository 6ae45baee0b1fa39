// How phrases begin: what the next token tells.

/// How a sort begins.
#[derive(Clone, Copy)]
pub enum SortForm {
    Bool,
    Word,
    Row,
}

/// How an expression begins.
#[derive(Clone, Copy)]
pub enum ExprForm {
    Name,
    Literal,
    True,
    False,
    Done,
    Old,
    Paren,
    Get,
    Set,
    Fill,
    Slice,
    Widen,
    Join,
}

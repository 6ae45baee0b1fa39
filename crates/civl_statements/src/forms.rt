// How phrases begin: what the next token tells.

/// How a statement begins.
#[derive(Clone, Copy)]
pub enum StmtForm {
    Assign,
    Assert,
    If,
    While,
    Call,
    Yield,
    Commit,
    Intro,
    Spawn,
}

// Lines of stories.

use civl_tree::List;

/// Whether a line tells what happens, or where something is lost.
#[derive(Clone, Copy, Debug, PartialEq, Eq)]
pub enum Kind {
    Info,
    Error,
}

/// What of the source a line shows, from its token on: nothing; the head of the statement that begins there, up to its first `;`
/// or to before its first `{`; or so many tokens. Of these the first line is shown.
#[derive(Clone, Copy, Debug, PartialEq, Eq)]
pub enum Shown {
    Nothing,
    Head,
    Tokens(usize),
}

/// A line of a story: the token at which it points, counted from 0, what of the source it shows, its kind, and what it says, which
/// has no line feed.
#[derive(Drop)]
pub struct Line {
    pub token: usize,
    pub shown: Shown,
    pub kind: Kind,
    pub text: List<u8>,
}

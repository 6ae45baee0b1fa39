// The ways on which the paths from a cut end, as terms.

use civl_terms::Id;
use civl_tree::List;

/// The end of paths from a cut: the number of the cut before which they end, or the number of the procedure's cuts, which is the
/// exit; whether the path ends there; and, where it does, the globals, the parameters, outputs and locals, and `done` there.
#[derive(Drop)]
pub struct Way {
    pub end: u32,
    pub taken: Id,
    pub globals: List<Id>,
    pub locals: List<Id>,
    pub done: Id,
}

/// What the paths from a cut come to: whether no gate and no assert is false where it is reached; whether no commit is passed where
/// `done` is true; and a way for each end that some path reaches, in rising order.
#[derive(Drop)]
pub struct Walk {
    pub safe: Id,
    pub once: Id,
    pub ways: List<Way>,
}

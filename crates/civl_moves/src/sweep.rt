// The terms of a sweep.

use civl_terms::Id;
use civl_tree::List;

/// A cut before which some path ends: the number of its statement; whether the path ends there; and, where it does, the globals, the
/// parameters, outputs and locals, and `done` there.
#[derive(Drop)]
pub struct Stop {
    pub number: u32,
    pub taken: Id,
    pub globals: List<Id>,
    pub locals: List<Id>,
    pub done: Id,
}

/// A sweep on its way: whether some path goes on from here, whatever the values; whether the path is here, and, where it is, the
/// globals, the parameters, outputs and locals, and `done`; and of what is behind, whether no gate and no assert was false where it
/// was reached, whether no commit was passed where `done` was true, and where paths end.
#[derive(Drop)]
pub struct Sweep {
    pub onward: bool,
    pub live: Id,
    pub globals: List<Id>,
    pub locals: List<Id>,
    pub done: Id,
    pub safe: Id,
    pub once: Id,
    pub stops: List<Stop>,
}

// The terms of an action.

use civl_terms::Id;
use civl_tree::List;

/// The terms of an action: its gate, its guard, the globals after its updates, and its outputs.
#[derive(Drop)]
pub struct Instance {
    pub gate: Id,
    pub guard: Id,
    pub globals: List<Id>,
    pub outs: List<Id>,
}

/// The terms of what an action's updates give: the globals after them, and its outputs.
#[derive(Drop)]
pub struct Changed {
    pub globals: List<Id>,
    pub outs: List<Id>,
}

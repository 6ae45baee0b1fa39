// The variables of a goal of a statement.

use civl_terms::Id;
use civl_tree::List;

/// The terms of the globals, of a root's parameters, outputs and locals, and of the choices of its call.
#[derive(Drop)]
pub(crate) struct Setting {
    pub globals: List<Id>,
    pub locals: List<Id>,
    pub choices: List<Id>,
}

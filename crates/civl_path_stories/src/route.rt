// The path of which a story is told.

use civl_layers::Cut;
use civl_losses::Story;
use civl_tree::{Proc, Program};

/// A path of which a story is told, of a condition at a step: its procedure with its number and its cuts, the cut where it begins, and
/// what it passes.
#[derive(Clone, Copy)]
pub(crate) struct Route<'a> {
    pub program: &'a Program,
    pub step: u32,
    pub number: u32,
    pub proc: &'a Proc,
    pub cuts: &'a [Cut],
    pub from: u32,
    pub cut: Cut,
    pub path: &'a Story,
}

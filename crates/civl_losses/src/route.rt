// The path of a condition, with what its procedure has.

use crate::beginning::Beginning;
use civl_layers::Cut;
use civl_traces::Walked;
use civl_tree::{Proc, Program, Stmt};

/// A path from a cut of a procedure at a step: the cut with its number and the numbers of the locals that are held there, all statements
/// and all cuts of the procedure, the values at the path's beginning, and what it passes.
#[derive(Clone, Copy)]
pub(crate) struct Route<'a> {
    pub program: &'a Program,
    pub step: u32,
    pub proc: &'a Proc,
    pub stmts: &'a [&'a Stmt],
    pub cuts: &'a [Cut],
    pub number: u32,
    pub cut: Cut,
    pub held: &'a [u32],
    pub beginning: &'a Beginning,
    pub walked: &'a Walked,
}

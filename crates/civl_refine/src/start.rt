// The cut from which paths begin.

use civl_layers::Cut;
use civl_tree::{Expr, Proc, Program};

/// A cut of a procedure, from which paths begin at a step, with what belongs to it: its number among the procedure's cuts, its
/// invariant, the numbers of the locals that are held there, and the number of the action that the procedure refines.
#[derive(Clone, Copy)]
pub struct Start<'a> {
    pub program: &'a Program,
    pub step: u32,
    pub proc: &'a Proc,
    pub number: u32,
    pub cut: Cut,
    pub note: Option<&'a Expr>,
    pub held: &'a [u32],
    pub refined: u32,
}

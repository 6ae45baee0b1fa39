// Outlines: a program, an invariant of its topmost program, and notes before statements of its roots.

use civl_tree::{Expr, List, Program};

/// What is said before a statement: the number of an item, which is a root, the number of a statement in it, and a bool
/// over the globals of the topmost program and the root's parameters, outputs and locals.
#[derive(Drop)]
pub struct Note {
    pub item: u32,
    pub statement: u32,
    pub expr: Expr,
}

/// A program with what is said of the topmost one: `holds` together are an invariant of its stores.
#[derive(Drop)]
pub struct Outline {
    pub program: Program,
    pub holds: List<Expr>,
    pub notes: List<Note>,
}

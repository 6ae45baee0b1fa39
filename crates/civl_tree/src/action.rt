// Gated atomic actions.

use crate::expr::{Expr, Sort};
use crate::list::List;
use crate::name::Name;

/// How a parameter or an output is passed: as a plain value, or as a linear one that is lent, taken or given.
#[derive(Clone, Copy, Debug, PartialEq, Eq)]
pub enum Mode {
    Val,
    Lend,
    Take,
    Give,
}

/// A parameter or an output of an action or a procedure.
#[derive(Drop)]
pub struct Param {
    pub mode: Mode,
    pub name: Name,
    pub sort: Sort,
}

/// A choice of an action, with the value that is offered for it.
#[derive(Drop)]
pub struct Choice {
    pub name: Name,
    pub sort: Sort,
    pub offer: Expr,
}

/// Which way an action commutes with the actions of other threads.
#[derive(Clone, Copy, Debug, PartialEq, Eq)]
pub enum Mover {
    Atomic,
    Right,
    Left,
    Both,
}

/// One of the assignments that an action makes at once.
#[derive(Drop)]
pub struct Update {
    pub target: Name,
    pub expr: Expr,
}

/// An action: a gate, a guard and parallel updates, existing in the layers `first` to `last`.
#[derive(Drop)]
pub struct Action {
    pub name: Name,
    pub params: List<Param>,
    pub outs: List<Param>,
    pub choices: List<Choice>,
    pub first: u32,
    pub last: u32,
    pub mover: Mover,
    pub gate: Expr,
    pub guard: Expr,
    pub updates: List<Update>,
}

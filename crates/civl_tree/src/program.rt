// Layered programs.

use crate::action::{Action, Param};
use crate::expr::{Expr, Sort};
use crate::list::List;
use crate::name::Name;
use crate::stmt::Stmt;

/// The action that a procedure refines, the values for its choices, and the procedure's layer.
#[derive(Drop)]
pub struct Refines {
    pub action: Name,
    pub with: List<Expr>,
    pub layer: u32,
}

/// A local of a procedure.
#[derive(Drop)]
pub struct Local {
    pub linear: bool,
    pub name: Name,
    pub sort: Sort,
}

/// A procedure. One without `refines` is a root.
#[derive(Drop)]
pub struct Proc {
    pub name: Name,
    pub params: List<Param>,
    pub outs: List<Param>,
    pub refines: Option<Refines>,
    pub locals: List<Local>,
    pub body: List<Stmt>,
}

/// A global, existing in the layers `first` to `last`.
#[derive(Drop)]
pub struct Global {
    pub linear: bool,
    pub name: Name,
    pub sort: Sort,
    pub first: u32,
    pub last: u32,
}

/// A yield invariant of one step.
#[derive(Drop)]
pub struct Invariant {
    pub step: u32,
    pub expr: Expr,
}

/// A declared thread: the procedure that it calls, with arguments.
#[derive(Drop)]
pub struct Thread {
    pub callee: Name,
    pub args: List<Expr>,
}

/// A layered program, as the text has it. `layers` is the number of its steps, `permissions` the width of a
/// permission.
#[derive(Drop)]
pub struct Program {
    pub version: u32,
    pub layers: u32,
    pub permissions: u32,
    pub globals: List<Global>,
    pub init: Expr,
    pub invariants: List<Invariant>,
    pub actions: List<Action>,
    pub procs: List<Proc>,
    pub threads: List<Thread>,
}

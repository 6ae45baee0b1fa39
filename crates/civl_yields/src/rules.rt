// What the rules ask of one statement.
ghost use Rattle.std.specs.Prelude.{◌≡◌};
ghost use Rattle.civl_tree.specs.declared.stmt.Stmt.{out-Stmt};
ghost use Rattle.civl_yields.specs.Movers.{called_action};
ghost use Rattle.civl_yields.specs.Phases.{is_call};
ghost use Rattle.civl_yields.specs.Places.{stmt_late, stmt_nested, form_misplaced, form_stray, too_late};

use crate::called::called_action;
use crate::movers::may_follow;
use crate::strays::stmt_stray;
use civl_names::walks::{NoteTest, Test};
use civl_tree::{Name, Program, Stmt};

/// A call of a right or atomic action where the phase may be left (E50).
#[derive(Clone, Copy)]
pub(crate) struct Late<'a> {
    pub program: &'a Program,
}

/// A yield or a loop inside a rank loop (E51).
#[derive(Clone, Copy)]
pub(crate) struct Nested;

/// A statement that may not stand in a procedure which is layered as told (E52).
#[derive(Clone, Copy)]
pub(crate) struct Misplaced {
    pub layered: bool,
}

/// A stray `done` or `old` in a procedure which is layered as told (E53).
#[derive(Clone, Copy)]
pub(crate) struct Stray {
    pub layered: bool,
}

/// Whether the call means an action that may not stand behind the turning point.
fn is_early(program: &Program, callee: &Name) -> bool
    ensures { result ≡ too_late (called_action program.now callee.now) }
{
    match called_action(program, callee) {
        Some(action) => !may_follow(action.mover),
        None => false,
    }
}

impl<'a> NoteTest<bool> for Late<'a> {
    ghost breaks_with = { λ late stmt left. stmt_late late.program.now stmt left };

    fn breaks_with(&self, stmt: &Stmt, note: &bool) -> bool {
        match stmt {
            Stmt::Call(callee, _, _) => *note && is_early(self.program, callee),
            Stmt::Assign(_, _) => false,
            Stmt::Assert(_) => false,
            Stmt::If(_, _, _) => false,
            Stmt::While(_, _) => false,
            Stmt::YieldLoop(_, _, _) => false,
            Stmt::RankLoop(_, _, _, _) => false,
            Stmt::Yield(_) => false,
            Stmt::Commit => false,
            Stmt::Intro(_, _) => false,
            Stmt::Spawn(_, _) => false,
        }
    }
}

impl NoteTest<bool> for Nested {
    ghost breaks_with = { λ nested stmt inside. stmt_nested stmt inside };

    fn breaks_with(&self, stmt: &Stmt, note: &bool) -> bool {
        match stmt {
            Stmt::While(_, _) => *note,
            Stmt::YieldLoop(_, _, _) => *note,
            Stmt::RankLoop(_, _, _, _) => *note,
            Stmt::Yield(_) => *note,
            Stmt::Assign(_, _) => false,
            Stmt::Assert(_) => false,
            Stmt::If(_, _, _) => false,
            Stmt::Call(_, _, _) => false,
            Stmt::Commit => false,
            Stmt::Intro(_, _) => false,
            Stmt::Spawn(_, _) => false,
        }
    }
}

impl Test for Misplaced {
    ghost breaks = { λ misplaced stmt. form_misplaced misplaced.layered (out-Stmt stmt) };

    fn breaks(&self, stmt: &Stmt) -> bool {
        match stmt {
            Stmt::While(_, _) => self.layered,
            Stmt::Spawn(_, _) => self.layered,
            Stmt::YieldLoop(_, _, _) => !self.layered,
            Stmt::RankLoop(_, _, _, _) => !self.layered,
            Stmt::Yield(_) => !self.layered,
            Stmt::Commit => !self.layered,
            Stmt::Intro(_, _) => !self.layered,
            Stmt::Assign(_, _) => false,
            Stmt::Assert(_) => false,
            Stmt::If(_, _, _) => false,
            Stmt::Call(_, _, _) => false,
        }
    }
}

impl Test for Stray {
    ghost breaks = { λ strays stmt. form_stray strays.layered (out-Stmt stmt) };

    fn breaks(&self, stmt: &Stmt) -> bool {
        stmt_stray(self.layered, stmt)
    }
}

/// Whether the statement is a call.
pub(crate) fn is_call(stmt: &Stmt) -> bool
    ensures { result ≡ is_call stmt.now }
{
    match stmt {
        Stmt::Call(_, _, _) => true,
        Stmt::Assign(_, _) => false,
        Stmt::Assert(_) => false,
        Stmt::If(_, _, _) => false,
        Stmt::While(_, _) => false,
        Stmt::YieldLoop(_, _, _) => false,
        Stmt::RankLoop(_, _, _, _) => false,
        Stmt::Yield(_) => false,
        Stmt::Commit => false,
        Stmt::Intro(_, _) => false,
        Stmt::Spawn(_, _) => false,
    }
}

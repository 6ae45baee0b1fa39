// What a statement is: E51 and E52.
ghost use Rattle.std.specs.Prelude.{◌≡◌};
ghost use Rattle.std.specs.Option.{option_map};
ghost use Rattle.civl_tree.specs.declared.stmt.Stmt.{out-Stmt};
ghost use Rattle.civl_subjects.specs.Kinds.{form_of_layered, form_of_root, stmt_misplaced, stmt_pauses};
ghost use Rattle.civl_subjects.specs.Subjects.{OfLayered, OfRoot, OfStatement};
ghost use Rattle.civl_subjects.specs.inner.Meant.{all_meant};

use crate::subject::{StatementKind, Subject};
use civl_tree::{Proc, Stmt};

/// What a yield or a loop is.
fn pauses(stmt: &Stmt) -> Option<StatementKind>
    ensures { result ≡ stmt_pauses stmt.now }
{
    match stmt {
        Stmt::While(_, _) => Some(StatementKind::Loop),
        Stmt::YieldLoop(_, _, _) => Some(StatementKind::YieldLoop),
        Stmt::RankLoop(_, _, _, _) => Some(StatementKind::RankLoop),
        Stmt::Yield(_) => Some(StatementKind::Yield),
        Stmt::Assign(_, _) | Stmt::Assert(_) | Stmt::If(_, _, _) | Stmt::Call(_, _, _) => None,
        Stmt::Commit | Stmt::Intro(_, _) | Stmt::Spawn(_, _) => None,
    }
}

/// What a yield or a loop is, as what is told.
pub(crate) fn stmt_pauses<'a>(stmt: &Stmt) -> Option<Subject<'a>>
    ensures { all_meant result ≡ option_map OfStatement (stmt_pauses stmt.now) }
{
    match pauses(stmt) {
        Some(kind) => Some(Subject::Statement(kind)),
        None => None,
    }
}

/// What a statement is that may stand in a root alone.
fn of_root(stmt: &Stmt) -> Option<StatementKind>
    ensures { result ≡ form_of_root (out-Stmt stmt.now) }
{
    match stmt {
        Stmt::While(_, _) => Some(StatementKind::Loop),
        Stmt::Spawn(_, _) => Some(StatementKind::Spawn),
        Stmt::Assign(_, _) | Stmt::Assert(_) | Stmt::If(_, _, _) | Stmt::Call(_, _, _) => None,
        Stmt::YieldLoop(_, _, _) | Stmt::RankLoop(_, _, _, _) => None,
        Stmt::Yield(_) | Stmt::Commit | Stmt::Intro(_, _) => None,
    }
}

/// What a statement is that may stand in a procedure alone which refines an action.
fn of_layered(stmt: &Stmt) -> Option<StatementKind>
    ensures { result ≡ form_of_layered (out-Stmt stmt.now) }
{
    match stmt {
        Stmt::YieldLoop(_, _, _) => Some(StatementKind::YieldLoop),
        Stmt::RankLoop(_, _, _, _) => Some(StatementKind::RankLoop),
        Stmt::Yield(_) => Some(StatementKind::Yield),
        Stmt::Commit => Some(StatementKind::Commit),
        Stmt::Intro(_, _) => Some(StatementKind::Intro),
        Stmt::Assign(_, _) | Stmt::Assert(_) | Stmt::If(_, _, _) | Stmt::Call(_, _, _) => None,
        Stmt::While(_, _) | Stmt::Spawn(_, _) => None,
    }
}

/// The same as what is told.
fn in_layered<'a>(stmt: &Stmt) -> Option<Subject<'a>>
    ensures { all_meant result ≡ option_map OfLayered (form_of_root (out-Stmt stmt.now)) }
{
    match of_root(stmt) {
        Some(kind) => Some(Subject::InLayered(kind)),
        None => None,
    }
}

/// The same of what stands in a root.
fn in_root<'a>(stmt: &Stmt) -> Option<Subject<'a>>
    ensures { all_meant result ≡ option_map OfRoot (form_of_layered (out-Stmt stmt.now)) }
{
    match of_layered(stmt) {
        Some(kind) => Some(Subject::InRoot(kind)),
        None => None,
    }
}

/// What a statement is that may not stand in a procedure of its kind.
pub(crate) fn stmt_misplaced<'a>(proc: &Proc, stmt: &Stmt) -> Option<Subject<'a>>
    ensures { all_meant result ≡ stmt_misplaced proc.now stmt.now }
{
    if proc.refines.is_some() {
        return in_layered(stmt);
    }
    in_root(stmt)
}

// Introduced globals, and linear ones (E35).
ghost use Rattle.std.specs.Prelude.{◌≡◌};
ghost use Rattle.civl_tree.specs.declared.stmt.Stmt.{out-Stmt};
ghost use Rattle.civl_layers.specs.Names.{global_named};
ghost use Rattle.civl_layers.specs.Introduced.{linear_hidden, begins_elsewhere, form_introduced, stmt_introduced};

use crate::names::global_named;
use crate::ranges::exists_through;
use civl_tree::{Global, Name, Program, Refines, Stmt};

/// Whether a global breaks E35.
pub(crate) fn linear_hidden(program: &Program, global: &Global) -> bool
    ensures { result ≡ linear_hidden program.now global.now }
{
    global.linear && !exists_through(0, program.layers, global.first, global.last)
}

fn begins_elsewhere(program: &Program, layer: u32, target: &Name) -> bool
    ensures { result ≡ begins_elsewhere layer (global_named program.now target.now) }
{
    match global_named(program, target) {
        Some(global) => global.first != layer,
        None => false,
    }
}

fn form_introduced(program: &Program, layer: u32, stmt: &Stmt) -> bool
    ensures { result ≡ form_introduced program.now layer (out-Stmt stmt.now) }
{
    match stmt {
        Stmt::Intro(target, _) => begins_elsewhere(program, layer, target),
        Stmt::Assign(_, _) => false,
        Stmt::Assert(_) => false,
        Stmt::If(_, _, _) => false,
        Stmt::While(_, _) => false,
        Stmt::YieldLoop(_, _, _) => false,
        Stmt::RankLoop(_, _, _, _) => false,
        Stmt::Call(_, _, _) => false,
        Stmt::Yield(_) => false,
        Stmt::Commit => false,
        Stmt::Spawn(_, _) => false,
    }
}

/// Whether a statement of a procedure breaks E35.
pub(crate) fn stmt_introduced(program: &Program, refines: &Option<Refines>, stmt: &Stmt) -> bool
    ensures { result ≡ stmt_introduced program.now refines.now stmt.now }
{
    match refines {
        Some(refines) => form_introduced(program, refines.layer, stmt),
        None => false,
    }
}

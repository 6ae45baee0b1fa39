// Calls that don't go down (E32).
ghost use Rattle.std.specs.Prelude.{◌≡◌};
ghost use Rattle.civl_tree.specs.rules.Names.{action_named, proc_named};
ghost use Rattle.civl_tree.specs.declared.stmt.Stmt.{out-Stmt};
ghost use Rattle.civl_layers.specs.NotBelow.{root_runs, layered_runs, calls_proc, spawns_proc, call_not_below, spawns_option, form_not_below};

use crate::names::is_among;
use civl_tree::{Name, Proc, Program, Refines, Stmt};
use civl_types::names::{action_named, proc_named};

/// Whether a root, behind these procedures, runs this one.
fn root_runs(earlier: &[Proc], callee: &Proc) -> bool
    ensures { result ≡ root_runs earlier.now callee.now callee.now.refines }
{
    match callee.refines {
        Some(_) => false,
        None => !is_among(earlier, &callee.name),
    }
}

/// Whether this procedure isn't below a layer.
fn layered_runs(layer: u32, callee: &Option<Refines>) -> bool
    ensures { result ≡ layered_runs layer callee.now }
{
    match callee {
        Some(refines) => layer <= refines.layer,
        None => true,
    }
}

fn calls_proc(earlier: &[Proc], refines: &Option<Refines>, callee: &Proc) -> bool
    ensures { result ≡ calls_proc earlier.now refines.now callee.now }
{
    match refines {
        Some(refines) => layered_runs(refines.layer, &callee.refines),
        None => root_runs(earlier, callee),
    }
}

fn spawns_proc(earlier: &[Proc], refines: &Option<Refines>, callee: &Proc) -> bool
    ensures { result ≡ spawns_proc earlier.now refines.now callee.now }
{
    match refines {
        Some(_) => false,
        None => root_runs(earlier, callee),
    }
}

fn call_not_below(
    program: &Program,
    earlier: &[Proc],
    refines: &Option<Refines>,
    callee: &Name,
) -> bool
    ensures { result ≡ call_not_below earlier.now refines.now (action_named program.now callee.now) (proc_named program.now callee.now) }
{
    match action_named(program, callee) {
        Some(_) => false,
        None => match proc_named(program, callee) {
            Some(proc) => calls_proc(earlier, refines, proc),
            None => false,
        },
    }
}

fn spawn_not_below(
    program: &Program,
    earlier: &[Proc],
    refines: &Option<Refines>,
    callee: &Name,
) -> bool
    ensures { result ≡ spawns_option earlier.now refines.now (proc_named program.now callee.now) }
{
    match proc_named(program, callee) {
        Some(proc) => spawns_proc(earlier, refines, proc),
        None => false,
    }
}

/// Whether a statement of a procedure, which stands behind the earlier ones, breaks E32.
pub(crate) fn call_or_spawn_not_below(
    program: &Program,
    earlier: &[Proc],
    refines: &Option<Refines>,
    stmt: &Stmt,
) -> bool
    ensures { result ≡ form_not_below program.now earlier.now refines.now (out-Stmt stmt.now) }
{
    match stmt {
        Stmt::Call(callee, _, _) => call_not_below(program, earlier, refines, callee),
        Stmt::Spawn(callee, _) => spawn_not_below(program, earlier, refines, callee),
        Stmt::Assign(_, _) => false,
        Stmt::Assert(_) => false,
        Stmt::If(_, _, _) => false,
        Stmt::While(_, _) => false,
        Stmt::YieldLoop(_, _, _) => false,
        Stmt::RankLoop(_, _, _, _) => false,
        Stmt::Yield(_) => false,
        Stmt::Commit => false,
        Stmt::Intro(_, _) => false,
    }
}

//! The invariants of a step in a store, and those of cuts.
ghost use Rattle.std.specs.Prelude.{◌≡◌, map, option_copied};
ghost use Rattle.std.specs.List.{list_all};
ghost use Rattle.civl_tree.specs.declared.stmt.Stmt.{out-Stmt};
ghost use Rattle.civl_tree.specs.Numbering.{statements_of};
ghost use Rattle.civl_conditions.specs.Assumed.{cut_invariant, layer_invariant};
ghost use Rattle.civl_conditions.specs.Invariants.{invariant_at, invariant_lost, invariants_hold};
ghost use Rattle.civl_assumed.specs.inner.Kept.{keeps_invariant};

use civl_firing::Store;
use civl_firing::expressions::holds;
use civl_firing::setting::at_start;
use civl_layers::{Cut, CutKind};
use civl_tree::{Expr, Invariant, Proc, Program, Stmt};

/// Whether an invariant holds, if it is one of the step.
fn keeps(program: &Program, step: u32, store: &Store, invariant: &Invariant) -> bool
    ensures { result ≡ keeps_invariant program.now step store.now invariant.now }
{
    invariant.step != step
        || holds(
            &at_start(program.globals.as_slice(), store),
            &invariant.expr,
        )
}

/// Whether each of these invariants holds, if it is one of the step.
fn keeps_all(program: &Program, step: u32, store: &Store, invariants: &[Invariant]) -> bool
    ensures { result ≡ list_all (keeps_invariant program.now step store.now) invariants.now }
{
    for invariant in invariants {
        if !keeps(program, step, store, invariant) {
            return false;
        }
    }
    true
}

/// Whether all invariants of a step hold in a store.
pub fn invariants_hold(program: &Program, step: u32, store: &Store) -> bool
    ensures { result ≡ invariants_hold program.now step store.now }
{
    keeps_all(program, step, store, program.invariants.as_slice())
}

/// The invariant of a step that has this place among those of the step, if there is one.
#[tactic(auto, using(crate::proofs::Counting::found_here, crate::proofs::Counting::counted_down, crate::proofs::Counting::passed_over, crate::proofs::Counting::none_left))]
fn invariant_at(program: &Program, step: u32, place: u32) -> Option<&Expr>
    ensures { option_copied result ≡ invariant_at program.now step place }
{
    let mut left = place;
    for invariant in program.invariants.as_slice() {
        if invariant.step == step {
            if left == 0 {
                return Some(&invariant.expr);
            }
            left -= 1;
        }
    }
    None
}

/// Whether the invariant of a step that has this place among those of the step is false in a store.
pub fn invariant_lost(program: &Program, step: u32, place: u32, store: &Store) -> bool
    ensures { result ≡ invariant_lost program.now step place store.now }
{
    match invariant_at(program, step, place) {
        Some(invariant) => !holds(&at_start(program.globals.as_slice(), store), invariant),
        None => false,
    }
}

// ---- cuts

/// The invariant of a statement that is a cut.
fn stmt_invariant(stmt: &Stmt) -> Option<&Expr>
    ensures { option_copied result ≡ layer_invariant (out-Stmt stmt.now) }
{
    match stmt {
        Stmt::YieldLoop(_, invariant, _) => Some(invariant),
        Stmt::RankLoop(_, _, invariant, _) => Some(invariant),
        Stmt::Yield(invariant) => Some(invariant),
        Stmt::Assign(_, _) => None,
        Stmt::Assert(_) => None,
        Stmt::If(_, _, _) => None,
        Stmt::While(_, _) => None,
        Stmt::Call(_, _, _) => None,
        Stmt::Commit => None,
        Stmt::Intro(_, _) => None,
        Stmt::Spawn(_, _) => None,
    }
}

/// The invariant of a cut of a procedure, where it has one. These are all statements of the procedure, in text order.
pub fn invariant_of<'a>(proc: &Proc, flat: &[&'a Stmt], cut: Cut) -> Option<&'a Expr>
    requires { map (λ s. s.now) flat.now ≡ statements_of proc.now.body }
    ensures { option_copied result ≡ cut_invariant proc.now cut }
{
    match cut.kind {
        CutKind::Entry => None,
        CutKind::Yield | CutKind::YieldLoop | CutKind::RankLoop => {
            match flat.get(cut.statement as usize) {
                Some(stmt) => stmt_invariant(stmt),
                None => None,
            }
        }
    }
}

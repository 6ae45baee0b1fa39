// What is worked out of each statement of a root.
ghost use Rattle.std.specs.Prelude.{◌≡◌, ◌+◌, ◌<◌, ◌^◌, Some, length, slice_get};
ghost use Rattle.std.specs.List.{AllZip};
ghost use Rattle.civl_tree.specs.declared.stmt.Stmt.{out-Stmt};
ghost use Rattle.civl_tree.specs.Numbering.{size_of, sizes_of};
ghost use Rattle.civl_meaning.specs.Places.{start_of, spot_at};
ghost use Rattle.civl_goals.specs.Failed.{held_before};
ghost use Rattle.civl_goals.specs.Weights.{form_weight, form_begins, form_reaches, once, summed_at, note_before_weight};
ghost use Rattle.civl_weighing.specs.Weighing.{Weighs};
ghost use Rattle.civl_weights.specs.sums.Sums.{OfAction};
ghost use Rattle.civl_outlined.specs.inner.Said.{IsSaid};
ghost use Rattle.civl_outlined.specs.inner.Sums.{OfStatement};

use crate::said::{Said, first_note, note_before};
use crate::sizes::sizes;
use civl_tree::{Proc, Program, Stmt};
use civl_types::view::View;
use civl_weighing::exprs::{weight_of, weights_of};
use civl_weighing::weight::Weight;
use civl_weights::sums::actions::ActionSums;
use civl_weights::sums::statements::{call_weight, stmt_choices};

/// Of a statement: what its goals assume and what it is, the note before it alone, the first note of the procedure that it
/// spawns, the notes that it leads to, how many items are held before it, and the bits of its call's choices.
#[derive(Clone, Copy)]
pub(crate) struct StatementSums {
    pub base: Weight,
    pub note: Weight,
    pub begins: Weight,
    pub reaches: Weight,
    pub items: Weight,
    pub choices: Weight,
}

/// The weight of a statement's expressions, and of all of the action that it calls.
fn form_weight(program: &Program, actions: &[ActionSums], proc: &Proc, stmt: &Stmt) -> Weight
    requires { AllZip (OfAction program.now) program.now.actions actions.now }
    ensures { Weighs result (form_weight program.now proc.now (out-Stmt stmt.now)) }
{
    let body = View::Body(program, proc);
    match stmt {
        Stmt::Assign(_, expr) => weight_of(&body, expr),
        Stmt::Assert(expr) => weight_of(&body, expr),
        Stmt::If(test, _, _) => weight_of(&body, test),
        Stmt::While(test, _) => weight_of(&body, test),
        Stmt::YieldLoop(test, _, _) => weight_of(&body, test),
        Stmt::RankLoop(test, _, _, _) => weight_of(&body, test),
        Stmt::Call(callee, args, _) => {
            let args = weights_of(&body, args.as_slice());
            args.plus(call_weight(program, actions, program.layers, callee))
        }
        Stmt::Yield(_) => Weight::of(0),
        Stmt::Commit => Weight::of(0),
        Stmt::Intro(_, _) => Weight::of(0),
        Stmt::Spawn(_, args) => weights_of(&body, args.as_slice()),
    }
}

/// The weight of the first note of the procedure that a statement spawns.
fn begins(said: &Said<'_>, stmt: &Stmt) -> Weight
    requires { IsSaid said.now }
    ensures { Weighs result (form_begins said.now.program.now said.now.outline.now (out-Stmt stmt.now)) }
{
    match stmt {
        Stmt::Spawn(callee, _) => first_note(said, callee),
        Stmt::Assign(_, _)
        | Stmt::Assert(_)
        | Stmt::If(_, _, _)
        | Stmt::While(_, _)
        | Stmt::YieldLoop(_, _, _)
        | Stmt::RankLoop(_, _, _, _)
        | Stmt::Call(_, _, _)
        | Stmt::Yield(_)
        | Stmt::Commit
        | Stmt::Intro(_, _) => Weight::of(0),
    }
}

/// Where these statements begin, with the place `next` behind them.
fn begin(stmts: &[Stmt], at: u32, next: u32) -> u32
    ensures { result ≡ start_of stmts.now at next }
{
    if stmts.len() == 0 { next } else { at }
}

/// The weight of the notes before these two places of the procedure at a place, or of the one before both.
fn both(said: &Said<'_>, place: usize, first: u32, second: u32) -> Weight
    requires said { IsSaid said.now }
    requires place { place < length said.now.program.now.procs }
    ensures { Weighs result (summed_at (note_before_weight said.now.program.now said.now.outline.now place) (once first second)) }
{
    let note = note_before(said, place, first);
    if first == second {
        return note;
    }
    note.plus(note_before(said, place, second))
}

/// The weight of the notes that a statement with this number leads to, where this place comes after it.
fn reaches(said: &Said<'_>, place: usize, stmt: &Stmt, at: u32, next: u32) -> Weight
    requires said { IsSaid said.now }
    requires place { place < length said.now.program.now.procs }
    requires small { at + size_of stmt.now < 2 ^ 32 }
    ensures { Weighs result (summed_at (note_before_weight said.now.program.now said.now.outline.now place) (form_reaches at next (out-Stmt stmt.now))) }
{
    match stmt {
        Stmt::If(_, first, second) => {
            let chosen = begin(first.as_slice(), at + 1, next);
            let other = begin(second.as_slice(), at + 1 + sizes(first), next);
            both(said, place, chosen, other)
        }
        Stmt::While(_, body) => both(said, place, begin(body.as_slice(), at + 1, at), next),
        Stmt::YieldLoop(_, _, body) => both(said, place, begin(body.as_slice(), at + 1, at), next),
        Stmt::RankLoop(_, _, _, body) => {
            both(said, place, begin(body.as_slice(), at + 1, at), next)
        }
        Stmt::Assign(_, _) => note_before(said, place, next),
        Stmt::Assert(_) => note_before(said, place, next),
        Stmt::Call(_, _, _) => note_before(said, place, next),
        Stmt::Yield(_) => note_before(said, place, next),
        Stmt::Commit => note_before(said, place, next),
        Stmt::Intro(_, _) => note_before(said, place, next),
        Stmt::Spawn(_, _) => note_before(said, place, next),
    }
}

/// The sums of a statement of the procedure at a place: it has this number, this place comes after it, and so many items are held
/// before it.
pub(crate) fn statement_sums(
    said: &Said<'_>,
    actions: &[ActionSums],
    place: usize,
    proc: &Proc,
    number: u32,
    stmt: &Stmt,
    next: u32,
    items: usize,
) -> StatementSums
    requires said { IsSaid said.now }
    requires actions { AllZip (OfAction said.now.program.now) said.now.program.now.actions actions.now }
    requires proc { slice_get said.now.program.now.procs place ≡ Some proc.now }
    requires small { sizes_of proc.now.body < 2 ^ 32 }
    requires there { spot_at proc.now.body number ≡ Some (record { number = number; stmt = stmt.now; next = next }) }
    requires items { items ≡ length (held_before said.now.program.now proc.now number) }
    ensures { OfStatement said.now.program.now said.now.outline.now place number proc.now stmt.now next result }
{
    let program = said.program;
    let note = note_before(said, place, number);
    let form = form_weight(program, actions, proc, stmt);
    StatementSums {
        base: said.holds.plus(note).plus(form),
        note,
        begins: begins(said, stmt),
        reaches: reaches(said, place, stmt, number, next),
        items: Weight::of_count(items),
        choices: stmt_choices(program, actions, program.layers, stmt),
    }
}

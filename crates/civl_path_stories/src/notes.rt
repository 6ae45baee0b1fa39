// What a cut says, where it is false.
ghost use Rattle.std.specs.Prelude.{◌≡◌, ◌++◌, OnOk};
ghost use Rattle.civl_assumed.specs.Noted.{scope_noted};
ghost use Rattle.civl_conditions.specs.Parts.{end_values};
ghost use Rattle.civl_conditions.specs.paths.Ends.{ends_block};
ghost use Rattle.civl_losses.specs.Beginnings.{begun_from};
ghost use Rattle.civl_traces.specs.Told.{progress};
ghost use Rattle.civl_path_stories.specs.Paths.{cut_statement, note_lines, parts, said_lines};
ghost use Rattle.civl_path_stories.specs.inner.Routes.{told, Fits};

use crate::ends::push_lost;
use crate::formulas::push_formula;
use crate::route::Route;
use civl_assumed::{Noted, steady};
use civl_conditions::paths::is_rank_loop;
use civl_lines::Line;
use civl_places::{Formula, InStatement};
use civl_tree::Memory;
use std::alloc::Global;

/// Whether a block ends at the cut with this number, or at the exit.
fn ends_block(route: &Route<'_>, end: usize) -> bool
    requires { Fits route.now }
    ensures { result ≡ ends_block route.now.proc.now end }
{
    match route.cuts.get(end) {
        Some(cut) => !is_rank_loop(cut.kind),
        None => true,
    }
}

/// The statement of the cut with this number.
fn cut_statement(route: &Route<'_>, number: usize) -> usize
    requires { Fits route.now }
    ensures { result ≡ cut_statement route.now.proc.now number }
{
    match route.cuts.get(number) {
        Some(cut) => cut.statement as usize,
        None => 0,
    }
}

/// What the names stand for in what a cut says where the path ends.
fn end_note<'a>(route: &Route<'a>, end: usize) -> Noted<'a>
    requires { Fits route.now }
    ensures { scope_noted result ≡ end_values route.now.program.now route.now.proc.now (begun_from route.now.path.now.beginning) end
        (progress route.now.path.now.walked.end) }
{
    let globals = route.program.globals.as_slice();
    let begun = &route.path.beginning;
    let moment = &route.path.walked.end;
    let store = moment.store.values.as_slice();
    let locals = moment.locals.as_slice();
    if ends_block(route, end) {
        return steady(globals, route.proc, store, locals, moment.done);
    }
    Noted {
        globals,
        proc: route.proc,
        store,
        locals,
        done: moment.done,
        old: begun.old.values.as_slice(),
        old_outs: begun.old_outs.as_slice(),
        old_done: begun.old_done,
    }
}

/// Puts the false parts of what this statement says behind the others.
fn push_note(
    alloc: Global,
    lines: &mut Vec<Line>,
    route: &Route<'_>,
    end: usize,
    statement: usize,
) -> Result<(), Memory>
    requires { Fits route.now }
    ensures { OnOk result (lines.new.items ≡ lines.old.items
        ++ parts route.now.program.now (end_values route.now.program.now route.now.proc.now (begun_from route.now.path.now.beginning) end
        (progress route.now.path.now.walked.end)) (Formula.Statement route.now.number statement InStatement.Invariant)) }
{
    let note = Formula::Statement(route.number as usize, statement, InStatement::Invariant);
    push_formula(alloc, lines, route.program, &end_note(route, end), &note)
}

/// What this statement says is false where the path ends, at the cut with this number.
fn push_said(
    alloc: Global,
    lines: &mut Vec<Line>,
    route: &Route<'_>,
    end: usize,
    statement: usize,
) -> Result<(), Memory>
    requires { Fits route.now }
    ensures { OnOk result (lines.new.items ≡ lines.old.items ++ said_lines (told route.now) end statement) }
{
    push_lost(alloc, lines, route, statement, b"what it says is false")?;
    push_note(alloc, lines, route, end, statement)?;
    Ok(())
}

/// What the cut with this number says is false where the path ends there.
pub(crate) fn push_false_note(
    alloc: Global,
    lines: &mut Vec<Line>,
    route: &Route<'_>,
    end: usize,
) -> Result<(), Memory>
    requires { Fits route.now }
    ensures { OnOk result (lines.new.items ≡ lines.old.items ++ note_lines (told route.now) end) }
{
    push_said(alloc, lines, route, end, cut_statement(route, end))
}

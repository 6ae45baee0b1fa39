// Where a path ends.
ghost use Rattle.std.specs.Prelude.{◌≡◌, ◌<◌, ◌≤◌, ◌^◌, map, take, length, is_some, slice_get, not, true};
ghost use Rattle.std.specs.Option.{option_map_or};
ghost use Rattle.civl_tree.specs.Numbering.{statements_of};
ghost use Rattle.civl_layers.specs.Cuts.{cut_kind, proc_cuts};
ghost use Rattle.civl_conditions.specs.paths.Ends.{cut_number, is_rank_loop};
ghost use Rattle.civl_losses.specs.Losses.{arrival, is_failure};
ghost use Rattle.civl_losses.specs.inner.Routes.{cut_count};

use crate::route::Route;
use civl_conditions::paths::is_rank_loop;
use civl_layers::Cut;
use civl_traces::Ending;
use civl_tree::{Proc, Stmt};

/// Whether a statement is a cut.
fn is_cut(stmt: &Stmt) -> bool
    ensures { result ≡ is_some (cut_kind stmt.now) }
{
    match stmt {
        Stmt::YieldLoop(_, _, _) => true,
        Stmt::RankLoop(_, _, _, _) => true,
        Stmt::Yield(_) => true,
        Stmt::Assign(_, _) => false,
        Stmt::Assert(_) => false,
        Stmt::If(_, _, _) => false,
        Stmt::While(_, _) => false,
        Stmt::Call(_, _, _) => false,
        Stmt::Commit => false,
        Stmt::Intro(_, _) => false,
        Stmt::Spawn(_, _) => false,
    }
}

/// How many of these statements are cuts.
fn cut_count(stmts: &[&Stmt]) -> usize
    ensures is { result ≡ cut_count (map (λ s. s.now) stmts.now) }
    ensures few { result ≤ length stmts.now }
{
    let mut count = 0;
    for stmt in stmts {
        if is_cut(stmt) {
            count += 1;
        }
    }
    count
}

/// So many statements, or all where there are fewer.
fn first<'a>(stmts: &'a [&'a Stmt], count: usize) -> &'a [&'a Stmt]
    ensures is { result.now ≡ take count stmts.now }
    ensures few { length result.now ≤ length stmts.now }
{
    if count < stmts.len() {
        &stmts[..count]
    } else {
        stmts
    }
}

/// The number of the cut that is the statement with this number: behind the entry and the cuts before it. These are all statements of
/// the procedure.
fn cut_number<'a>(proc: &Proc, stmts: &'a [&'a Stmt], number: usize) -> usize
    requires stmts { map (λ s. s.now) stmts.now ≡ statements_of proc.now.body }
    requires few { length stmts.now < 2 ^ 32 }
    ensures { result ≡ cut_number proc.now number }
{
    1 + cut_count(first(stmts, number))
}

/// Where a path ends, if it does: the number of a cut, or that of the exit.
pub(crate) fn arrival(route: &Route<'_>) -> Option<usize>
    requires stmts { map (λ s. s.now) route.now.stmts.now ≡ statements_of route.now.proc.now.body }
    requires few { length route.now.stmts.now < 2 ^ 32 }
    requires cuts { route.now.cuts.now ≡ proc_cuts route.now.proc.now }
    ensures { result ≡ arrival route.now.proc.now route.now.walked.now }
{
    match route.walked.ending {
        Ending::Past => Some(route.cuts.len()),
        Ending::Comes => Some(cut_number(route.proc, route.stmts, route.walked.at)),
        Ending::Fails => None,
        Ending::Stops => None,
    }
}

/// Whether a path ends before a statement that fails.
pub(crate) fn is_failure(ending: Ending) -> bool
    ensures { result ≡ is_failure ending }
{
    match ending {
        Ending::Fails => true,
        Ending::Past => false,
        Ending::Comes => false,
        Ending::Stops => false,
    }
}

/// Whether a block ends at this end: at the exit, and at each cut but rank loops. These are all cuts of the procedure.
pub(crate) fn ends_block(cuts: &[Cut], end: usize) -> bool
    ensures { result ≡ option_map_or (λ cut. not (is_rank_loop cut.kind)) (slice_get cuts.now end) true }
{
    match cuts.get(end) {
        Some(cut) => !is_rank_loop(cut.kind),
        None => true,
    }
}

// What the paths from a cut meet, whatever the values are.
ghost use Rattle.std.specs.Prelude.{◌≡◌, ◌+◌, ◌<◌, ◌^◌, false, IfOk, is_none};
ghost use Rattle.std.specs.List.Sorted.{IsStrictlyIncreasing};
ghost use Rattle.civl_tree.specs.Numbering.{size_of, sizes_of};
ghost use Rattle.civl_conditions.specs.paths.Flows.{flow_from};
ghost use Rattle.civl_conditions.specs.paths.Meets.{ArePassed, from_cut, is_from, met_passing, met_ending, met_entering, met_behind, met_past, nothing_met, numbers_met, walk, walk_all, with_onward};

use civl_layers::{Cut, CutKind};
use civl_tree::{List, Memory, Proc, Stmt};
use std::alloc::Global;

/// What the paths from a cut meet, whatever the values are: a path here is one choice of branches.
#[derive(Debug, Drop)]
pub struct Met {
    /// The numbers of the statements that some path passes, in the order of the text.
    pub passed: List<u32>,
    /// The numbers of the statements before which some path ends: yields, yield loops and rank loops. From the head of a loop
    /// that of the loop comes behind those in its body.
    pub ends: List<u32>,
    /// Whether some path goes on to the exit.
    pub onward: bool,
}

/// The statement from which the paths from a cut begin; none where they begin before all statements.
fn from_cut(cut: Cut) -> Option<u32>
    ensures { result ≡ from_cut cut }
{
    match cut.kind {
        CutKind::Entry => None,
        CutKind::Yield | CutKind::YieldLoop | CutKind::RankLoop => Some(cut.statement),
    }
}

/// Whether the paths begin from the statement with this number.
fn is_from(from: Option<u32>, number: u32) -> bool
    ensures { result ≡ is_from from number }
{
    match from {
        None => false,
        Some(statement) => statement == number,
    }
}

/// Before all statements: only paths from the entry have come there.
fn nothing(alloc: Global, from: Option<u32>) -> Met
    ensures { result ≡ nothing_met (is_none from) }
{
    let onward = match from {
        None => true,
        Some(_) => false,
    };
    Met {
        passed: List::new(alloc),
        ends: List::new(alloc),
        onward,
    }
}

/// Paths that come to the statement with this number pass it.
fn pass(met: &mut Met, number: u32) -> Result<(), Memory>
    ensures { IfOk result (λ done. met.new ≡ met_passing number met.old) }
{
    if met.onward {
        met.passed.push(number)?;
    }
    Ok(())
}

/// No path goes on.
fn stop(met: &mut Met)
    ensures { met.new ≡ with_onward false met.old }
{
    met.onward = false;
}

/// Paths that come to the statement with this number end before it.
fn end(met: &mut Met, number: u32) -> Result<(), Memory>
    ensures { IfOk result (λ done. met.new ≡ met_ending number met.old) }
{
    if met.onward {
        met.ends.push(number)?;
        stop(met);
    }
    Ok(())
}

/// At the head of a loop: paths that begin there pass it, and others end.
fn enter(met: &mut Met, head: u32, from: Option<u32>) -> Result<(), Memory>
    ensures { IfOk result (λ done. met.new ≡ met_entering from head met.old) }
{
    if is_from(from, head) {
        met.onward = true;
        pass(met, head)?;
        return Ok(());
    }
    end(met, head)
}

/// Behind the body of a loop paths come to its head again, and end.
fn close(met: &mut Met, again: u32) -> Result<(), Memory>
    ensures { IfOk result (λ done. met.new ≡ met_ending again met.old) }
{
    end(met, again)
}

/// Behind the statement from which the paths begin they go on.
fn go_on(met: &mut Met, number: u32, from: Option<u32>)
    ensures { met.new ≡ met_behind from number met.old }
{
    if is_from(from, number) {
        met.onward = true;
    }
}

/// Where the paths begin at a place that isn't below this number, which is the exit, they go on.
fn go_past(met: &mut Met, end: u32, from: Option<u32>)
    ensures { met.new ≡ met_past from end met.old }
{
    match from {
        None => {}
        Some(statement) => {
            if statement >= end {
                met.onward = true;
            }
        }
    }
}

/// What the paths meet in these statements, the first of which has this number. The answer is the number behind them.
#[cycle(meet)]
#[tactic(auto, using(crate::proofs::paths::Walked::walked))]
fn meet_all(
    met: &mut Met,
    stmts: &List<Stmt>,
    number: u32,
    from: Option<u32>,
) -> Result<u32, Memory>
    requires { number + sizes_of stmts.now < 2 ^ 32 }
    ensures { IfOk result (λ next. (met.new ≡ walk_all from stmts.now number met.old) × (next ≡ number + sizes_of stmts.now)) }
{
    let mut here = number;
    for stmt in stmts.as_slice() {
        let next = meet(met, stmt, here, from)?;
        go_on(met, here, from);
        here = next;
    }
    Ok(here)
}

/// The same in one statement.
#[cycle(meet)]
#[tactic(auto, using(crate::proofs::paths::Walked::walked))]
fn meet(met: &mut Met, stmt: &Stmt, number: u32, from: Option<u32>) -> Result<u32, Memory>
    requires { number + size_of stmt.now < 2 ^ 32 }
    ensures { IfOk result (λ next. (met.new ≡ walk from stmt.now number met.old) × (next ≡ number + size_of stmt.now)) }
{
    match stmt {
        Stmt::If(_, first, second) => {
            pass(met, number)?;
            let before = met.onward;
            let next = meet_all(met, first, number + 1, from)?;
            let by_first = met.onward;
            met.onward = before;
            let end = meet_all(met, second, next, from)?;
            met.onward = by_first || met.onward;
            Ok(end)
        }
        Stmt::While(_, body) => {
            stop(met);
            let next = meet_all(met, body, number + 1, from)?;
            stop(met);
            Ok(next)
        }
        Stmt::YieldLoop(_, _, body) | Stmt::RankLoop(_, _, _, body) => {
            enter(met, number, from)?;
            let next = meet_all(met, body, number + 1, from)?;
            close(met, number)?;
            Ok(next)
        }
        Stmt::Yield(_) => {
            end(met, number)?;
            Ok(number + 1)
        }
        Stmt::Spawn(_, _) => {
            stop(met);
            Ok(number + 1)
        }
        Stmt::Assign(_, _)
        | Stmt::Assert(_)
        | Stmt::Call(_, _, _)
        | Stmt::Commit
        | Stmt::Intro(_, _) => {
            pass(met, number)?;
            Ok(number + 1)
        }
    }
}

/// What the paths from a cut of a procedure meet.
///
/// A cut whose number no statement of the body has stands for the exit, from which paths go on to the exit.
///
/// # Errors
///
/// For want of memory.
pub fn met_from(alloc: Global, proc: &Proc, cut: Cut) -> Result<Met, Memory>
    requires { sizes_of proc.now.body < 2 ^ 32 }
    ensures numbers { IfOk result (λ met. met ≡ numbers_met (flow_from proc.now cut)) }
    ensures order { IfOk result (λ met. IsStrictlyIncreasing met.passed) }
    ensures statements { IfOk result (ArePassed proc.now (flow_from proc.now cut)) }
{
    let from = from_cut(cut);
    let mut met = nothing(alloc, from);
    let end = meet_all(&mut met, &proc.body, 0, from)?;
    go_past(&mut met, end, from);
    Ok(met)
}

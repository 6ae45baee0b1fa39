// The phase before each statement.
ghost use Rattle.std.specs.Prelude.{Bool, ◌≡◌, ◌++◌, map, IfOk, OnOk};
ghost use Rattle.civl_yields.specs.inner.Marks.{seen};
ghost use Rattle.civl_yields.specs.Movers.{called_action};
ghost use Rattle.civl_yields.specs.Phases.{passed, passed_all, called_phase, phases_before};

use crate::called::called_action;
use crate::movers::turns;
use crate::phase::{Phase, at_head, inside, is_left, joined};
use civl_tree::{List, Memory, Name, Program, Stmt};
use std::alloc::Global;

/// The phase behind a call.
fn behind_call(program: &Program, callee: &Name, before: Phase) -> Phase
    ensures { (head : Bool) → seen head result ≡ called_phase (called_action program.now callee.now) (seen head before) }
{
    match called_action(program, callee) {
        Some(action) => if turns(action.mover) {
            Phase::Left
        } else {
            before
        },
        None => before,
    }
}

/// Adds the phases found inside a loop, where this is the phase at its head.
fn add_inside(marks: &mut Vec<Phase>, found: &[Phase], at_head: Phase) -> Result<(), Memory>
    ensures { OnOk result ((head : Bool) → map (seen head) marks.new.items ≡ map (seen head) marks.old.items ++ map (seen (seen head at_head)) found.now) }
{
    for phase in found {
        marks.push(inside(*phase, at_head))?;
    }
    Ok(())
}

/// Adds the phase before a statement and before each of those in it, and answers that behind it.
#[cycle(mark)]
#[tactic(auto, using(crate::proofs::Stepping::stepping))]
fn mark(
    alloc: Global,
    program: &Program,
    stmt: &Stmt,
    before: Phase,
    marks: &mut Vec<Phase>,
) -> Result<Phase, Memory>
    ensures behind { IfOk result (λ behind. (head : Bool) → seen head behind ≡ (passed program.now stmt.now (seen head before)).after) }
    ensures marks { OnOk result ((head : Bool) → map (seen head) marks.new.items ≡ map (seen head) marks.old.items ++ (passed program.now stmt.now (seen head before)).befores) }
{
    marks.push(before)?;
    match stmt {
        Stmt::If(_, first, second) => {
            let one = mark_all(alloc, program, first, before, marks)?;
            let other = mark_all(alloc, program, second, before, marks)?;
            Ok(joined(one, other))
        }
        Stmt::While(_, body) | Stmt::RankLoop(_, _, _, body) => {
            let mut found = Vec::new(alloc);
            let end = mark_all(alloc, program, body, Phase::AsHead, &mut found)?;
            let head = at_head(before, end);
            add_inside(marks, &found, head)?;
            Ok(head)
        }
        Stmt::YieldLoop(_, _, body) => {
            mark_all(alloc, program, body, Phase::Right, marks)?;
            Ok(Phase::Right)
        }
        Stmt::Call(callee, _, _) => Ok(behind_call(program, callee, before)),
        Stmt::Yield(_) => Ok(Phase::Right),
        Stmt::Assign(_, _)
        | Stmt::Assert(_)
        | Stmt::Commit
        | Stmt::Intro(_, _)
        | Stmt::Spawn(_, _) => Ok(before),
    }
}

/// Adds the phase before each of these statements and before each of those in them, and answers that behind them.
#[cycle(mark)]
#[tactic(auto, using(crate::proofs::Stepping::stepping))]
fn mark_all(
    alloc: Global,
    program: &Program,
    stmts: &List<Stmt>,
    before: Phase,
    marks: &mut Vec<Phase>,
) -> Result<Phase, Memory>
    ensures behind { IfOk result (λ behind. (head : Bool) → seen head behind ≡ (passed_all program.now stmts.now (seen head before)).after) }
    ensures marks { OnOk result ((head : Bool) → map (seen head) marks.new.items ≡ map (seen head) marks.old.items ++ (passed_all program.now stmts.now (seen head before)).befores) }
{
    let mut phase = before;
    for stmt in stmts.as_slice() {
        phase = mark(alloc, program, stmt, phase, marks)?;
    }
    Ok(phase)
}

/// The phase before each statement of a body, in text order: whether the block may have passed its turning point.
pub(crate) fn phases_before(
    alloc: Global,
    program: &Program,
    body: &List<Stmt>,
) -> Result<Vec<bool>, Memory>
    ensures { IfOk result (λ phases. phases.items ≡ phases_before program.now body.now) }
{
    let mut marks = Vec::new(alloc);
    mark_all(alloc, program, body, Phase::Right, &mut marks)?;
    let mut phases = Vec::new(alloc);
    for mark in &marks {
        phases.push(is_left(*mark))?;
    }
    Ok(phases)
}

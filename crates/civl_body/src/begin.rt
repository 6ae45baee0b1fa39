// From the head of a loop, at terms.
ghost use Rattle.std.specs.Prelude.{◌≡◌, true, false, ◌≤◌, ◌+◌, ◌*◌, ◌∷◌, [], ◌++◌, ◌<◌, ◌^◌, None, Some, OnOk, IfOk};
ghost use Rattle.civl_tree.specs.Numbering.{numbered, sizes_of};
ghost use Rattle.civl_conditions.specs.paths.Flows.{flow_from, flow_rest};
ghost use Rattle.civl_moves.specs.sweeps.Sweeps.{sweep_from, sweep_rest};
ghost use Rattle.civl_tree.specs.rules.Rules.{Keeps};
ghost use Rattle.civl_linear.specs.LinearRules.{linear_rules};
ghost use Rattle.civl_conditions.specs.Weights.{body_weight};
ghost use Rattle.civl_terms.specs.Building.{Grows};
ghost use Rattle.civl_terms.specs.Weights.{graph_weight};
ghost use Rattle.civl_meaning.specs.Remaining.{rest_of};
ghost use Rattle.civl_body.specs.Weights.{passed_weights};
ghost use Rattle.civl_body.specs.Passing.{IsEntry, IsLoop, IsPlain, IsWithin, Passes, ReadyFrom, ReadyHead, ReadyLoop, by_loop, loop_passed};

use crate::statements::pass_rest;
use civl_layers::{Cut, CutKind};
use civl_meaning::remaining::{Numbered, push_among, push_numbered, push_one};
use civl_moves::{Sweep, front_with, part, swap};
use civl_states::Choices;
use civl_terms::{Memory, Terms};
use civl_tree::{Expr, List, Proc, Program, Stmt};
use std::alloc::Global as Alloc;

/// The body of a loop and its head again, where its condition is true, and then, from the state at the head, what is behind it.
pub fn pass_loop(
    inside: &[Numbered<'_>],
    behind: &[Numbered<'_>],
    alloc: Alloc,
    terms: &mut Terms,
    program: &Program,
    layer: u32,
    proc: &Proc,
    chosen: &Choices,
    sweep: &mut Sweep,
    condition: &Expr,
) -> Result<(), Memory>
    requires ready { ReadyLoop terms.old program.now layer proc.now chosen.now sweep.old condition.now (rest_of inside.now) (rest_of behind.now) }
    requires small { sizes_of proc.now.body < 2 ^ 32 }
    ensures passes { OnOk result (Passes terms.old terms.new program.now layer proc.now chosen.now sweep.old sweep.new (loop_passed (rest_of inside.now) (rest_of behind.now)) (λ c. by_loop c condition.now (rest_of inside.now) (rest_of behind.now))) }
    ensures weighs { OnOk result (Keeps linear_rules program.now → graph_weight terms.new ≤ graph_weight terms.old + (body_weight program.now proc.now condition.now + 3) + 4 * passed_weights program.now layer proc.now (loop_passed (rest_of inside.now) (rest_of behind.now))) }
    ensures grows { Grows terms.old terms.new }
{
    let fork = part(alloc, terms, program, proc, sweep, condition)?;
    let before = front_with(alloc, sweep, fork.second)?;
    sweep.live = fork.first;
    pass_rest(inside, alloc, terms, program, layer, proc, chosen, sweep)?;
    let _ended = swap(sweep, before);
    pass_rest(behind, alloc, terms, program, layer, proc, chosen, sweep)?;
    Ok(())
}

/// A loop's condition and body.
#[derive(Clone, Copy)]
struct Round<'a> {
    condition: &'a Expr,
    body: &'a List<Stmt>,
}

/// The condition and the body of a loop that is a cut.
fn loop_in<'a>(stmt: &'a Stmt) -> Option<Round<'a>>
    ensures is { (r : Round) → result ≡ Some r → IsLoop stmt.now r.condition.now r.body.now }
    ensures not { result ≡ None → IsPlain stmt.now }
{
    match stmt {
        Stmt::YieldLoop(condition, _, body) => Some(Round { condition, body }),
        Stmt::RankLoop(condition, _, _, body) => Some(Round { condition, body }),
        Stmt::Assign(_, _) => None,
        Stmt::Assert(_) => None,
        Stmt::If(_, _, _) => None,
        Stmt::While(_, _) => None,
        Stmt::Call(_, _, _) => None,
        Stmt::Yield(_) => None,
        Stmt::Commit => None,
        Stmt::Intro(_, _) => None,
        Stmt::Spawn(_, _) => None,
    }
}

/// A loop's body and its head again.
fn again<'a>(
    alloc: Alloc,
    body: &'a List<Stmt>,
    stmt: &'a Stmt,
    number: usize,
) -> Result<Vec<Numbered<'a>>, Memory>
    requires { number + 1 + sizes_of body.now < 2 ^ 64 }
    ensures { IfOk result (λ v. rest_of v.items ≡ numbered (number + 1) body.now ++ (number, stmt.now) ∷ []) }
{
    let mut rest = Vec::new(alloc);
    push_numbered(&mut rest, body.as_slice(), number + 1)?;
    push_one(&mut rest, stmt, number)?;
    Ok(rest)
}

/// What the paths do from the first of these statements, which is a cut.
pub fn pass_head(
    items: &[Numbered<'_>],
    alloc: Alloc,
    terms: &mut Terms,
    program: &Program,
    layer: u32,
    proc: &Proc,
    chosen: &Choices,
    sweep: &mut Sweep,
) -> Result<(), Memory>
    requires ready { ReadyHead terms.old program.now layer proc.now chosen.now sweep.old (rest_of items.now) }
    requires small { sizes_of proc.now.body < 2 ^ 32 }
    ensures passes { OnOk result (Passes terms.old terms.new program.now layer proc.now chosen.now sweep.old sweep.new (flow_rest (rest_of items.now)).passed (λ c. sweep_rest c (rest_of items.now))) }
    ensures weighs { OnOk result (Keeps linear_rules program.now → graph_weight terms.new ≤ graph_weight terms.old + 4 * passed_weights program.now layer proc.now (flow_rest (rest_of items.now)).passed) }
    ensures grows { Grows terms.old terms.new }
{
    if items.len() == 0 {
        let _count = terms.len();
        return Ok(());
    }
    let head = items[0];
    match loop_in(head.stmt) {
        None => {
            pass_rest(
                &items[1..],
                alloc,
                terms,
                program,
                layer,
                proc,
                chosen,
                sweep,
            )?;
            Ok(())
        }
        Some(round) => {
            let inside = again(alloc, round.body, head.stmt, head.number)?;
            pass_loop(
                &inside,
                &items[1..],
                alloc,
                terms,
                program,
                layer,
                proc,
                chosen,
                sweep,
                round.condition,
            )?;
            Ok(())
        }
    }
}

/// Whether a cut is the entry.
fn is_entry(cut: Cut) -> bool
    ensures entry { result ≡ true → IsEntry cut }
    ensures within { result ≡ false → IsWithin cut }
{
    match cut.kind {
        CutKind::Entry => true,
        CutKind::Yield => false,
        CutKind::YieldLoop => false,
        CutKind::RankLoop => false,
    }
}

/// What the paths do from a cut, at terms. Where no rule on linear locals is broken, the graph's weight rises by at most four times
/// that of the statements that some path passes.
///
/// # Errors
///
/// For want of memory; the nodes before stay.
pub fn pass_from(
    alloc: Alloc,
    terms: &mut Terms,
    program: &Program,
    layer: u32,
    proc: &Proc,
    chosen: &Choices,
    sweep: &mut Sweep,
    cut: Cut,
) -> Result<(), Memory>
    requires ready { ReadyFrom terms.old program.now layer proc.now chosen.now sweep.old cut }
    requires small { sizes_of proc.now.body < 2 ^ 32 }
    ensures passes { OnOk result (Passes terms.old terms.new program.now layer proc.now chosen.now sweep.old sweep.new (flow_from proc.now cut).passed (λ c. sweep_from c cut)) }
    ensures weighs { OnOk result (Keeps linear_rules program.now → graph_weight terms.new ≤ graph_weight terms.old + 4 * passed_weights program.now layer proc.now (flow_from proc.now cut).passed) }
    ensures grows { Grows terms.old terms.new }
{
    let mut rest = Vec::new(alloc);
    if is_entry(cut) {
        push_numbered(&mut rest, proc.body.as_slice(), 0)?;
        pass_rest(&rest, alloc, terms, program, layer, proc, chosen, sweep)?;
        return Ok(());
    }
    push_among(&mut rest, &proc.body, 0, cut.statement as usize)?;
    pass_head(&rest, alloc, terms, program, layer, proc, chosen, sweep)?;
    Ok(())
}

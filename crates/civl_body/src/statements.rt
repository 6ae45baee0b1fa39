// The statements of a body, one behind the other, at terms.
ghost use Rattle.std.specs.Prelude.{◌≤◌, ◌+◌, ◌∷◌, ◌<◌, ◌^◌, OnOk};
ghost use Rattle.civl_tree.specs.Numbering.{inner_of, numbered, size_of, sizes_of, statements_of};
ghost use Rattle.civl_tree.specs.rules.Rules.{Keeps};
ghost use Rattle.civl_linear.specs.LinearRules.{linear_rules};
ghost use Rattle.civl_terms.specs.Building.{Grows};
ghost use Rattle.civl_terms.specs.Weights.{graph_weight};
ghost use Rattle.civl_conditions.specs.paths.Flows.{flow, flow_all};
ghost use Rattle.civl_moves.specs.sweeps.Sweeps.{sweep as sweep_stmt, sweep_all, where_onward};
ghost use Rattle.civl_meaning.specs.Remaining.{rest_of};
ghost use Rattle.civl_body.specs.Passing.{Passes, Ready, ReadyRest};
ghost use Rattle.civl_body.specs.Weights.{Leaves, passed_weights, spent, written};

use crate::calls::pass_call;
use crate::sizes::{size, sizes};
use civl_meaning::remaining::Numbered;
use civl_moves::{
    Sweep, front_with, join, part, pass_assert, pass_assign, pass_commit, pass_cut, pass_intro,
    stop, swap,
};
use civl_states::Choices;
use civl_terms::{Memory, Terms};
use civl_tree::{List, Proc, Program, Stmt};
use std::alloc::Global as Alloc;

/// These statements, the first of which has this number.
#[cycle(pass)]
fn pass_all(
    stmts: &List<Stmt>,
    alloc: Alloc,
    terms: &mut Terms,
    program: &Program,
    layer: u32,
    proc: &Proc,
    chosen: &Choices,
    sweep: &mut Sweep,
    number: u32,
) -> Result<(), Memory>
    requires ready { Ready terms.old program.now layer proc.now chosen.now sweep.old number (statements_of stmts.now) (flow_all (numbered number stmts.now)).passed }
    requires small { number + sizes_of stmts.now < 2 ^ 32 }
    ensures passes { OnOk result (Passes terms.old terms.new program.now layer proc.now chosen.now sweep.old sweep.new (flow_all (numbered number stmts.now)).passed (λ c. sweep_all c (numbered number stmts.now))) }
    ensures leaves { OnOk result (Keeps linear_rules program.now → Leaves program.now proc.now (written program.now layer (statements_of stmts.now)) sweep.old sweep.new) }
    ensures weighs { OnOk result (Keeps linear_rules program.now → graph_weight terms.new ≤ graph_weight terms.old + spent sweep.old.onward (passed_weights program.now layer proc.now (flow_all (numbered number stmts.now)).passed)) }
    ensures grows { Grows terms.old terms.new }
{
    let mut here = number;
    for stmt in stmts.as_slice() {
        pass(
            stmt, alloc, terms, program, layer, proc, chosen, sweep, here,
        )?;
        let _count = terms.len();
        here += size(stmt);
    }
    Ok(())
}

/// These statements with their numbers.
pub fn pass_rest(
    items: &[Numbered<'_>],
    alloc: Alloc,
    terms: &mut Terms,
    program: &Program,
    layer: u32,
    proc: &Proc,
    chosen: &Choices,
    sweep: &mut Sweep,
) -> Result<(), Memory>
    requires ready { ReadyRest terms.old program.now layer proc.now chosen.now sweep.old (rest_of items.now) }
    requires small { sizes_of proc.now.body < 2 ^ 32 }
    ensures passes { OnOk result (Passes terms.old terms.new program.now layer proc.now chosen.now sweep.old sweep.new (flow_all (rest_of items.now)).passed (λ c. sweep_all c (rest_of items.now))) }
    ensures weighs { OnOk result (Keeps linear_rules program.now → graph_weight terms.new ≤ graph_weight terms.old + spent sweep.old.onward (passed_weights program.now layer proc.now (flow_all (rest_of items.now)).passed)) }
    ensures grows { Grows terms.old terms.new }
{
    for item in items {
        pass(
            item.stmt,
            alloc,
            terms,
            program,
            layer,
            proc,
            chosen,
            sweep,
            item.number as u32,
        )?;
        let _count = terms.len();
    }
    Ok(())
}

/// A statement, where some path comes to it.
#[cycle(pass)]
fn pass(
    stmt: &Stmt,
    alloc: Alloc,
    terms: &mut Terms,
    program: &Program,
    layer: u32,
    proc: &Proc,
    chosen: &Choices,
    sweep: &mut Sweep,
    number: u32,
) -> Result<(), Memory>
    requires ready { Ready terms.old program.now layer proc.now chosen.now sweep.old number (stmt.now ∷ inner_of stmt.now) (flow stmt.now stmt.now number).passed }
    requires small { number + size_of stmt.now < 2 ^ 32 }
    ensures passes { OnOk result (Passes terms.old terms.new program.now layer proc.now chosen.now sweep.old sweep.new (flow stmt.now stmt.now number).passed (λ c. where_onward (sweep_stmt c stmt.now number))) }
    ensures leaves { OnOk result (Keeps linear_rules program.now → Leaves program.now proc.now (written program.now layer (stmt.now ∷ inner_of stmt.now)) sweep.old sweep.new) }
    ensures weighs { OnOk result (Keeps linear_rules program.now → graph_weight terms.new ≤ graph_weight terms.old + spent sweep.old.onward (passed_weights program.now layer proc.now (flow stmt.now stmt.now number).passed)) }
    ensures grows { Grows terms.old terms.new }
{
    if !sweep.onward {
        let _count = terms.len();
        return Ok(());
    }
    match stmt {
        Stmt::Assign(target, expr) => {
            pass_assign(alloc, terms, program, proc, sweep, target, expr)?;
            Ok(())
        }
        Stmt::Assert(fact) => {
            pass_assert(alloc, terms, program, proc, sweep, fact)?;
            Ok(())
        }
        Stmt::If(condition, first, second) => {
            let fork = part(alloc, terms, program, proc, sweep, condition)?;
            let before = front_with(alloc, sweep, fork.second)?;
            sweep.live = fork.first;
            let inside = number + 1;
            pass_all(
                first, alloc, terms, program, layer, proc, chosen, sweep, inside,
            )?;
            let ended = swap(sweep, before);
            let behind = number + 1 + sizes(first);
            pass_all(
                second, alloc, terms, program, layer, proc, chosen, sweep, behind,
            )?;
            join(alloc, terms, sweep, &ended, fork.test)?;
            Ok(())
        }
        Stmt::Call(callee, args, results) => {
            pass_call(
                alloc, terms, program, layer, proc, chosen, sweep, number, callee, args, results,
            )?;
            Ok(())
        }
        Stmt::Commit => {
            pass_commit(terms, sweep)?;
            Ok(())
        }
        Stmt::Intro(target, expr) => {
            pass_intro(alloc, terms, program, proc, sweep, target, expr)?;
            Ok(())
        }
        Stmt::Yield(_) => {
            pass_cut(alloc, terms, sweep, number)?;
            Ok(())
        }
        Stmt::YieldLoop(_, _, _) => {
            pass_cut(alloc, terms, sweep, number)?;
            Ok(())
        }
        Stmt::RankLoop(_, _, _, _) => {
            pass_cut(alloc, terms, sweep, number)?;
            Ok(())
        }
        Stmt::While(_, _) => {
            stop(terms, sweep)?;
            Ok(())
        }
        Stmt::Spawn(_, _) => {
            stop(terms, sweep)?;
            Ok(())
        }
    }
}

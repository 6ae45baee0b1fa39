// The paths from a cut as terms: a sweep over all of them, and the ways to their ends.
ghost use Rattle.std.specs.Prelude.{◌≡◌, ◌≤◌, ◌+◌, ◌-◌, ◌*◌, ◌∷◌, [], ◌++◌, ◌<◌, ◌^◌, true, length, map, All, Some, IsSome, IfOk, OnOk};
ghost use Rattle.std.specs.List.{Contains};
ghost use Rattle.civl_tree.specs.Numbering.{sizes_of};
ghost use Rattle.civl_tree.specs.declared.expr.Sort.TheVariants.{Bool as Truth};
ghost use Rattle.civl_tree.specs.rules.Rules.{Keeps};
ghost use Rattle.civl_linear.specs.LinearRules.{linear_rules};
ghost use Rattle.civl_terms.specs.Building.{Grows};
ghost use Rattle.civl_terms.specs.Graphs.{sort_at};
ghost use Rattle.civl_terms.specs.Weights.{graph_weight};
ghost use Rattle.civl_layers.specs.Cuts.{proc_cuts};
ghost use Rattle.civl_layers.specs.Layered.{IsLayered};
ghost use Rattle.civl_conditions.specs.paths.Ends.{ends_from};
ghost use Rattle.civl_states.specs.Notes.{IsProcIn};
ghost use Rattle.civl_moves.specs.sweeps.Flowing.{is_statement};
ghost use Rattle.civl_conditions.specs.Parts.{outcome_of};
ghost use Rattle.civl_conditions.specs.Values.{Begun};
ghost use Rattle.civl_conditions.specs.Weights.{passed_weight};
ghost use Rattle.civl_states.specs.formula_parts.Said.{Env, IsTest};
ghost use Rattle.civl_states.specs.Beginnings.{AreBegun, CanBegin};
ghost use Rattle.civl_body.specs.Walks.{CanTake, IsWalk};
ghost use Rattle.civl_body.specs.inner.Ways.{exit_ways, sweep_of, way_from, ways_before, ways_from};

use crate::begin::pass_from;
use crate::way::{Walk, Way};
use civl_bits::Value;
use civl_layers::{Cut, CutKind};
use civl_moves::{Stop, Sweep, copied};
use civl_states::Beginning;
use civl_terms::{Memory, Terms};
use civl_tree::{List, Proc, Program};
use std::alloc::Global as Alloc;

/// Whether a cut is the statement with this number.
fn is_statement(cut: Cut, number: u32) -> bool
    ensures { result ≡ is_statement number cut }
{
    match cut.kind {
        CutKind::Entry => false,
        CutKind::Yield => number == cut.statement,
        CutKind::YieldLoop => number == cut.statement,
        CutKind::RankLoop => number == cut.statement,
    }
}

/// Puts the way to a stop, which is the end with this number, behind others.
fn push_way(alloc: Alloc, ways: &mut Vec<Way>, stop: &Stop, end: u32) -> Result<(), Memory>
    ensures { OnOk result (ways.new.items ≡ ways.old.items ++ way_from end stop.now ∷ []) }
{
    let globals = copied(alloc, &stop.globals)?;
    let locals = copied(alloc, &stop.locals)?;
    ways.push(Way {
        end,
        taken: stop.taken,
        globals,
        locals,
        done: stop.done,
    })?;
    Ok(())
}

/// Puts the way to the stop before this cut, which is the end with this number, behind others, if some path ends there.
fn push_stop(
    alloc: Alloc,
    ways: &mut Vec<Way>,
    stops: &[Stop],
    cut: Cut,
    end: u32,
) -> Result<(), Memory>
    ensures { OnOk result (ways.new.items ≡ ways.old.items ++ ways_before cut end stops.now) }
{
    for stop in stops {
        if is_statement(cut, stop.number) {
            push_way(alloc, ways, stop, end)?;
            return Ok(());
        }
    }
    Ok(())
}

/// Puts the way to the exit, which is the end with this number, behind others, if some path goes on to it.
fn push_exit(alloc: Alloc, ways: &mut Vec<Way>, sweep: &Sweep, end: u32) -> Result<(), Memory>
    ensures { OnOk result (ways.new.items ≡ ways.old.items ++ exit_ways end sweep.now) }
{
    if sweep.onward {
        let globals = copied(alloc, &sweep.globals)?;
        let locals = copied(alloc, &sweep.locals)?;
        ways.push(Way {
            end,
            taken: sweep.live,
            globals,
            locals,
            done: sweep.done,
        })?;
    }
    Ok(())
}

/// The ways of a sweep that is past all statements: one for each of these cuts before which it stopped, and one for the exit, if
/// it goes on.
fn ways_of(alloc: Alloc, cuts: &[Cut], sweep: &Sweep) -> Result<List<Way>, Memory>
    requires { length cuts.now < 2 ^ 32 }
    ensures { IfOk result (λ ways. ways ≡ ways_from 0 cuts.now sweep.now) }
{
    let mut ways = Vec::new(alloc);
    for at in 0..cuts.len() {
        push_stop(
            alloc,
            &mut ways,
            sweep.stops.as_slice(),
            cuts[at],
            at as u32,
        )?;
    }
    push_exit(alloc, &mut ways, sweep, cuts.len() as u32)?;
    Ok(List::from_vec(ways))
}

/// A sweep at the beginning of a path.
fn begins(alloc: Alloc, terms: &mut Terms, beginning: &Beginning) -> Result<Sweep, Memory>
    ensures begins { IfOk result (λ s. s ≡ sweep_of s.live beginning.now) }
    ensures live { IfOk result (λ s. IsTest terms.new s.live (λ env. true)) }
    ensures grows { Grows terms.old terms.new }
    ensures weighs { OnOk result (graph_weight terms.new ≤ graph_weight terms.old) }
{
    let yes = terms.constant(Value::Bool(true))?;
    let globals = copied(alloc, &beginning.globals)?;
    let locals = copied(alloc, &beginning.locals)?;
    Ok(Sweep {
        onward: true,
        live: yes,
        globals,
        locals,
        done: beginning.done,
        safe: yes,
        once: yes,
        stops: List::new(alloc),
    })
}

/// The layer below a step.
fn layer_below(step: u32) -> u32
    ensures { result ≡ step - 1 }
{
    step.saturating_sub(1)
}

/// What the paths from a cut of a procedure that refines an action come to in the program below a step, at these terms for their
/// beginning: whether they are safe, whether no second commit is passed, and the ways to their ends, one for each in rising order.
/// `cuts` are the cuts of the procedure. Where the program keeps the rules E40 to E43, the graph's weight rises by at most four times
/// that of the statements that some path passes.
///
/// # Errors
///
/// For want of memory; the nodes before stay.
pub fn walk(
    alloc: Alloc,
    terms: &mut Terms,
    program: &Program,
    step: u32,
    proc: &Proc,
    cut: Cut,
    cuts: &[Cut],
    beginning: &Beginning,
) -> Result<Walk, Memory>
    requires layered { IsLayered program.now }
    requires proc { IsProcIn program.now proc.now }
    requires refines { IsSome proc.now.refines }
    requires cuts { cuts.now ≡ proc_cuts proc.now }
    requires there { Contains (proc_cuts proc.now) cut }
    requires begins { CanBegin terms.old program.now step proc.now cut beginning.now }
    requires small { sizes_of proc.now.body < 2 ^ 32 }
    ensures walk { IfOk result (λ walk. (b : Env → Begun) → AreBegun terms.old program.now step proc.now cut beginning.now b → IsWalk terms.new program.now proc.now cut (λ env. outcome_of program.now step proc.now cut (b env)) walk) }
    ensures safe { IfOk result (λ walk. sort_at terms.new walk.safe ≡ Some Truth) }
    ensures once { IfOk result (λ walk. sort_at terms.new walk.once ≡ Some Truth) }
    ensures ways { IfOk result (λ walk. All (CanTake terms.new program.now proc.now) walk.ways) }
    ensures ends { IfOk result (λ walk. map (λ w. w.end) walk.ways ≡ ends_from proc.now cut) }
    ensures grows { Grows terms.old terms.new }
    ensures weighs { OnOk result (Keeps linear_rules program.now → graph_weight terms.new ≤ graph_weight terms.old + 4 * passed_weight program.now step proc.now cut) }
{
    let mut sweep = begins(alloc, terms, beginning)?;
    let _began = terms.len();
    pass_from(
        alloc,
        terms,
        program,
        layer_below(step),
        proc,
        &beginning.chosen,
        &mut sweep,
        cut,
    )?;
    let _passed = terms.len();
    let ways = ways_of(alloc, cuts, &sweep)?;
    Ok(Walk {
        safe: sweep.safe,
        once: sweep.once,
        ways,
    })
}

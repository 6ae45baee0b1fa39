// A statement of a root at terms.
ghost use Rattle.std.specs.Prelude.{◌≡◌, ◌≤◌, ◌+◌, List as ListOf, map, IfOk, OnOk};
ghost use Rattle.std.specs.Option.{option_map_or};
ghost use Rattle.civl_bits.specs.declared.value.Value.{Value as Meant};
ghost use Rattle.civl_tree.specs.declared.stmt.Stmt.{out-Stmt};
ghost use Rattle.civl_tree.specs.declared.stmt.Stmt.TheOpen.{Call};
ghost use Rattle.civl_firing.specs.values.ActionWeights.{action_weight};
ghost use Rattle.civl_meaning.specs.Layers.{topmost};
ghost use Rattle.civl_meaning.specs.Meaning.{called};
ghost use Rattle.civl_layers.specs.Layered.{IsLayered};
ghost use Rattle.civl_terms.specs.Graphs.{Fits};
ghost use Rattle.civl_terms.specs.Building.{Grows};
ghost use Rattle.civl_terms.specs.Weights.{graph_weight};
ghost use Rattle.civl_actions.specs.Scopes.{AreOf};
ghost use Rattle.civl_conditions.specs.paths.Choices.{action_meant};
ghost use Rattle.civl_conditions.specs.Weights.{body_weight, weights_of};
ghost use Rattle.civl_conditions.specs.Variables.{choices_of};
ghost use Rattle.civl_moves.specs.sweeps.Sweeps.{with_call};
ghost use Rattle.civl_states.specs.formula_parts.Said.{Env};
ghost use Rattle.civl_states.specs.formula_parts.Lists.{AreSaid};
ghost use Rattle.civl_moves.specs.States.{CanSweep, Moves, swept_at};
ghost use Rattle.civl_body.specs.Passing.{StandsCall, course_in};
ghost use Rattle.civl_goals.specs.Weights.{form_weight};
ghost use Rattle.civl_goal_terms.specs.inner.Places.{IsAt};
ghost use Rattle.civl_goal_terms.specs.inner.Settings.{Here, CanStand, SaysHere, sorts_at};
ghost use Rattle.civl_goal_terms.specs.inner.Steps.{begun, moved_at, swept_by, SaysSwept};

use crate::places::At;
use crate::settings::Setting;
use civl_bits::Value;
use civl_body::number_meant;
use civl_moves::{Sweep, body_terms, copied, halt, pass_action, pass_assert, pass_assign};
use civl_terms::{Id, Memory, Terms};
use civl_tree::{Expr, List, Name, Program, Stmt};
use std::alloc::Global as Alloc;

/// A sweep that stands before a statement.
fn begin(
    alloc: Alloc,
    terms: &mut Terms,
    program: &Program,
    at: &At<'_>,
    setting: &Setting,
) -> Result<Sweep, Memory>
    requires can { CanStand terms.old program.now at.now setting.now }
    ensures can { IfOk result (λ sweep. CanSweep terms.new program.now at.now.proc.now sweep) }
    ensures says { IfOk result (λ sweep. (h : Env → Here) → SaysHere terms.old program.now at.now setting.now h → (env : Env) → Fits env terms.new → swept_at env terms.new sweep ≡ begun (h env)) }
    ensures weighs { OnOk result (graph_weight terms.new ≤ graph_weight terms.old) }
    ensures grows { Grows terms.old terms.new }
{
    let yes = terms.constant(Value::Bool(true))?;
    let no = terms.constant(Value::Bool(false))?;
    let globals = copied(alloc, &setting.globals)?;
    let locals = copied(alloc, &setting.locals)?;
    Ok(Sweep {
        onward: true,
        live: yes,
        globals,
        locals,
        done: no,
        safe: yes,
        once: yes,
        stops: List::new(alloc),
    })
}

/// A call, with these terms for its choices.
fn pass_call(
    alloc: Alloc,
    terms: &mut Terms,
    program: &Program,
    at: &At<'_>,
    callee: &Name,
    args: &List<Expr>,
    results: &List<Name>,
    choices: &List<Id>,
    sweep: &mut Sweep,
) -> Result<(), Memory>
    requires layered { IsLayered program.now }
    requires at { IsAt program.now at.now }
    requires stands { StandsCall at.now.proc.now at.now.number callee.now args.now results.now }
    requires can { CanSweep terms.old program.now at.now.proc.now sweep.old }
    requires choices { AreOf terms.old choices.now (map (λ c. c.sort) (choices_of (called (topmost program.now) callee.now))) }
    ensures moves { OnOk result ((v : Env → ListOf Meant) → AreSaid terms.old choices.now (map (λ c. c.sort) (choices_of (called (topmost program.now) callee.now))) v → Moves terms.old terms.new program.now at.now.proc.now sweep.old sweep.new (λ env. with_call (course_in program.now program.now.layers at.now.proc.now (λ number. v env)) callee.now args.now results.now at.now.number)) }
    ensures weighs { OnOk result (graph_weight terms.new ≤ graph_weight terms.old + weights_of (body_weight program.now at.now.proc.now) args.now + option_map_or (action_weight program.now) (action_meant (called (topmost program.now) callee.now)) 0 + 4) }
    ensures grows { Grows terms.old terms.new }
{
    match number_meant(program, program.layers, callee) {
        Some(action) => {
            let inputs = body_terms(
                alloc,
                terms,
                program,
                at.proc,
                sweep.locals.as_slice(),
                args.as_slice(),
            )?;
            pass_action(
                alloc,
                terms,
                program,
                at.proc,
                sweep,
                action,
                &inputs,
                choices,
                results.as_slice(),
            )?;
            Ok(())
        }
        None => {
            halt(terms, sweep)?;
            Ok(())
        }
    }
}

/// The statement, with these terms for the choices of its call. One that only leads on leaves the sweep as it is.
fn pass(
    alloc: Alloc,
    terms: &mut Terms,
    program: &Program,
    at: &At<'_>,
    choices: &List<Id>,
    sweep: &mut Sweep,
) -> Result<(), Memory>
    requires layered { IsLayered program.now }
    requires at { IsAt program.now at.now }
    requires can { CanSweep terms.old program.now at.now.proc.now sweep.old }
    requires choices { AreOf terms.old choices.now (sorts_at program.now at.now) }
    ensures moves { OnOk result ((v : Env → ListOf Meant) → AreSaid terms.old choices.now (sorts_at program.now at.now) v → Moves terms.old terms.new program.now at.now.proc.now sweep.old sweep.new (λ env. moved_at program.now at.now (v env))) }
    ensures weighs { OnOk result (graph_weight terms.new ≤ graph_weight terms.old + form_weight program.now at.now.proc.now (out-Stmt at.now.stmt.now) + 4) }
    ensures grows { Grows terms.old terms.new }
{
    match at.stmt {
        Stmt::Assign(target, expr) => {
            pass_assign(alloc, terms, program, at.proc, sweep, target, expr)?;
            Ok(())
        }
        Stmt::Assert(fact) => {
            pass_assert(alloc, terms, program, at.proc, sweep, fact)?;
            Ok(())
        }
        Stmt::Call(callee, args, results) => {
            pass_call(
                alloc, terms, program, at, callee, args, results, choices, sweep,
            )?;
            Ok(())
        }
        Stmt::If(_, _, _) => Ok(()),
        Stmt::While(_, _) => Ok(()),
        Stmt::YieldLoop(_, _, _) => Ok(()),
        Stmt::RankLoop(_, _, _, _) => Ok(()),
        Stmt::Yield(_) => Ok(()),
        Stmt::Commit => Ok(()),
        Stmt::Intro(_, _) => Ok(()),
        Stmt::Spawn(_, _) => Ok(()),
    }
}

/// The sweep behind the statement.
pub(crate) fn passed(
    alloc: Alloc,
    terms: &mut Terms,
    program: &Program,
    at: &At<'_>,
    setting: &Setting,
) -> Result<Sweep, Memory>
    requires layered { IsLayered program.now }
    requires at { IsAt program.now at.now }
    requires can { CanStand terms.old program.now at.now setting.now }
    ensures says { IfOk result (λ sweep. (h : Env → Here) → SaysHere terms.old program.now at.now setting.now h → SaysSwept terms.new program.now at.now.proc.now sweep (λ env. swept_by program.now at.now (h env))) }
    ensures can { IfOk result (λ sweep. CanSweep terms.new program.now at.now.proc.now sweep) }
    ensures weighs { OnOk result (graph_weight terms.new ≤ graph_weight terms.old + form_weight program.now at.now.proc.now (out-Stmt at.now.stmt.now) + 4) }
    ensures grows { Grows terms.old terms.new }
{
    let mut sweep = begin(alloc, terms, program, at, setting)?;
    pass(alloc, terms, program, at, &setting.choices, &mut sweep)?;
    Ok(sweep)
}

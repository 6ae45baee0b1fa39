// Gates and asserts that are false.
ghost use Rattle.std.specs.Prelude.{◌≡◌, ◌++◌, ◌∷◌, [], IfOk, OnOk};
ghost use Rattle.civl_conditions.specs.Steps.{of_action};
ghost use Rattle.civl_verdicts.specs.reports.Values.{beside};
ghost use Rattle.civl_firing.specs.Scope.{frame_values};
ghost use Rattle.civl_path_stories.specs.Paths.{assert_lines, called_text, gate_lines, gate_text, given_value, lost_at, parts};
ghost use Rattle.civl_path_stories.specs.inner.Routes.{told, Fits};

use crate::ends::push_lost;
use crate::formulas::{push_formula, push_gate};
use crate::route::Route;
use civl_bits::Value;
use civl_firing::setting::in_frame;
use civl_lines::{Line, put_equation};
use civl_places::{Formula, InStatement};
use civl_tree::{Action, List, Memory, Name, Param, Program};
use civl_verdicts::reports::put;
use std::alloc::Global;

/// Puts `, name = value` behind what is there.
pub(crate) fn put_given_value(out: &mut Vec<u8>, name: &Name, value: &Value) -> Result<(), Memory>
    ensures { OnOk result (out.new.items ≡ out.old.items ++ given_value name.now value.now) }
{
    put(out, b", ")?;
    put_equation(out, name, value)
}

/// The same of each of these parameters.
fn put_params(out: &mut Vec<u8>, params: &List<Param>, values: &List<Value>) -> Result<(), Memory>
    ensures { OnOk result (out.new.items ≡ out.old.items ++ beside (λ p. given_value p.name) params.now values.now) }
{
    for at in 0..params.len().min(values.len()) {
        put_given_value(out, &params.get(at).name, values.get(at))?;
    }
    Ok(())
}

/// Puts the name of an action and the values of its parameters behind what is there.
fn put_called(out: &mut Vec<u8>, action: &Action, inputs: &List<Value>) -> Result<(), Memory>
    ensures { OnOk result (out.new.items ≡ out.old.items ++ called_text inputs.now action.now) }
{
    put(out, action.name.as_slice())?;
    put_params(out, &action.params, inputs)
}

/// The same of the action with this number, if there is one.
fn put_call(
    out: &mut Vec<u8>,
    program: &Program,
    number: usize,
    inputs: &List<Value>,
) -> Result<(), Memory>
    ensures { OnOk result (out.new.items ≡ out.old.items ++ of_action program.now number [] (called_text inputs.now)) }
{
    match program.actions.as_slice().get(number) {
        Some(action) => put_called(out, action, inputs),
        None => Ok(()),
    }
}

/// What is said of a call whose gate is false.
///
/// # Errors
///
/// For want of memory.
pub fn gate_text(
    alloc: Global,
    program: &Program,
    number: usize,
    inputs: &List<Value>,
) -> Result<Vec<u8>, Memory>
    ensures { IfOk result (λ text. text.items ≡ gate_text program.now number inputs.now) }
{
    let mut text = Vec::from_slice(alloc, b"its gate is false: ")?;
    put_call(&mut text, program, number, inputs)?;
    Ok(text)
}

/// Puts the line of such a call behind the others.
fn push_call(
    alloc: Global,
    lines: &mut Vec<Line>,
    route: &Route<'_>,
    number: usize,
    inputs: &List<Value>,
) -> Result<(), Memory>
    requires { Fits route.now }
    ensures { OnOk result (lines.new.items ≡ lines.old.items
        ++ lost_at (told route.now) route.now.path.now.walked.at (gate_text route.now.program.now number inputs.now) ∷ []) }
{
    let text = gate_text(alloc, route.program, number, inputs)?;
    push_lost(alloc, lines, route, route.path.walked.at, text.as_slice())
}

/// The action with this number has a gate that is false with these inputs.
pub(crate) fn push_false_gate(
    alloc: Global,
    lines: &mut Vec<Line>,
    route: &Route<'_>,
    number: usize,
    inputs: &List<Value>,
) -> Result<(), Memory>
    requires { Fits route.now }
    ensures { OnOk result (lines.new.items ≡ lines.old.items ++ gate_lines (told route.now) number inputs.now) }
{
    push_call(alloc, lines, route, number, inputs)?;
    let store = &route.path.walked.end.store;
    push_gate(
        alloc,
        lines,
        route.program,
        number,
        store,
        inputs.as_slice(),
    )?;
    Ok(())
}

/// Puts the false parts of an assert behind the others.
fn push_fact(alloc: Global, lines: &mut Vec<Line>, route: &Route<'_>) -> Result<(), Memory>
    requires { Fits route.now }
    ensures { OnOk result (lines.new.items ≡ lines.old.items
        ++ parts route.now.program.now (frame_values route.now.program.now.globals route.now.proc.now route.now.path.now.walked.end.locals)
        (Formula.Statement route.now.number route.now.path.now.walked.at InStatement.Condition)) }
{
    let walked = &route.path.walked;
    let globals = route.program.globals.as_slice();
    let frame = in_frame(globals, route.proc, walked.end.locals.as_slice());
    let fact = Formula::Statement(route.number as usize, walked.at, InStatement::Condition);
    push_formula(alloc, lines, route.program, &frame, &fact)
}

/// The path ends before an assert that is false.
pub(crate) fn push_false_assert(
    alloc: Global,
    lines: &mut Vec<Line>,
    route: &Route<'_>,
) -> Result<(), Memory>
    requires { Fits route.now }
    ensures { OnOk result (lines.new.items ≡ lines.old.items ++ assert_lines (told route.now)) }
{
    push_lost(alloc, lines, route, route.path.walked.at, b"this is false")?;
    push_fact(alloc, lines, route)?;
    Ok(())
}

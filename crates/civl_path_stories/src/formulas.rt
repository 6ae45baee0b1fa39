// Formulas that are false.
ghost use Rattle.std.specs.Prelude.{◌≡◌, ◌++◌, ◌<◌, ◌^◌, length, OnOk};
ghost use Rattle.civl_tree.specs.SpellingProgram.{spell_program};
ghost use Rattle.civl_firing.specs.Scope.{gate_values, guard_values};
ghost use Rattle.civl_firing.specs.Settings.{scope_in};
ghost use Rattle.civl_lines.specs.inner.Named.{told};
ghost use Rattle.civl_path_stories.specs.Paths.{named_parts, parts, gate_parts, guard_parts};

use civl_bits::Value;
use civl_firing::Store;
use civl_firing::names::Names;
use civl_firing::setting::{Bindings, Setting};
use civl_lines::{Line, Naming, as_written, push_named_parts};
use civl_places::laws::formulas_stand;
use civl_places::{Formula, InAction, formula_at};
use civl_tree::{Action, Global, Memory, Program};
use std::alloc::Global as Alloc;

/// Puts the false parts of an expression of the program behind the others, with its names told so.
#[tactic(auto, using(crate::proofs::Standing::stands_within), unfolding(crate::specs::Paths::named_parts))]
pub(crate) fn push_named_formula<B: Bindings>(
    alloc: Alloc,
    lines: &mut Vec<Line>,
    program: &Program,
    naming: &Naming<'_>,
    bindings: &B,
    formula: &Formula,
) -> Result<(), Memory>
    requires { length (spell_program program.now) < 2 ^ 64 }
    ensures { OnOk result (lines.new.items ≡ lines.old.items
        ++ named_parts program.now (told naming.now) (B.scope bindings.now) formula.now) }
{
    formulas_stand();
    match formula_at(program, formula) {
        Some(part) => push_named_parts(alloc, lines, naming, bindings, &part),
        None => Ok(()),
    }
}

/// Puts the false parts of an expression of the program behind the others.
///
/// # Errors
///
/// For want of memory.
pub fn push_formula<B: Bindings>(
    alloc: Alloc,
    lines: &mut Vec<Line>,
    program: &Program,
    bindings: &B,
    formula: &Formula,
) -> Result<(), Memory>
    requires { length (spell_program program.now) < 2 ^ 64 }
    ensures { OnOk result (lines.new.items ≡ lines.old.items ++ parts program.now (B.scope bindings.now) formula.now) }
{
    push_named_formula(alloc, lines, program, &as_written(), bindings, formula)
}

/// What an action's gate is about.
#[tactic(auto, using(civl_firing::proofs::Joining::appending))]
fn at_gate<'a>(
    globals: &'a [Global],
    store: &'a Store,
    action: &'a Action,
    inputs: &'a [Value],
) -> Setting<'a>
    ensures { scope_in result ≡ gate_values globals.now store.now action.now inputs.now }
{
    Setting {
        names: Names {
            globals,
            params: action.params.as_slice(),
            choices: &[],
            outs: action.outs.as_slice(),
            locals: &[],
            behind: &[],
        },
        store: store.values.as_slice(),
        inputs,
        chosen: &[],
        zeros: action.outs.as_slice(),
    }
}

/// What an action's guard is about.
#[tactic(auto, using(civl_firing::proofs::Joining::appending))]
fn at_guard<'a>(
    globals: &'a [Global],
    store: &'a Store,
    action: &'a Action,
    inputs: &'a [Value],
    chosen: &'a [Value],
) -> Setting<'a>
    ensures { scope_in result ≡ guard_values globals.now store.now action.now inputs.now chosen.now }
{
    Setting {
        names: Names {
            globals,
            params: action.params.as_slice(),
            choices: action.choices.as_slice(),
            outs: action.outs.as_slice(),
            locals: &[],
            behind: &[],
        },
        store: store.values.as_slice(),
        inputs,
        chosen,
        zeros: action.outs.as_slice(),
    }
}

/// Puts the false parts of the gate of this action behind the others, with these inputs in a store.
fn push_gate_of(
    alloc: Alloc,
    lines: &mut Vec<Line>,
    program: &Program,
    number: usize,
    action: &Action,
    store: &Store,
    inputs: &[Value],
) -> Result<(), Memory>
    requires { length (spell_program program.now) < 2 ^ 64 }
    ensures { OnOk result (lines.new.items ≡ lines.old.items
        ++ parts program.now (gate_values program.now.globals store.now action.now inputs.now) (Formula.Action number InAction.Gate)) }
{
    let setting = at_gate(program.globals.as_slice(), store, action, inputs);
    let gate = Formula::Action(number, InAction::Gate);
    push_formula(alloc, lines, program, &setting, &gate)
}

/// The same of the action with this number.
///
/// # Errors
///
/// For want of memory.
pub fn push_gate(
    alloc: Alloc,
    lines: &mut Vec<Line>,
    program: &Program,
    number: usize,
    store: &Store,
    inputs: &[Value],
) -> Result<(), Memory>
    requires { length (spell_program program.now) < 2 ^ 64 }
    ensures { OnOk result (lines.new.items ≡ lines.old.items ++ gate_parts program.now number store.now inputs.now) }
{
    match program.actions.as_slice().get(number) {
        Some(action) => push_gate_of(alloc, lines, program, number, action, store, inputs),
        None => Ok(()),
    }
}

/// Puts the false parts of the guard of this action behind the others, with these inputs and choices in a store.
fn push_guard_of(
    alloc: Alloc,
    lines: &mut Vec<Line>,
    program: &Program,
    number: usize,
    action: &Action,
    store: &Store,
    inputs: &[Value],
    chosen: &[Value],
) -> Result<(), Memory>
    requires { length (spell_program program.now) < 2 ^ 64 }
    ensures { OnOk result (lines.new.items ≡ lines.old.items
        ++ parts program.now (guard_values program.now.globals store.now action.now inputs.now chosen.now)
        (Formula.Action number InAction.Guard)) }
{
    let setting = at_guard(program.globals.as_slice(), store, action, inputs, chosen);
    let guard = Formula::Action(number, InAction::Guard);
    push_formula(alloc, lines, program, &setting, &guard)
}

/// The same of the action with this number.
pub(crate) fn push_guard(
    alloc: Alloc,
    lines: &mut Vec<Line>,
    program: &Program,
    number: usize,
    store: &Store,
    inputs: &[Value],
    chosen: &[Value],
) -> Result<(), Memory>
    requires { length (spell_program program.now) < 2 ^ 64 }
    ensures { OnOk result (lines.new.items ≡ lines.old.items ++ guard_parts program.now number store.now inputs.now chosen.now) }
{
    match program.actions.as_slice().get(number) {
        Some(action) => {
            push_guard_of(alloc, lines, program, number, action, store, inputs, chosen)
        }
        None => Ok(()),
    }
}

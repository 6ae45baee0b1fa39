// K1: initial stores meet the invariants.
ghost use Rattle.std.specs.Prelude.{◌≡◌, ◌+◌, ◌*◌, ◌≤◌, IfOk, OnOk, Some, not, option_copied};
ghost use Rattle.civl_tree.specs.rules.Scopes.{global_scope};
ghost use Rattle.civl_tree.specs.declared.expr.Sort.TheVariants.{Bool as Truth};
ghost use Rattle.civl_tree.specs.rules.Rules.{Keeps};
ghost use Rattle.civl_tree.specs.rules.Typing.{typing_rules};
ghost use Rattle.civl_firing.specs.declared.store.Store.{Store};
ghost use Rattle.civl_terms.specs.Graphs.{sort_at};
ghost use Rattle.civl_terms.specs.Building.{Grows, Lengthens};
ghost use Rattle.civl_terms.specs.Weights.{graph_weight};
ghost use Rattle.civl_conditions.specs.declared.condition.Condition.TheVariants.{Start};
ghost use Rattle.civl_conditions.specs.Invariants.{holds_of_globals, invariant_at, invariant_lost, start_fails};
ghost use Rattle.civl_conditions.specs.Weights.{initial_own, global_weight, maybe_weight, weight};
ghost use Rattle.civl_states.specs.formula_parts.Said.{Env, IsTest};
ghost use Rattle.civl_states.specs.formula_parts.Given.{AreVariablesOf};
ghost use Rattle.civl_states.specs.Stores.{AreGlobals, AreStore};
ghost use Rattle.civl_states.specs.Formulas.{sorts_of, IsViolation};
ghost use Rattle.civl_states.specs.Notes.{HasType};

use crate::interfere::initials::initial_at;
use civl_bits::Value;
use civl_states::formula_parts::{both, negated};
use civl_states::{Existing, global_note, store};
use civl_terms::{Id, Memory, Terms};
use civl_tree::{Expr, List, Program, Sort};
use std::alloc::Global as Alloc;

/// The invariant of a step that has this place among those of the step, if there is one.
pub fn invariant_at(program: &Program, step: u32, place: u32) -> Option<&Expr>
    ensures { option_copied result ≡ invariant_at program.now step place }
{
    let mut left = place;
    for invariant in program.invariants.as_slice() {
        if invariant.step == step {
            if left == 0 {
                return Some(&invariant.expr);
            }
            left -= 1;
        }
    }
    None
}

/// Whether an expression of the globals doesn't hold.
fn fails_at(terms: &mut Terms, program: &Program, expr: &Expr, globals: &[Id]) -> Result<Id, Memory>
    requires typed { HasType (global_scope program.now) expr.now Truth }
    requires globals { AreGlobals terms.old program.now globals.now }
    ensures tells { IfOk result (λ id. (g : Env → Store) → AreStore terms.old program.now globals.now g → IsTest terms.new id (λ env. not (holds_of_globals program.now (g env) expr.now))) }
    ensures sorted { IfOk result (λ id. sort_at terms.new id ≡ Some Truth) }
    ensures weighs { OnOk result (graph_weight terms.new ≤ graph_weight terms.old + global_weight program.now expr.now + 1) }
    ensures grows { Grows terms.old terms.new }
{
    let holds = global_note(terms, program, expr, globals)?;
    let id = negated(terms, holds)?;
    Ok(id)
}

/// Whether the invariant of a step at this place doesn't hold, at terms for the globals; where there is none, it does.
pub(crate) fn lost_at(
    terms: &mut Terms,
    program: &Program,
    step: u32,
    place: u32,
    globals: &[Id],
) -> Result<Id, Memory>
    requires rules { Keeps typing_rules program.now }
    requires globals { AreGlobals terms.old program.now globals.now }
    ensures tells { IfOk result (λ id. (g : Env → Store) → AreStore terms.old program.now globals.now g → IsTest terms.new id (λ env. invariant_lost program.now step place (g env))) }
    ensures sorted { IfOk result (λ id. sort_at terms.new id ≡ Some Truth) }
    ensures weighs { OnOk result (graph_weight terms.new ≤ graph_weight terms.old + 2 * maybe_weight (global_weight program.now) (invariant_at program.now step place)) }
    ensures grows { Grows terms.old terms.new }
{
    match invariant_at(program, step, place) {
        Some(expr) => {
            let id = fails_at(terms, program, expr, globals)?;
            Ok(id)
        }
        None => {
            let id = terms.constant(Value::Bool(false))?;
            Ok(id)
        }
    }
}

/// Whether a store is initial and the invariant of a step at this place doesn't hold in it.
fn start_at(
    alloc: Alloc,
    terms: &mut Terms,
    program: &Program,
    step: u32,
    place: u32,
    globals: &List<Id>,
) -> Result<Id, Memory>
    requires rules { Keeps typing_rules program.now }
    requires globals { AreGlobals terms.old program.now globals.now }
    ensures tells { IfOk result (λ id. (g : Env → Store) → AreStore terms.old program.now globals.now g → IsTest terms.new id (λ env. start_fails program.now step place (g env))) }
    ensures sorted { IfOk result (λ id. sort_at terms.new id ≡ Some Truth) }
    ensures weighs { OnOk result (graph_weight terms.new ≤ graph_weight terms.old + 4 * initial_own program.now + 2 * maybe_weight (global_weight program.now) (invariant_at program.now step place)) }
    ensures grows { Grows terms.old terms.new }
{
    let initial = initial_at(alloc, terms, program, globals)?;
    let lost = lost_at(terms, program, step, place, globals.as_slice())?;
    let id = both(terms, initial, lost)?;
    Ok(id)
}

/// K1: initial stores meet the invariant of a step at this place.
pub(crate) fn start_fails(
    alloc: Alloc,
    terms: &mut Terms,
    program: &Program,
    sorts: &[Sort],
    step: u32,
    place: u32,
) -> Result<Id, Memory>
    requires rules { Keeps typing_rules program.now }
    requires sorts { sorts.now ≡ sorts_of program.now (Start step place) }
    requires variables { AreVariablesOf terms.old sorts.now }
    ensures says { IfOk result (λ id. IsViolation terms.new id program.now (Start step place)) }
    ensures weighs { OnOk result (graph_weight terms.new ≤ graph_weight terms.old + 4 * weight program.now (Start step place)) }
    ensures lengthens { Lengthens terms.old terms.new }
{
    let globals = store(alloc, terms, program, sorts, Existing::All, 0)?;
    let id = start_at(alloc, terms, program, step, place, &globals)?;
    Ok(id)
}

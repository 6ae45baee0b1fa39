// The invariants of a step.
ghost use Rattle.std.specs.Prelude.{◌≡◌, ◌+◌, ◌*◌, ◌≤◌, ◌&&◌, Bool, Some, IfOk, OnOk};
ghost use Rattle.civl_tree.specs.declared.expr.Sort.TheVariants.{Bool as Truth};
ghost use Rattle.civl_tree.specs.rules.Rules.{Keeps};
ghost use Rattle.civl_tree.specs.rules.Typing.{typing_rules};
ghost use Rattle.civl_tree.specs.rules.Scopes.{global_scope};
ghost use Rattle.civl_firing.specs.declared.store.Store.{Store};
ghost use Rattle.civl_terms.specs.Graphs.{sort_at};
ghost use Rattle.civl_terms.specs.Building.{Grows};
ghost use Rattle.civl_terms.specs.Weights.{graph_weight};
ghost use Rattle.civl_conditions.specs.Steps.{step_invariants};
ghost use Rattle.civl_conditions.specs.Invariants.{holds_of_globals, invariants_hold};
ghost use Rattle.civl_conditions.specs.Weights.{weights_of, global_weight};
ghost use Rattle.civl_states.specs.formula_parts.Said.{Env, IsTest};
ghost use Rattle.civl_states.specs.Stores.{AreGlobals, AreStore};
ghost use Rattle.civl_states.specs.Notes.{HasType};

use crate::formula_parts::both;
use crate::notes::global_note;
use civl_bits::Value;
use civl_terms::{Id, Memory, Terms};
use civl_tree::{Expr, Program};

/// Whether a test is true, and what is said of the globals too. The graph's weight rises by at most twice that of the latter.
///
/// # Errors
///
/// For want of memory; the nodes before stay.
pub fn and_hold(
    terms: &mut Terms,
    program: &Program,
    test: Id,
    expr: &Expr,
    globals: &[Id],
) -> Result<Id, Memory>
    requires test { sort_at terms.old test ≡ Some Truth }
    requires typed { HasType (global_scope program.now) expr.now Truth }
    requires globals { AreGlobals terms.old program.now globals.now }
    ensures test { IfOk result (λ id. (f : Env → Bool) (g : Env → Store) → IsTest terms.old test f → AreStore terms.old program.now globals.now g → IsTest terms.new id (λ env. f env && holds_of_globals program.now (g env) expr.now)) }
    ensures sorted { IfOk result (λ id. sort_at terms.new id ≡ Some Truth) }
    ensures weighs { OnOk result (graph_weight terms.new ≤ graph_weight terms.old + 2 * global_weight program.now expr.now) }
    ensures grows { Grows terms.old terms.new }
{
    let holds = global_note(terms, program, expr, globals)?;
    let id = both(terms, test, holds)?;
    Ok(id)
}

/// Whether all invariants of a step hold, at these terms for the globals. The graph's weight rises by at most twice theirs.
///
/// # Errors
///
/// For want of memory; the nodes before stay.
pub fn invariants_at(
    terms: &mut Terms,
    program: &Program,
    step: u32,
    globals: &[Id],
) -> Result<Id, Memory>
    requires rules { Keeps typing_rules program.now }
    requires globals { AreGlobals terms.old program.now globals.now }
    ensures tells { IfOk result (λ id. (g : Env → Store) → AreStore terms.old program.now globals.now g → IsTest terms.new id (λ env. invariants_hold program.now step (g env))) }
    ensures sorted { IfOk result (λ id. sort_at terms.new id ≡ Some Truth) }
    ensures weighs { OnOk result (graph_weight terms.new ≤ graph_weight terms.old + 2 * weights_of (global_weight program.now) (step_invariants program.now step)) }
    ensures grows { Grows terms.old terms.new }
{
    let mut all = terms.constant(Value::Bool(true))?;
    for invariant in program.invariants.as_slice() {
        if invariant.step == step {
            all = and_hold(terms, program, all, &invariant.expr, globals)?;
        }
    }
    Ok(all)
}

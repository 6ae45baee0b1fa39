// Initial stores.
ghost use Rattle.std.specs.Prelude.{◌≡◌, ◌+◌, ◌*◌, ◌≤◌, IfOk, OnOk, Some};
ghost use Rattle.civl_tree.specs.declared.expr.Sort.TheVariants.{Bool as Truth};
ghost use Rattle.civl_tree.specs.rules.Rules.{Keeps};
ghost use Rattle.civl_tree.specs.rules.Typing.{typing_rules};
ghost use Rattle.civl_firing.specs.declared.store.Store.{Store};
ghost use Rattle.civl_meaning.specs.Permissions.{pairwise_disjoint};
ghost use Rattle.civl_meaning.specs.Initial.{initial_permissions};
ghost use Rattle.civl_terms.specs.Graphs.{sort_at};
ghost use Rattle.civl_terms.specs.Building.{Grows, Lengthens};
ghost use Rattle.civl_terms.specs.Weights.{graph_weight};
ghost use Rattle.civl_conditions.specs.Invariants.{meets_init};
ghost use Rattle.civl_conditions.specs.Weights.{global_weight, lin, initial_items, initial_weight};
ghost use Rattle.civl_states.specs.formula_parts.Said.{Env, IsTest};
ghost use Rattle.civl_states.specs.formula_parts.Given.{AreVariablesOf};
ghost use Rattle.civl_states.specs.Stores.{AreGlobals, AreStore, global_sorts};
ghost use Rattle.civl_states.specs.Formulas.{IsFormula};
ghost use Rattle.civl_movers.specs.interfere.Arguments.{threads_weight};

use crate::interfere::threads::with_threads;
use civl_layers::{Layered, program};
use civl_states::formula_parts::{both, no_items};
use civl_states::{Existing, global_items, global_note, store};
use civl_terms::{Id, Memory, Terms};
use civl_tree::{List, Program, Sort};
use std::alloc::Global as Alloc;

/// Whether the permissions of the linear globals and of the linear thread arguments are pairwise disjoint.
fn permissions_apart(
    alloc: Alloc,
    terms: &mut Terms,
    program: &Program,
    globals: &List<Id>,
) -> Result<Id, Memory>
    requires rules { Keeps typing_rules program.now }
    requires globals { AreGlobals terms.old program.now globals.now }
    ensures tells { IfOk result (λ id. (g : Env → Store) → AreStore terms.old program.now globals.now g → IsTest terms.new id (λ env. pairwise_disjoint (initial_permissions program.now (g env)))) }
    ensures sorted { IfOk result (λ id. sort_at terms.new id ≡ Some Truth) }
    ensures weighs { OnOk result (graph_weight terms.new ≤ graph_weight terms.old + threads_weight program.now program.now.threads + 4 * lin program.now (initial_items program.now)) }
    ensures grows { Grows terms.old terms.new }
{
    let none = no_items(terms)?;
    let stored = global_items(alloc, terms, program, none, globals)?;
    let all = with_threads(alloc, terms, program, globals, stored)?;
    Ok(all.apart)
}

/// Whether a store is initial, at terms for its globals. The graph's weight rises by at most that of `init`, those of the arguments of
/// the declared threads, four times what is counted for so many linear items, and 1.
///
/// # Errors
///
/// For want of memory; the nodes before stay.
pub fn initial_at(
    alloc: Alloc,
    terms: &mut Terms,
    program: &Program,
    globals: &List<Id>,
) -> Result<Id, Memory>
    requires rules { Keeps typing_rules program.now }
    requires globals { AreGlobals terms.old program.now globals.now }
    ensures tells { IfOk result (λ id. (g : Env → Store) → AreStore terms.old program.now globals.now g → IsTest terms.new id (λ env. meets_init program.now (g env))) }
    ensures sorted { IfOk result (λ id. sort_at terms.new id ≡ Some Truth) }
    ensures weighs { OnOk result (graph_weight terms.new ≤ graph_weight terms.old + global_weight program.now program.now.init + threads_weight program.now program.now.threads + 4 * lin program.now (initial_items program.now) + 1) }
    ensures grows { Grows terms.old terms.new }
{
    let init = global_note(terms, program, &program.init, globals.as_slice())?;
    let apart = permissions_apart(alloc, terms, program, globals)?;
    let id = both(terms, init, apart)?;
    Ok(id)
}

/// The sorts of the globals, in their order.
fn sorts_of_globals(alloc: Alloc, program: &Program) -> Result<Vec<Sort>, Memory>
    ensures { IfOk result (λ sorts. sorts.items ≡ global_sorts program.now) }
{
    let mut sorts = Vec::new(alloc);
    for global in program.globals.as_slice() {
        sorts.push(global.sort)?;
    }
    Ok(sorts)
}

/// The term of the formula that a store is initial: `init` holds in it, and the permissions of the linear globals and of the linear
/// arguments of the declared threads are pairwise disjoint. The graph's variables are the globals, in the order of the text.
///
/// The graph's weight rises by at most four times the formula's.
///
/// # Errors
///
/// For want of memory; the nodes before stay.
pub fn initial(alloc: Alloc, terms: &mut Terms, src: &Layered) -> Result<Id, Memory>
    requires { AreVariablesOf terms.old (global_sorts src.now) }
    ensures says { IfOk result (λ id. IsFormula terms.new id (global_sorts src.now) (λ values. meets_init src.now (record { values = values }))) }
    ensures weighs { OnOk result (graph_weight terms.new ≤ graph_weight terms.old + 4 * initial_weight src.now) }
    ensures lengthens { Lengthens terms.old terms.new }
{
    let program = program(src);
    let sorts = sorts_of_globals(alloc, program)?;
    let globals = store(alloc, terms, program, sorts.as_slice(), Existing::All, 0)?;
    let id = initial_at(alloc, terms, program, &globals)?;
    Ok(id)
}

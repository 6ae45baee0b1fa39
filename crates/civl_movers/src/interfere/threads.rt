// What the linear arguments of the declared threads carry.
ghost use Rattle.std.specs.Prelude.{◌≡◌, ◌+◌, ◌≤◌, ◌^◌, ◌++◌, ℕ, List, All, slice_get, Some, IfOk, OnOk};
ghost use Rattle.civl_tree.specs.rules.Rules.{Keeps};
ghost use Rattle.civl_tree.specs.rules.Typing.{typing_rules};
ghost use Rattle.civl_tree.specs.rules.Scopes.{global_scope};
ghost use Rattle.civl_firing.specs.declared.store.Store.{Store};
ghost use Rattle.civl_firing.specs.Eval.{values_of};
ghost use Rattle.civl_firing.specs.Scope.{global_values};
ghost use Rattle.civl_meaning.specs.Initial.{of_thread};
ghost use Rattle.civl_terms.specs.Building.{Grows};
ghost use Rattle.civl_terms.specs.Weights.{graph_weight};
ghost use Rattle.civl_actions.specs.Scopes.{AreOf, IsTyped};
ghost use Rattle.civl_conditions.specs.Weights.{weights_of, global_weight, thread_items};
ghost use Rattle.civl_states.specs.formula_parts.Said.{Env};
ghost use Rattle.civl_states.specs.formula_parts.Lists.{AreSaid};
ghost use Rattle.civl_states.specs.formula_parts.Masks.{AreCarried, CanCarry};
ghost use Rattle.civl_states.specs.Stores.{AreGlobals, AreStore};
ghost use Rattle.civl_states.specs.Items.{HasItems, items_weight};
ghost use Rattle.civl_movers.specs.interfere.Arguments.{arg_sorts, threads_items, thread_weight, threads_weight, of_threads};

use civl_states::formula_parts::Carried;
use civl_states::{Which, global_note, param_items};
use civl_terms::{Id, Memory, Terms};
use civl_tree::{Expr, List, Program, Thread};
use civl_types::names::proc_named;
use std::alloc::Global as Alloc;

/// The terms of expressions of the globals, one for each, at these terms for the globals. The graph's weight rises by at most the
/// expressions'.
///
/// The expressions have sorts there.
///
/// # Errors
///
/// For want of memory; the nodes before stay.
pub fn argument_terms(
    alloc: Alloc,
    terms: &mut Terms,
    program: &Program,
    args: &[Expr],
    globals: &[Id],
) -> Result<Vec<Id>, Memory>
    requires typed { All (IsTyped (global_scope program.now)) args.now }
    requires globals { AreGlobals terms.old program.now globals.now }
    ensures said { IfOk result (λ ids. (g : Env → Store) → AreStore terms.old program.now globals.now g → AreSaid terms.new ids.items (arg_sorts program.now args.now) (λ env. values_of (global_values program.now.globals (g env)) args.now)) }
    ensures sorted { IfOk result (λ ids. AreOf terms.new ids.items (arg_sorts program.now args.now)) }
    ensures weighs { OnOk result (graph_weight terms.new ≤ graph_weight terms.old + weights_of (global_weight program.now) args.now) }
    ensures grows { Grows terms.old terms.new }
{
    let mut ids = Vec::new(alloc);
    for arg in args {
        let id = global_note(terms, program, arg, globals)?;
        ids.push(id)?;
    }
    Ok(ids)
}

/// What items carry and the linear arguments of a thread more.
fn with_thread(
    alloc: Alloc,
    terms: &mut Terms,
    program: &Program,
    globals: &List<Id>,
    carried: Carried,
    thread: &Thread,
) -> Result<Carried, Memory>
    requires rules { Keeps typing_rules program.now }
    requires globals { AreGlobals terms.old program.now globals.now }
    requires thread { (place : ℕ) × (slice_get program.now.threads place ≡ Some thread.now) }
    requires carried { CanCarry terms.old (2 ^ program.now.permissions) carried }
    ensures carried { IfOk result (λ c. (f : Env → List (List ℕ)) (g : Env → Store) → AreCarried terms.old (2 ^ program.now.permissions) carried f → AreStore terms.old program.now globals.now g → AreCarried terms.new (2 ^ program.now.permissions) c (λ env. f env ++ of_thread program.now (g env) thread.now)) }
    ensures sorted { IfOk result (λ c. CanCarry terms.new (2 ^ program.now.permissions) c) }
    ensures number { IfOk result (λ c. (n : ℕ) → HasItems carried.mask n → HasItems c.mask (n + thread_items program.now thread.now)) }
    ensures weighs { OnOk result ((n : ℕ) → HasItems carried.mask n → graph_weight terms.new + items_weight (2 ^ program.now.permissions) n ≤ graph_weight terms.old + thread_weight program.now thread.now + items_weight (2 ^ program.now.permissions) (n + thread_items program.now thread.now)) }
    ensures grows { Grows terms.old terms.new }
{
    let ids = argument_terms(
        alloc,
        terms,
        program,
        thread.args.as_slice(),
        globals.as_slice(),
    )?;
    let args = List::from_vec(ids);
    match proc_named(program, &thread.callee) {
        Some(proc) => {
            let more = param_items(
                alloc,
                terms,
                program,
                Which::Linear,
                carried,
                &proc.params,
                &args,
            )?;
            Ok(more)
        }
        None => unreachable!(),
    }
}

/// What items carry and the linear arguments of the declared threads more.
pub(crate) fn with_threads(
    alloc: Alloc,
    terms: &mut Terms,
    program: &Program,
    globals: &List<Id>,
    carried: Carried,
) -> Result<Carried, Memory>
    requires rules { Keeps typing_rules program.now }
    requires globals { AreGlobals terms.old program.now globals.now }
    requires carried { CanCarry terms.old (2 ^ program.now.permissions) carried }
    ensures carried { IfOk result (λ c. (f : Env → List (List ℕ)) (g : Env → Store) → AreCarried terms.old (2 ^ program.now.permissions) carried f → AreStore terms.old program.now globals.now g → AreCarried terms.new (2 ^ program.now.permissions) c (λ env. f env ++ of_threads program.now (g env) program.now.threads)) }
    ensures sorted { IfOk result (λ c. CanCarry terms.new (2 ^ program.now.permissions) c) }
    ensures number { IfOk result (λ c. (n : ℕ) → HasItems carried.mask n → HasItems c.mask (n + threads_items program.now program.now.threads)) }
    ensures weighs { OnOk result ((n : ℕ) → HasItems carried.mask n → graph_weight terms.new + items_weight (2 ^ program.now.permissions) n ≤ graph_weight terms.old + threads_weight program.now program.now.threads + items_weight (2 ^ program.now.permissions) (n + threads_items program.now program.now.threads)) }
    ensures grows { Grows terms.old terms.new }
{
    let mut more = carried;
    for thread in program.threads.as_slice() {
        more = with_thread(alloc, terms, program, globals, more, thread)?;
    }
    Ok(more)
}

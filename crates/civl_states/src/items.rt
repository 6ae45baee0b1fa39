// What the linear globals carry, and the linear parameters of actions.
ghost use Rattle.std.specs.Prelude.{◌≡◌, ◌+◌, ◌≤◌, ◌^◌, ℕ, List, ◌++◌, All, map, length, slice_get, Some, IfOk, OnOk};
ghost use Rattle.civl_bits.specs.declared.value.Value.{Value};
ghost use Rattle.civl_tree.specs.declared.expr.Sort.TheVariants.{Word};
ghost use Rattle.civl_tree.specs.declared.action.Action.{Action};
ghost use Rattle.civl_tree.specs.rules.Count.{permission_limit};
ghost use Rattle.civl_tree.specs.rules.Rules.{Keeps};
ghost use Rattle.civl_tree.specs.rules.Typing.{typing_rules};
ghost use Rattle.civl_firing.specs.declared.store.Store.{Store};
ghost use Rattle.civl_meaning.specs.Permissions.{permissions_of_word, permissions_of_global, of_params};
ghost use Rattle.civl_terms.specs.Graphs.{sort_at};
ghost use Rattle.civl_terms.specs.Building.{Grows};
ghost use Rattle.civl_terms.specs.Weights.{graph_weight};
ghost use Rattle.civl_actions.specs.Scopes.{AreOf};
ghost use Rattle.civl_actions.specs.Actions.{values_at};
ghost use Rattle.civl_conditions.specs.Permissions.{in_store};
ghost use Rattle.civl_conditions.specs.Weights.{linear_globals, linear_inputs};
ghost use Rattle.civl_states.specs.formula_parts.Said.{Env};
ghost use Rattle.civl_states.specs.formula_parts.Lists.{AreSaid};
ghost use Rattle.civl_states.specs.formula_parts.Masks.{AreCarried, CanCarry};
ghost use Rattle.civl_states.specs.Stores.{AreGlobals, AreStore};
ghost use Rattle.civl_states.specs.Runs.{IsReady, IsInvoked};
ghost use Rattle.civl_states.specs.Items.{picked, is_which, of_which, number_of, HaveWidths, HasItems, items_weight, comes_in, number_coming};

use crate::formula_parts::{Carried, no_items, with_global, with_word};
use crate::invoked::Invoked;
use civl_terms::{Id, Memory, Terms};
use civl_tree::{List, Mode, Param, Program};
use std::alloc::Global as Alloc;

/// Which parameters of an action: the linear ones, or those that are lent.
#[derive(Clone, Copy)]
pub enum Which {
    Linear,
    Lent,
}

/// Whether a parameter of this mode is one of these.
fn is_which(which: Which, mode: Mode) -> bool
    ensures { result ≡ is_which which mode }
{
    match which {
        Which::Linear => !matches!(mode, Mode::Val),
        Which::Lent => matches!(mode, Mode::Lend),
    }
}

/// Of terms for the globals those of the linear ones.
fn linear_ids(alloc: Alloc, program: &Program, ids: &List<Id>) -> Result<Vec<Id>, Memory>
    ensures { IfOk result (λ kept. kept.items ≡ picked (λ g. g.linear) program.now.globals ids.now) }
{
    let globals = program.globals.as_slice();
    let ids = ids.as_slice();
    let mut kept = Vec::new(alloc);
    for (at, id) in ids.iter().enumerate() {
        match globals.get(at) {
            Some(global) if global.linear => kept.push(*id)?,
            Some(_) => {}
            None => return Ok(kept),
        }
    }
    Ok(kept)
}

/// Of terms for parameters those of these ones.
fn chosen_ids(
    alloc: Alloc,
    which: Which,
    params: &List<Param>,
    ids: &List<Id>,
) -> Result<Vec<Id>, Memory>
    ensures { IfOk result (λ kept. kept.items ≡ picked (λ p. is_which which p.mode) params.now ids.now) }
{
    let params = params.as_slice();
    let ids = ids.as_slice();
    let mut kept = Vec::new(alloc);
    for (at, id) in ids.iter().enumerate() {
        match params.get(at) {
            Some(param) if is_which(which, param.mode) => kept.push(*id)?,
            Some(_) => {}
            None => return Ok(kept),
        }
    }
    Ok(kept)
}

/// What items carry and these linear globals more.
fn with_globals(
    terms: &mut Terms,
    permissions: u32,
    carried: Carried,
    ids: &[Id],
) -> Result<Carried, Memory>
    requires ids { All (λ i. sort_at terms.old i ≡ Some (Word (2 ^ permissions))) ids.now }
    requires carried { CanCarry terms.old (2 ^ permissions) carried }
    ensures carried { IfOk result (λ c. (f : Env → List (List ℕ)) → AreCarried terms.old (2 ^ permissions) carried f → AreCarried terms.new (2 ^ permissions) c (λ env. f env ++ map permissions_of_global (values_at env terms.old ids.now))) }
    ensures sorted { IfOk result (λ c. CanCarry terms.new (2 ^ permissions) c) }
    ensures number { IfOk result (λ c. (n : ℕ) → HasItems carried.mask n → HasItems c.mask (n + length ids.now)) }
    ensures weighs { OnOk result ((n : ℕ) → HasItems carried.mask n → graph_weight terms.new + items_weight (2 ^ permissions) n ≤ graph_weight terms.old + items_weight (2 ^ permissions) (n + length ids.now)) }
    ensures grows { Grows terms.old terms.new }
{
    let mut more = carried;
    for item in ids {
        more = with_global(terms, permissions, more, *item)?;
    }
    Ok(more)
}

/// What items carry and these linear words more.
///
/// The graph's weight rises by at most what so many items more weigh.
///
/// # Errors
///
/// For want of memory; the nodes before stay.
pub fn with_words(
    terms: &mut Terms,
    permissions: u32,
    carried: Carried,
    ids: &[Id],
) -> Result<Carried, Memory>
    requires permissions { permissions ≤ permission_limit }
    requires ids { All (λ i. sort_at terms.old i ≡ Some (Word permissions)) ids.now }
    requires carried { CanCarry terms.old (2 ^ permissions) carried }
    ensures carried { IfOk result (λ c. (f : Env → List (List ℕ)) → AreCarried terms.old (2 ^ permissions) carried f → AreCarried terms.new (2 ^ permissions) c (λ env. f env ++ map permissions_of_word (values_at env terms.old ids.now))) }
    ensures sorted { IfOk result (λ c. CanCarry terms.new (2 ^ permissions) c) }
    ensures number { IfOk result (λ c. (n : ℕ) → HasItems carried.mask n → HasItems c.mask (n + length ids.now)) }
    ensures weighs { OnOk result ((n : ℕ) → HasItems carried.mask n → graph_weight terms.new + items_weight (2 ^ permissions) n ≤ graph_weight terms.old + items_weight (2 ^ permissions) (n + length ids.now)) }
    ensures grows { Grows terms.old terms.new }
{
    let mut more = carried;
    for item in ids {
        more = with_word(terms, permissions, more, *item)?;
    }
    Ok(more)
}

/// What items carry and the linear globals more.
///
/// The graph's weight rises by at most what so many items more weigh.
///
/// # Errors
///
/// For want of memory; the nodes before stay.
pub fn global_items(
    alloc: Alloc,
    terms: &mut Terms,
    program: &Program,
    carried: Carried,
    globals: &List<Id>,
) -> Result<Carried, Memory>
    requires rules { Keeps typing_rules program.now }
    requires globals { AreGlobals terms.old program.now globals.now }
    requires carried { CanCarry terms.old (2 ^ program.now.permissions) carried }
    ensures carried { IfOk result (λ c. (f : Env → List (List ℕ)) (g : Env → Store) → AreCarried terms.old (2 ^ program.now.permissions) carried f → AreStore terms.old program.now globals.now g → AreCarried terms.new (2 ^ program.now.permissions) c (λ env. f env ++ in_store program.now (g env))) }
    ensures sorted { IfOk result (λ c. CanCarry terms.new (2 ^ program.now.permissions) c) }
    ensures number { IfOk result (λ c. (n : ℕ) → HasItems carried.mask n → HasItems c.mask (n + linear_globals program.now)) }
    ensures weighs { OnOk result ((n : ℕ) → HasItems carried.mask n → graph_weight terms.new + items_weight (2 ^ program.now.permissions) n ≤ graph_weight terms.old + items_weight (2 ^ program.now.permissions) (n + linear_globals program.now)) }
    ensures grows { Grows terms.old terms.new }
{
    let linear = linear_ids(alloc, program, globals)?;
    let more = with_globals(terms, program.permissions, carried, linear.as_slice())?;
    Ok(more)
}

/// What items carry and these parameters more.
///
/// The graph's weight rises by at most what so many items more weigh.
///
/// # Errors
///
/// For want of memory; the nodes before stay.
pub fn param_items(
    alloc: Alloc,
    terms: &mut Terms,
    program: &Program,
    which: Which,
    carried: Carried,
    params: &List<Param>,
    ids: &List<Id>,
) -> Result<Carried, Memory>
    requires rules { Keeps typing_rules program.now }
    requires widths { HaveWidths program.now params.now }
    requires ids { AreOf terms.old ids.now (map (λ p. p.sort) params.now) }
    requires carried { CanCarry terms.old (2 ^ program.now.permissions) carried }
    ensures carried { IfOk result (λ c. (f : Env → List (List ℕ)) (v : Env → List Value) → AreCarried terms.old (2 ^ program.now.permissions) carried f → AreSaid terms.old ids.now (map (λ p. p.sort) params.now) v → AreCarried terms.new (2 ^ program.now.permissions) c (λ env. f env ++ of_which which params.now (v env))) }
    ensures sorted { IfOk result (λ c. CanCarry terms.new (2 ^ program.now.permissions) c) }
    ensures number { IfOk result (λ c. (n : ℕ) → HasItems carried.mask n → HasItems c.mask (n + number_of which params.now)) }
    ensures weighs { OnOk result ((n : ℕ) → HasItems carried.mask n → graph_weight terms.new + items_weight (2 ^ program.now.permissions) n ≤ graph_weight terms.old + items_weight (2 ^ program.now.permissions) (n + number_of which params.now)) }
    ensures grows { Grows terms.old terms.new }
{
    let chosen = chosen_ids(alloc, which, params, ids)?;
    let more = with_words(terms, program.permissions, carried, chosen.as_slice())?;
    Ok(more)
}

/// What items carry and the linear inputs of an action more.
///
/// The graph's weight rises by at most what so many items more weigh.
///
/// # Errors
///
/// For want of memory; the nodes before stay.
pub fn input_items(
    alloc: Alloc,
    terms: &mut Terms,
    program: &Program,
    carried: Carried,
    x: &Invoked,
) -> Result<Carried, Memory>
    requires rules { Keeps typing_rules program.now }
    requires x { IsReady terms.old program.now x.now }
    requires carried { CanCarry terms.old (2 ^ program.now.permissions) carried }
    ensures carried { IfOk result (λ c. (a : Action) (f : Env → List (List ℕ)) (i e : Env → List Value) → AreCarried terms.old (2 ^ program.now.permissions) carried f → IsInvoked terms.old program.now x.now a i e → AreCarried terms.new (2 ^ program.now.permissions) c (λ env. f env ++ of_params a.params (i env))) }
    ensures sorted { IfOk result (λ c. CanCarry terms.new (2 ^ program.now.permissions) c) }
    ensures number { IfOk result (λ c. (a : Action) (n : ℕ) → slice_get program.now.actions x.now.action ≡ Some a → HasItems carried.mask n → HasItems c.mask (n + linear_inputs a.params)) }
    ensures weighs { OnOk result ((a : Action) (n : ℕ) → slice_get program.now.actions x.now.action ≡ Some a → HasItems carried.mask n → graph_weight terms.new + items_weight (2 ^ program.now.permissions) n ≤ graph_weight terms.old + items_weight (2 ^ program.now.permissions) (n + linear_inputs a.params)) }
    ensures grows { Grows terms.old terms.new }
{
    let action = program.actions.get(x.action as usize);
    let params = &action.params;
    let more = param_items(
        alloc,
        terms,
        program,
        Which::Linear,
        carried,
        params,
        &x.inputs,
    )?;
    Ok(more)
}

/// What goes into an action: the linear globals and its linear inputs.
///
/// The graph's weight rises by at most what so many items more weigh.
///
/// # Errors
///
/// For want of memory; the nodes before stay.
pub fn incoming(
    alloc: Alloc,
    terms: &mut Terms,
    program: &Program,
    globals: &List<Id>,
    x: &Invoked,
) -> Result<Carried, Memory>
    requires rules { Keeps typing_rules program.now }
    requires globals { AreGlobals terms.old program.now globals.now }
    requires x { IsReady terms.old program.now x.now }
    ensures carried { IfOk result (λ c. (a : Action) (g : Env → Store) (i e : Env → List Value) → AreStore terms.old program.now globals.now g → IsInvoked terms.old program.now x.now a i e → AreCarried terms.new (2 ^ program.now.permissions) c (λ env. comes_in program.now a (g env) (i env))) }
    ensures sorted { IfOk result (λ c. CanCarry terms.new (2 ^ program.now.permissions) c) }
    ensures number { IfOk result (λ c. (a : Action) → slice_get program.now.actions x.now.action ≡ Some a → HasItems c.mask (number_coming program.now a)) }
    ensures weighs { OnOk result ((a : Action) → slice_get program.now.actions x.now.action ≡ Some a → graph_weight terms.new ≤ graph_weight terms.old + items_weight (2 ^ program.now.permissions) (number_coming program.now a)) }
    ensures grows { Grows terms.old terms.new }
{
    let none = no_items(terms)?;
    let stored = global_items(alloc, terms, program, none, globals)?;
    let all = input_items(alloc, terms, program, stored, x)?;
    Ok(all)
}

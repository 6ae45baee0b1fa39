// What goes into an action and what comes out of it, and whether permissions are lost.
ghost use Rattle.std.specs.Prelude.{◌≡◌, ◌+◌, ◌*◌, ◌≤◌, ◌^◌, ◌&&◌, not, ℕ, List, ◌++◌, slice_get, Some, IfOk, OnOk};
ghost use Rattle.civl_bits.specs.declared.value.Value.{Value};
ghost use Rattle.civl_tree.specs.declared.expr.Sort.TheVariants.{Bool as Truth};
ghost use Rattle.civl_tree.specs.declared.action.Action.{Action};
ghost use Rattle.civl_tree.specs.rules.Rules.{Keeps};
ghost use Rattle.civl_tree.specs.rules.Typing.{typing_rules};
ghost use Rattle.civl_firing.specs.declared.store.Store.{Store};
ghost use Rattle.civl_firing.specs.values.ActionWeights.{action_weight};
ghost use Rattle.civl_meaning.specs.Permissions.{pairwise_disjoint};
ghost use Rattle.civl_terms.specs.Graphs.{sort_at};
ghost use Rattle.civl_terms.specs.Building.{Grows};
ghost use Rattle.civl_terms.specs.Weights.{graph_weight};
ghost use Rattle.civl_actions.specs.Scopes.{AreOf};
ghost use Rattle.civl_conditions.specs.Movers as says;
ghost use Rattle.civl_conditions.specs.Permissions.{included};
ghost use Rattle.civl_conditions.specs.Weights.{lin, linear_globals, linear_inputs};
ghost use Rattle.civl_states.specs.formula_parts.Said.{Env, IsTest};
ghost use Rattle.civl_states.specs.formula_parts.Lists.{AreSaid};
ghost use Rattle.civl_states.specs.formula_parts.Masks.{AreCarried, CanCarry};
ghost use Rattle.civl_states.specs.Runs.{IsReady, IsInvoked, out_sorts};
ghost use Rattle.civl_states.specs.Stores.{AreGlobals, AreStore};
ghost use Rattle.civl_movers.specs.Runs.{AreTested, TellsOne, TellsTwo};
ghost use Rattle.civl_states.specs.Items.{HasItems, items_weight, number_coming};
ghost use Rattle.civl_movers.specs.Items.{handed_back, goes_out, number_back, number_going, IsBalance};

use civl_actions::Instance;
use civl_bits::Value as Constant;
use civl_states::formula_parts::{Carried, all_of, are_included, both, negated, no_items};
use civl_states::{Invoked, Which, global_items, incoming, input_items, param_items, run};
use civl_terms::{Id, Memory, Terms};
use civl_tree::{List, Program};
use std::alloc::Global as Alloc;

/// Whether the linear inputs of two actions and the linear globals are pairwise disjoint.
///
/// The graph's weight rises by at most four times what a program's weight counts for so many items.
///
/// # Errors
///
/// For want of memory; the nodes before stay.
pub fn apart_items(
    alloc: Alloc,
    terms: &mut Terms,
    program: &Program,
    globals: &List<Id>,
    x: &Invoked,
    y: &Invoked,
) -> Result<Id, Memory>
    requires rules { Keeps typing_rules program.now }
    requires globals { AreGlobals terms.old program.now globals.now }
    requires x { IsReady terms.old program.now x.now }
    requires y { IsReady terms.old program.now y.now }
    ensures tells { IfOk result (λ id. TellsTwo terms.old terms.new program.now globals.now x.now y.now (says.apart program.now) id) }
    ensures sorted { IfOk result (λ id. sort_at terms.new id ≡ Some Truth) }
    ensures weighs { OnOk result ((a b : Action) → slice_get program.now.actions x.now.action ≡ Some a → slice_get program.now.actions y.now.action ≡ Some b → graph_weight terms.new ≤ graph_weight terms.old + 4 * lin program.now (linear_globals program.now + linear_inputs a.params + linear_inputs b.params)) }
    ensures grows { Grows terms.old terms.new }
{
    let first = incoming(alloc, terms, program, globals, x)?;
    let both = input_items(alloc, terms, program, first, y)?;
    Ok(both.apart)
}

/// What items carry and what an action hands back more: the inputs that were lent to it, and these linear outputs.
fn back_items(
    alloc: Alloc,
    terms: &mut Terms,
    program: &Program,
    carried: Carried,
    x: &Invoked,
    outs: &List<Id>,
) -> Result<Carried, Memory>
    requires rules { Keeps typing_rules program.now }
    requires x { IsReady terms.old program.now x.now }
    requires outs { (a : Action) → slice_get program.now.actions x.now.action ≡ Some a → AreOf terms.old outs.now (out_sorts a) }
    requires carried { CanCarry terms.old (2 ^ program.now.permissions) carried }
    ensures carried { IfOk result (λ c. (a : Action) (f : Env → List (List ℕ)) (i e o : Env → List Value) → AreCarried terms.old (2 ^ program.now.permissions) carried f → IsInvoked terms.old program.now x.now a i e → AreSaid terms.old outs.now (out_sorts a) o → AreCarried terms.new (2 ^ program.now.permissions) c (λ env. f env ++ handed_back a (i env) (o env))) }
    ensures sorted { IfOk result (λ c. CanCarry terms.new (2 ^ program.now.permissions) c) }
    ensures number { IfOk result (λ c. (a : Action) (n : ℕ) → slice_get program.now.actions x.now.action ≡ Some a → HasItems carried.mask n → HasItems c.mask (n + number_back a)) }
    ensures weighs { OnOk result ((a : Action) (n : ℕ) → slice_get program.now.actions x.now.action ≡ Some a → HasItems carried.mask n → graph_weight terms.new + items_weight (2 ^ program.now.permissions) n ≤ graph_weight terms.old + items_weight (2 ^ program.now.permissions) (n + number_back a)) }
    ensures grows { Grows terms.old terms.new }
{
    let action = program.actions.get(x.action as usize);
    let params = &action.params;
    let lent = param_items(
        alloc,
        terms,
        program,
        Which::Lent,
        carried,
        params,
        &x.inputs,
    )?;
    let given = &action.outs;
    let back = param_items(alloc, terms, program, Which::Linear, lent, given, outs)?;
    Ok(back)
}

/// What goes out of an action: the linear globals after it, the inputs that were lent to it, and its linear outputs.
fn outgoing(
    alloc: Alloc,
    terms: &mut Terms,
    program: &Program,
    x: &Invoked,
    made: &Instance,
) -> Result<Carried, Memory>
    requires rules { Keeps typing_rules program.now }
    requires globals { AreGlobals terms.old program.now made.now.globals }
    requires x { IsReady terms.old program.now x.now }
    requires outs { (a : Action) → slice_get program.now.actions x.now.action ≡ Some a → AreOf terms.old made.now.outs (out_sorts a) }
    ensures carried { IfOk result (λ c. (a : Action) (g : Env → Store) (i e o : Env → List Value) → AreStore terms.old program.now made.now.globals g → IsInvoked terms.old program.now x.now a i e → AreSaid terms.old made.now.outs (out_sorts a) o → AreCarried terms.new (2 ^ program.now.permissions) c (λ env. goes_out program.now a (g env) (i env) (o env))) }
    ensures sorted { IfOk result (λ c. CanCarry terms.new (2 ^ program.now.permissions) c) }
    ensures number { IfOk result (λ c. (a : Action) → slice_get program.now.actions x.now.action ≡ Some a → HasItems c.mask (number_going program.now a)) }
    ensures weighs { OnOk result ((a : Action) → slice_get program.now.actions x.now.action ≡ Some a → graph_weight terms.new ≤ graph_weight terms.old + items_weight (2 ^ program.now.permissions) (number_going program.now a)) }
    ensures grows { Grows terms.old terms.new }
{
    let none = no_items(terms)?;
    let stored = global_items(alloc, terms, program, none, &made.globals)?;
    let all = back_items(alloc, terms, program, stored, x, &made.outs)?;
    Ok(all)
}

/// The terms of an action, with what goes into it and what goes out.
#[derive(Drop)]
pub(crate) struct Balance {
    pub coming: Carried,
    pub made: Instance,
    pub going: Carried,
}

/// The terms of an action, with what goes into it and what goes out.
fn run_with_items(
    alloc: Alloc,
    terms: &mut Terms,
    program: &Program,
    globals: &List<Id>,
    x: &Invoked,
) -> Result<Balance, Memory>
    requires rules { Keeps typing_rules program.now }
    requires globals { AreGlobals terms.old program.now globals.now }
    requires x { IsReady terms.old program.now x.now }
    ensures is { IfOk result (λ b. IsBalance terms.old terms.new program.now globals.now x.now b) }
    ensures tested { IfOk result (λ b. AreTested terms.new b.made) }
    ensures coming { IfOk result (λ b. CanCarry terms.new (2 ^ program.now.permissions) b.coming) }
    ensures going { IfOk result (λ b. CanCarry terms.new (2 ^ program.now.permissions) b.going) }
    ensures number { IfOk result (λ b. (a : Action) → slice_get program.now.actions x.now.action ≡ Some a → HasItems b.going.mask (number_going program.now a)) }
    ensures weighs { OnOk result ((a : Action) → slice_get program.now.actions x.now.action ≡ Some a → graph_weight terms.new ≤ graph_weight terms.old + items_weight (2 ^ program.now.permissions) (number_coming program.now a) + action_weight program.now a + items_weight (2 ^ program.now.permissions) (number_going program.now a)) }
    ensures grows { Grows terms.old terms.new }
{
    let coming = incoming(alloc, terms, program, globals, x)?;
    let made = run(alloc, terms, program, globals, x)?;
    let going = outgoing(alloc, terms, program, x, &made)?;
    Ok(Balance {
        coming,
        made,
        going,
    })
}

/// Whether what goes out isn't pairwise disjoint, or isn't all among what came in, by comparing both.
fn some_lost(
    terms: &mut Terms,
    permissions: u32,
    coming: Carried,
    going: Carried,
) -> Result<Id, Memory>
    requires coming { CanCarry terms.old (2 ^ permissions) coming }
    requires going { CanCarry terms.old (2 ^ permissions) going }
    ensures test { IfOk result (λ id. (f g : Env → List (List ℕ)) → AreCarried terms.old (2 ^ permissions) going f → AreCarried terms.old (2 ^ permissions) coming g → IsTest terms.new id (λ env. not (pairwise_disjoint (f env) && included (f env) (g env)))) }
    ensures sorted { IfOk result (λ id. sort_at terms.new id ≡ Some Truth) }
    ensures weighs { OnOk result (graph_weight terms.new ≤ graph_weight terms.old + 2 * 2 ^ permissions + 2) }
    ensures grows { Grows terms.old terms.new }
{
    let among = are_included(terms, permissions, going, coming)?;
    let kept = both(terms, going.apart, among)?;
    let id = negated(terms, kept)?;
    Ok(id)
}

/// Whether what goes out isn't pairwise disjoint, or isn't all among what came in. Where nothing goes out, nothing is lost.
fn are_lost(
    terms: &mut Terms,
    permissions: u32,
    coming: Carried,
    going: Carried,
) -> Result<Id, Memory>
    requires coming { CanCarry terms.old (2 ^ permissions) coming }
    requires going { CanCarry terms.old (2 ^ permissions) going }
    ensures test { IfOk result (λ id. (f g : Env → List (List ℕ)) → AreCarried terms.old (2 ^ permissions) going f → AreCarried terms.old (2 ^ permissions) coming g → IsTest terms.new id (λ env. not (pairwise_disjoint (f env) && included (f env) (g env)))) }
    ensures sorted { IfOk result (λ id. sort_at terms.new id ≡ Some Truth) }
    ensures weighs { OnOk result ((n : ℕ) → HasItems going.mask n → graph_weight terms.new ≤ graph_weight terms.old + 2 * (n * 2 ^ permissions) + 2) }
    ensures grows { Grows terms.old terms.new }
{
    match going.mask {
        None => {
            let id = terms.constant(Constant::Bool(false))?;
            Ok(id)
        }
        Some(_) => {
            let id = some_lost(terms, permissions, coming, going)?;
            Ok(id)
        }
    }
}

/// Whether what goes into an action is pairwise disjoint, its gate is true and it fires, and then what goes out isn't pairwise
/// disjoint, or isn't all among what came in.
///
/// The graph's weight rises by at most that of the action, four times what a program's weight counts for the items that come
/// in and for those that go out, and what comparing them weighs.
///
/// # Errors
///
/// For want of memory; the nodes before stay.
pub fn loses(
    alloc: Alloc,
    terms: &mut Terms,
    program: &Program,
    globals: &List<Id>,
    x: &Invoked,
) -> Result<Id, Memory>
    requires rules { Keeps typing_rules program.now }
    requires globals { AreGlobals terms.old program.now globals.now }
    requires x { IsReady terms.old program.now x.now }
    ensures tells { IfOk result (λ id. TellsOne terms.old terms.new program.now globals.now x.now (says.loses program.now) id) }
    ensures sorted { IfOk result (λ id. sort_at terms.new id ≡ Some Truth) }
    ensures weighs { OnOk result ((a : Action) → slice_get program.now.actions x.now.action ≡ Some a → graph_weight terms.new ≤ graph_weight terms.old + action_weight program.now a + 4 * lin program.now (number_coming program.now a) + 4 * lin program.now (number_going program.now a) + 2 * (number_going program.now a * 2 ^ program.now.permissions) + 6) }
    ensures grows { Grows terms.old terms.new }
{
    let items = run_with_items(alloc, terms, program, globals, x)?;
    let lost = are_lost(terms, program.permissions, items.coming, items.going)?;
    let tests = [items.coming.apart, items.made.gate, items.made.guard, lost];
    let id = all_of(terms, tests.as_slice())?;
    Ok(id)
}

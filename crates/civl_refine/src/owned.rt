// The permissions that are owned at a cut.
ghost use Rattle.std.specs.Prelude.{◌≡◌, ◌+◌, ◌*◌, ◌≤◌, ◌<◌, ◌^◌, ◌++◌, All, List, length, map, get_or, Some, IfOk, OnOk};
ghost use Rattle.civl_bits.specs.declared.value.Value.{Value};
ghost use Rattle.civl_tree.specs.declared.expr.Sort.TheVariants.{Bool as Truth, Word};
ghost use Rattle.civl_tree.specs.rules.Rules.{Keeps};
ghost use Rattle.civl_tree.specs.rules.Typing.{typing_rules};
ghost use Rattle.civl_firing.specs.declared.store.Store.{Store};
ghost use Rattle.civl_meaning.specs.Permissions.{pairwise_disjoint};
ghost use Rattle.civl_tree.specs.declared.expr.Sort.{Sort};
ghost use Rattle.civl_terms.specs.Graphs.{sort_at};
ghost use Rattle.civl_terms.specs.Building.{Grows};
ghost use Rattle.civl_terms.specs.Weights.{graph_weight};
ghost use Rattle.civl_conditions.specs.Permissions.{in_store, of_held};
ghost use Rattle.civl_conditions.specs.Weights.{lin, linear_globals};
ghost use Rattle.civl_states.specs.formula_parts.Said.{Env, IsTest};
ghost use Rattle.civl_states.specs.formula_parts.Lists.{AreSaid};
ghost use Rattle.civl_states.specs.formula_parts.Masks.{AreCarried, CanCarry};
ghost use Rattle.civl_states.specs.Items.{HasItems, items_weight};
ghost use Rattle.civl_states.specs.Stores.{AreGlobals, AreStore};

use civl_states::formula_parts::{Carried, no_items};
use civl_states::{global_items, with_words};
use civl_terms::{Id, Memory, Terms};
use civl_tree::{List, Program};
use std::alloc::Global as Alloc;

/// The terms of the locals with these numbers.
///
/// # Errors
///
/// For want of memory.
pub fn held_ids(alloc: Alloc, locals: &[Id], held: &[u32]) -> Result<Vec<Id>, Memory>
    requires { All (λ n. n < length locals.now) held.now }
    ensures { IfOk result (λ ids. ids.items ≡ map (λ n. get_or locals.now n 0) held.now) }
{
    let mut ids = Vec::new(alloc);
    for number in held {
        ids.push(locals[*number as usize])?;
    }
    Ok(ids)
}

/// What the linear globals and these held locals carry. The graph's weight rises by at most what so many items weigh.
///
/// # Errors
///
/// For want of memory; the nodes before stay.
pub fn owned_items(
    alloc: Alloc,
    terms: &mut Terms,
    program: &Program,
    globals: &List<Id>,
    locals: &List<Id>,
    held: &[u32],
) -> Result<Carried, Memory>
    requires rules { Keeps typing_rules program.now }
    requires globals { AreGlobals terms.old program.now globals.now }
    requires within { All (λ n. n < length locals.now) held.now }
    requires words { All (λ n. sort_at terms.old (get_or locals.now n 0) ≡ Some (Word program.now.permissions)) held.now }
    ensures carried { IfOk result (λ c. (ss : List Sort) (g : Env → Store) (v : Env → List Value) → AreStore terms.old program.now globals.now g → AreSaid terms.old locals.now ss v → AreCarried terms.new (2 ^ program.now.permissions) c (λ env. in_store program.now (g env) ++ of_held held.now (v env))) }
    ensures sorted { IfOk result (λ c. CanCarry terms.new (2 ^ program.now.permissions) c) }
    ensures number { IfOk result (λ c. HasItems c.mask (length held.now + linear_globals program.now)) }
    ensures grows { Grows terms.old terms.new }
    ensures weighs { OnOk result (graph_weight terms.new ≤ graph_weight terms.old + items_weight (2 ^ program.now.permissions) (length held.now + linear_globals program.now)) }
{
    let none = no_items(terms)?;
    let stored = global_items(alloc, terms, program, none, globals)?;
    let ids = held_ids(alloc, locals.as_slice(), held)?;
    let all = with_words(terms, program.permissions, stored, ids.as_slice())?;
    Ok(all)
}

/// Whether what the linear globals and these held locals carry is pairwise disjoint. The graph's weight rises by at most four
/// times what a program's weight counts for so many items.
pub(crate) fn owned_apart(
    alloc: Alloc,
    terms: &mut Terms,
    program: &Program,
    globals: &List<Id>,
    locals: &List<Id>,
    held: &[u32],
) -> Result<Id, Memory>
    requires rules { Keeps typing_rules program.now }
    requires globals { AreGlobals terms.old program.now globals.now }
    requires within { All (λ n. n < length locals.now) held.now }
    requires words { All (λ n. sort_at terms.old (get_or locals.now n 0) ≡ Some (Word program.now.permissions)) held.now }
    ensures test { IfOk result (λ id. (ss : List Sort) (g : Env → Store) (v : Env → List Value) → AreStore terms.old program.now globals.now g → AreSaid terms.old locals.now ss v → IsTest terms.new id (λ env. pairwise_disjoint (in_store program.now (g env) ++ of_held held.now (v env)))) }
    ensures sorted { IfOk result (λ id. sort_at terms.new id ≡ Some Truth) }
    ensures grows { Grows terms.old terms.new }
    ensures weighs { OnOk result (graph_weight terms.new ≤ graph_weight terms.old + 4 * lin program.now (length held.now + linear_globals program.now)) }
{
    let all = owned_items(alloc, terms, program, globals, locals, held)?;
    Ok(all.apart)
}

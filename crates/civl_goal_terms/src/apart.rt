// Whether permissions are pairwise disjoint.
ghost use Rattle.std.specs.Prelude.{◌≡◌, ◌+◌, ◌*◌, ◌≤◌, ◌<◌, ◌++◌, All, map, get_or, length, Some, IfOk, OnOk};
ghost use Rattle.civl_tree.specs.declared.expr.Sort.TheVariants.{Bool as Truth, Word};
ghost use Rattle.civl_tree.specs.rules.Rules.{Keeps};
ghost use Rattle.civl_tree.specs.rules.Typing.{typing_rules};
ghost use Rattle.civl_firing.specs.declared.store.Store.{Store};
ghost use Rattle.civl_meaning.specs.Permissions.{pairwise_disjoint, permissions_of_word};
ghost use Rattle.civl_terms.specs.Graphs.{sort_at};
ghost use Rattle.civl_terms.specs.Building.{Grows};
ghost use Rattle.civl_terms.specs.Weights.{graph_weight};
ghost use Rattle.civl_actions.specs.Actions.{values_at};
ghost use Rattle.civl_conditions.specs.Permissions.{in_store};
ghost use Rattle.civl_conditions.specs.Weights.{lin, linear_globals};
ghost use Rattle.civl_states.specs.formula_parts.Said.{Env, IsTest};
ghost use Rattle.civl_states.specs.Stores.{AreGlobals, AreStore};

use civl_states::formula_parts::no_items;
use civl_states::{global_items, with_words};
use civl_terms::{Id, Memory, Terms};
use civl_tree::{List, Program};
use std::alloc::Global as Alloc;

/// Puts the terms of the locals with these numbers behind others.
pub(crate) fn push_held(ids: &mut Vec<Id>, locals: &[Id], held: &[u32]) -> Result<(), Memory>
    requires { All (λ n. n < length locals.now) held.now }
    ensures { OnOk result (ids.new.items ≡ ids.old.items ++ map (λ n. get_or locals.now n 0) held.now) }
{
    for number in held {
        ids.push(locals[*number as usize])?;
    }
    Ok(())
}

/// Whether what the linear globals and these words carry is pairwise disjoint. The graph's weight rises by at most four times what is
/// counted for so many items.
pub(crate) fn words_apart(
    alloc: Alloc,
    terms: &mut Terms,
    program: &Program,
    globals: &List<Id>,
    words: &[Id],
) -> Result<Id, Memory>
    requires rules { Keeps typing_rules program.now }
    requires globals { AreGlobals terms.old program.now globals.now }
    requires words { All (λ i. sort_at terms.old i ≡ Some (Word program.now.permissions)) words.now }
    ensures tells { IfOk result (λ id. (g : Env → Store) → AreStore terms.old program.now globals.now g → IsTest terms.new id (λ env. pairwise_disjoint (in_store program.now (g env) ++ map permissions_of_word (values_at env terms.old words.now)))) }
    ensures sorted { IfOk result (λ id. sort_at terms.new id ≡ Some Truth) }
    ensures weighs { OnOk result (graph_weight terms.new ≤ graph_weight terms.old + 4 * lin program.now (linear_globals program.now + length words.now)) }
    ensures grows { Grows terms.old terms.new }
{
    let none = no_items(terms)?;
    let stored = global_items(alloc, terms, program, none, globals)?;
    let all = with_words(terms, program.permissions, stored, words)?;
    Ok(all.apart)
}

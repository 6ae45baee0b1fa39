// The variables of stores.
ghost use Rattle.std.specs.Prelude.{◌≡◌, ◌+◌, ◌≤◌, ◌<◌, ◌^◌, All, IsTrue, IfOk, OnOk, filter, length, map};
ghost use Rattle.civl_tree.specs.rules.Rules.{Keeps};
ghost use Rattle.civl_tree.specs.rules.Typing.{typing_rules};
ghost use Rattle.civl_firing.specs.values.Values.{is_sort};
ghost use Rattle.civl_conditions.specs.footprints.Agreement.{exists_at};
ghost use Rattle.civl_terms.specs.Building.{Grows, Lengthens};
ghost use Rattle.civl_terms.specs.Weights.{graph_weight};
ghost use Rattle.civl_actions.specs.Scopes.{AreOf};
ghost use Rattle.civl_actions.specs.Actions.{values_at};
ghost use Rattle.civl_conditions.specs.Values.{count_of, store_of, spread};
ghost use Rattle.civl_states.specs.formula_parts.Lists.{AreSaid};
ghost use Rattle.civl_states.specs.formula_parts.Given.{given, bits_of_sorts, AreVariablesOf};
ghost use Rattle.civl_states.specs.Stores.{AreStore};
ghost use Rattle.civl_states.specs.Existing.{passes, existing_sorts};
ghost use Rattle.civl_states.specs.Groups.{StandFrom};

use crate::formula_parts::variables;
use civl_conditions::exists_at;
use civl_firing::values::zero;
use civl_terms::{Id, Memory, Terms};
use civl_tree::{Global, List, Program, Sort};
use std::alloc::Global as Alloc;

/// The globals that a condition has variables for: those of a layer, those of the two layers of a step, or all.
#[derive(Clone, Copy)]
pub enum Existing {
    Layer(u32),
    Near(u32),
    All,
}

/// Whether a global is one of these.
pub(crate) fn passes(which: Existing, global: &Global) -> bool
    ensures { result ≡ passes which global.now }
{
    match which {
        Existing::Layer(layer) => exists_at(layer, global),
        Existing::Near(step) => {
            exists_at(step.saturating_sub(1), global) || exists_at(step, global)
        }
        Existing::All => true,
    }
}

/// How many globals are among these.
pub fn existing_count(program: &Program, which: Existing) -> usize
    ensures { result ≡ count_of (passes which) program.now }
{
    let mut count = 0;
    for global in program.globals.as_slice() {
        if passes(which, global) {
            count += 1;
        }
    }
    count
}

/// The terms of a store in which these globals have the given terms, in their order, and the others are zero.
fn spread(
    alloc: Alloc,
    terms: &mut Terms,
    which: Existing,
    globals: &[Global],
    given: &[Id],
) -> Result<Vec<Id>, Memory>
    requires limits { All (λ g. IsTrue (is_sort g.sort)) globals.now }
    requires given { AreOf terms.old given.now (map (λ g. g.sort) (filter (passes which) globals.now)) }
    ensures spread { IfOk result (λ ids. AreSaid terms.new ids.items (map (λ g. g.sort) globals.now) (λ env. spread (passes which) globals.now (values_at env terms.old given.now))) }
    ensures grows { Grows terms.old terms.new }
    ensures weighs { OnOk result (graph_weight terms.new ≤ graph_weight terms.old) }
{
    let mut ids = Vec::new(alloc);
    let mut at = 0;
    for global in globals {
        if passes(which, global) {
            ids.push(given[at])?;
            at += 1;
        } else {
            let id = terms.constant(zero(global.sort))?;
            ids.push(id)?;
        }
    }
    Ok(ids)
}

/// The terms of a store: variables for these globals, numbered from `first` on in the order of the text, and zeros for the others.
/// The sorts are those of all the formula's variables, in the order of their numbers.
///
/// The graph's weight rises by at most the bits of these variables.
///
/// # Errors
///
/// For want of memory; the nodes before stay.
pub fn store(
    alloc: Alloc,
    terms: &mut Terms,
    program: &Program,
    sorts: &[Sort],
    which: Existing,
    first: u32,
) -> Result<List<Id>, Memory>
    requires rules { Keeps typing_rules program.now }
    requires stand { StandFrom sorts.now first (existing_sorts which program.now) }
    requires small { length sorts.now < 2 ^ 32 }
    requires limits { All (λ s. IsTrue (is_sort s)) sorts.now }
    requires variables { AreVariablesOf terms.old sorts.now }
    ensures store { IfOk result (λ ids. AreStore terms.new program.now ids (λ env. store_of (passes which) program.now (given env first (count_of (passes which) program.now)))) }
    ensures variables { AreVariablesOf terms.new sorts.now }
    ensures lengthens { Lengthens terms.old terms.new }
    ensures weighs { OnOk result (graph_weight terms.new ≤ graph_weight terms.old + bits_of_sorts (existing_sorts which program.now)) }
{
    let count = existing_count(program, which) as u32;
    let given = variables(alloc, terms, sorts, first, count)?;
    let ids = spread(
        alloc,
        terms,
        which,
        program.globals.as_slice(),
        given.as_slice(),
    )?;
    Ok(List::from_vec(ids))
}

// Whether two stores agree on some globals.
ghost use Rattle.std.specs.Prelude.{◌≡◌, ◌+◌, ◌≤◌, Some, IfOk, OnOk};
ghost use Rattle.civl_tree.specs.declared.expr.Sort.TheVariants.{Bool as Truth};
ghost use Rattle.civl_terms.specs.Graphs.{sort_at};
ghost use Rattle.civl_terms.specs.Building.{Grows};
ghost use Rattle.civl_terms.specs.Weights.{graph_weight};
ghost use Rattle.civl_conditions.specs.footprints.Agreement.{exists_at};
ghost use Rattle.civl_states.specs.Stores.{AreGlobals};
ghost use Rattle.civl_states.specs.Items.{picked};
ghost use Rattle.civl_states.specs.Same.{TellsSame, layer_sorts, same_weight};

use crate::formula_parts::all_same;
use civl_conditions::exists_at;
use civl_terms::{Id, Memory, Terms};
use civl_tree::{List, Program};
use std::alloc::Global as Alloc;

/// Of terms for the globals those of the globals that exist in a layer.
fn existing(alloc: Alloc, program: &Program, layer: u32, ids: &List<Id>) -> Result<Vec<Id>, Memory>
    ensures { IfOk result (λ kept. kept.items ≡ picked (exists_at layer) program.now.globals ids.now) }
{
    let globals = program.globals.as_slice();
    let ids = ids.as_slice();
    let mut kept = Vec::new(alloc);
    for (at, id) in ids.iter().enumerate() {
        match globals.get(at) {
            Some(global) if exists_at(layer, global) => kept.push(*id)?,
            Some(_) => {}
            None => return Ok(kept),
        }
    }
    Ok(kept)
}

/// Whether two stores agree on the globals that exist in a layer. The graph's weight rises by at most the bits of these
/// globals and their number.
///
/// # Errors
///
/// For want of memory; the nodes before stay.
pub fn same_globals(
    alloc: Alloc,
    terms: &mut Terms,
    program: &Program,
    layer: u32,
    there: &List<Id>,
    back: &List<Id>,
) -> Result<Id, Memory>
    requires there { AreGlobals terms.old program.now there.now }
    requires back { AreGlobals terms.old program.now back.now }
    ensures tells { IfOk result (λ id. TellsSame terms.old terms.new program.now layer there.now back.now id) }
    ensures sorted { IfOk result (λ id. sort_at terms.new id ≡ Some Truth) }
    ensures weighs { OnOk result (graph_weight terms.new ≤ graph_weight terms.old + same_weight (layer_sorts program.now layer)) }
    ensures grows { Grows terms.old terms.new }
{
    let there = existing(alloc, program, layer, there)?;
    let back = existing(alloc, program, layer, back)?;
    let id = all_same(terms, there.as_slice(), back.as_slice())?;
    Ok(id)
}

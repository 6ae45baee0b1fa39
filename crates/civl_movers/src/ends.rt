// Whether two sequences of actions come to the same end.
ghost use Rattle.std.specs.Prelude.{◌≡◌, ◌+◌, ◌≤◌, length, Some, IfOk, OnOk};
ghost use Rattle.civl_tree.specs.declared.expr.Sort.TheVariants.{Bool as Truth};
ghost use Rattle.civl_terms.specs.Graphs.{sort_at};
ghost use Rattle.civl_terms.specs.Building.{Grows};
ghost use Rattle.civl_terms.specs.Weights.{graph_weight};
ghost use Rattle.civl_states.specs.formula_parts.Lists.{AreAlike, bits_at};
ghost use Rattle.civl_states.specs.Stores.{AreGlobals};
ghost use Rattle.civl_states.specs.Same.{layer_sorts, same_weight};
ghost use Rattle.civl_movers.specs.Runs.{AreTested};
ghost use Rattle.civl_movers.specs.inner.Ends.{TellsAlike};

use crate::sequence::Sequence;
use civl_states::formula_parts::{all_of, all_same};
use civl_states::same_globals;
use civl_terms::{Id, Memory, Terms};
use civl_tree::Program;
use std::alloc::Global as Alloc;

/// Whether the second action may fire first and then the first one, and both orders come to the same end and the same outputs.
pub(crate) fn end_alike(
    alloc: Alloc,
    terms: &mut Terms,
    program: &Program,
    layer: u32,
    there: &Sequence,
    back: &Sequence,
) -> Result<Id, Memory>
    requires there { AreGlobals terms.old program.now there.now.second.globals }
    requires back { AreGlobals terms.old program.now back.now.second.globals }
    requires first { AreTested terms.old back.now.first }
    requires second { AreTested terms.old back.now.second }
    requires firsts { AreAlike terms.old there.now.first.outs back.now.second.outs }
    requires seconds { AreAlike terms.old there.now.second.outs back.now.first.outs }
    ensures tells { IfOk result (λ id. TellsAlike terms.old terms.new program.now layer there.now back.now id) }
    ensures sorted { IfOk result (λ id. sort_at terms.new id ≡ Some Truth) }
    ensures weighs { OnOk result (graph_weight terms.new ≤ graph_weight terms.old + same_weight (layer_sorts program.now layer) + (bits_at terms.old there.now.first.outs + length there.now.first.outs) + (bits_at terms.old there.now.second.outs + length there.now.second.outs) + 5) }
    ensures grows { Grows terms.old terms.new }
{
    let stores = same_globals(
        alloc,
        terms,
        program,
        layer,
        &there.second.globals,
        &back.second.globals,
    )?;
    let firsts = all_same(
        terms,
        there.first.outs.as_slice(),
        back.second.outs.as_slice(),
    )?;
    let seconds = all_same(
        terms,
        there.second.outs.as_slice(),
        back.first.outs.as_slice(),
    )?;
    let tests = [back.first.guard, back.second.guard, stores, firsts, seconds];
    let id = all_of(terms, tests.as_slice())?;
    Ok(id)
}

// What is assumed where a statement stands.
ghost use Rattle.std.specs.Prelude.{◌≡◌, ◌+◌, ◌*◌, ◌≤◌, ◌&&◌, ◌++◌, [], length, Some, IfOk, OnOk};
ghost use Rattle.civl_tree.specs.declared.expr.Sort.TheVariants.{Bool as Truth};
ghost use Rattle.civl_meaning.specs.Permissions.{pairwise_disjoint};
ghost use Rattle.civl_layers.specs.Layered.{IsLayered};
ghost use Rattle.civl_terms.specs.Graphs.{sort_at};
ghost use Rattle.civl_terms.specs.Building.{Grows};
ghost use Rattle.civl_terms.specs.Weights.{graph_weight};
ghost use Rattle.civl_conditions.specs.Steps.{of_proc};
ghost use Rattle.civl_conditions.specs.Permissions.{in_store, of_held};
ghost use Rattle.civl_conditions.specs.Weights.{lin, linear_globals};
ghost use Rattle.civl_goals.specs.Outlines.{invariant_holds, note_holds};
ghost use Rattle.civl_goals.specs.Failed.{held_before, assumed};
ghost use Rattle.civl_goals.specs.Weights.{invariant_weight, note_before_weight};
ghost use Rattle.civl_goal_terms.specs.inner.Outlined.{IsOutlined};
ghost use Rattle.civl_goal_terms.specs.inner.Places.{IsAt};
ghost use Rattle.civl_goal_terms.specs.inner.Settings.{CanStand, TellsHere, frame_at};

use crate::apart::{push_held, words_apart};
use crate::holds::holds_at;
use crate::notes::note_at;
use crate::places::At;
use crate::settings::Setting;
use civl_goals::held_before;
use civl_layers::Layered;
use civl_outlines::Outline;
use civl_states::formula_parts::both;
use civl_terms::{Id, Memory, Terms};
use civl_tree::{List, Program};
use std::alloc::Global as Alloc;

/// The numbers of the locals that are held before a statement of the procedure with this number.
pub(crate) fn held_at(
    alloc: Alloc,
    src: &Layered,
    root: u32,
    number: u32,
) -> Result<List<u32>, Memory>
    ensures { IfOk result (λ numbers. numbers ≡ of_proc src.now root [] (λ proc. held_before src.now proc number)) }
{
    held_before(alloc, src, root, number)
}

/// Whether all holds and the note before the statement are true.
pub(crate) fn said_at(
    alloc: Alloc,
    terms: &mut Terms,
    program: &Program,
    outline: &Outline,
    at: &At<'_>,
    setting: &Setting,
) -> Result<Id, Memory>
    requires layered { IsLayered program.now }
    requires outlined { IsOutlined program.now outline.now }
    requires at { IsAt program.now at.now }
    requires can { CanStand terms.old program.now at.now setting.now }
    ensures tells { IfOk result (λ id. TellsHere terms.old terms.new program.now at.now setting.now (λ here. invariant_holds program.now outline.now here.store && note_holds program.now outline.now here.store (frame_at at.now here)) id) }
    ensures sorted { IfOk result (λ id. sort_at terms.new id ≡ Some Truth) }
    ensures weighs { OnOk result (graph_weight terms.new ≤ graph_weight terms.old + 2 * invariant_weight program.now outline.now + note_before_weight program.now outline.now at.now.root at.now.number + 1) }
    ensures grows { Grows terms.old terms.new }
{
    let globals = &setting.globals;
    let locals = &setting.locals;
    let holds = holds_at(terms, program, outline, globals)?;
    let note = note_at(
        alloc, terms, program, outline, at.root, at.proc, at.number, globals, locals,
    )?;
    let id = both(terms, holds, note)?;
    Ok(id)
}

/// Whether what the linear globals and the root's held locals carry is pairwise disjoint.
fn own_apart(
    alloc: Alloc,
    terms: &mut Terms,
    program: &Program,
    at: &At<'_>,
    held: &[u32],
    setting: &Setting,
) -> Result<Id, Memory>
    requires layered { IsLayered program.now }
    requires at { IsAt program.now at.now }
    requires held { held.now ≡ held_before program.now at.now.proc.now at.now.number }
    requires can { CanStand terms.old program.now at.now setting.now }
    ensures tells { IfOk result (λ id. TellsHere terms.old terms.new program.now at.now setting.now (λ here. pairwise_disjoint (in_store program.now here.store ++ of_held held.now here.locals)) id) }
    ensures sorted { IfOk result (λ id. sort_at terms.new id ≡ Some Truth) }
    ensures weighs { OnOk result (graph_weight terms.new ≤ graph_weight terms.old + 4 * lin program.now (linear_globals program.now + length held.now)) }
    ensures grows { Grows terms.old terms.new }
{
    let mut words = Vec::new(alloc);
    push_held(&mut words, setting.locals.as_slice(), held)?;
    let id = words_apart(alloc, terms, program, &setting.globals, words.as_slice())?;
    Ok(id)
}

/// Whether what is assumed there is so.
pub(crate) fn assumed_at(
    alloc: Alloc,
    terms: &mut Terms,
    program: &Program,
    outline: &Outline,
    at: &At<'_>,
    held: &[u32],
    setting: &Setting,
) -> Result<Id, Memory>
    requires layered { IsLayered program.now }
    requires outlined { IsOutlined program.now outline.now }
    requires at { IsAt program.now at.now }
    requires held { held.now ≡ held_before program.now at.now.proc.now at.now.number }
    requires can { CanStand terms.old program.now at.now setting.now }
    ensures tells { IfOk result (λ id. TellsHere terms.old terms.new program.now at.now setting.now (λ here. assumed program.now outline.now here.store (frame_at at.now here)) id) }
    ensures sorted { IfOk result (λ id. sort_at terms.new id ≡ Some Truth) }
    ensures weighs { OnOk result (graph_weight terms.new ≤ graph_weight terms.old + 2 * invariant_weight program.now outline.now + note_before_weight program.now outline.now at.now.root at.now.number + 4 * lin program.now (linear_globals program.now + length held.now) + 2) }
    ensures grows { Grows terms.old terms.new }
{
    let said = said_at(alloc, terms, program, outline, at, setting)?;
    let apart = own_apart(alloc, terms, program, at, held, setting)?;
    let id = both(terms, said, apart)?;
    Ok(id)
}

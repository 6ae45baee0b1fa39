// The first frames of procedures.
ghost use Rattle.std.specs.Prelude.{◌≡◌, ◌+◌, ◌≤◌, ◌++◌, not, List as ListOf, All, IsTrue, Some, slice_get, IfOk, OnOk};
ghost use Rattle.civl_bits.specs.declared.value.Value.{Value as Meant};
ghost use Rattle.civl_tree.specs.declared.expr.Sort.TheVariants.{Bool as Truth};
ghost use Rattle.civl_tree.specs.rules.Rules.{Keeps};
ghost use Rattle.civl_tree.specs.rules.Typing.{typing_rules};
ghost use Rattle.civl_tree.specs.rules.Uses.{param_sorts};
ghost use Rattle.civl_firing.specs.values.Values.{is_sort};
ghost use Rattle.civl_firing.specs.declared.store.Store.{Store};
ghost use Rattle.civl_firing.specs.Scope.{zeros_of_params, zeros_of_locals};
ghost use Rattle.civl_meaning.specs.Config.{frame_sorts};
ghost use Rattle.civl_meaning.specs.Change.{new_frame};
ghost use Rattle.civl_meaning.specs.Meaning.{proc_number};
ghost use Rattle.civl_layers.specs.Layered.{IsLayered};
ghost use Rattle.civl_terms.specs.Graphs.{sort_at};
ghost use Rattle.civl_terms.specs.Building.{Grows};
ghost use Rattle.civl_terms.specs.Weights.{graph_weight};
ghost use Rattle.civl_actions.specs.Scopes.{AreOf};
ghost use Rattle.civl_states.specs.formula_parts.Said.{Env, IsTest};
ghost use Rattle.civl_states.specs.formula_parts.Lists.{AreSaid};
ghost use Rattle.civl_states.specs.Stores.{AreGlobals, AreStore};
ghost use Rattle.civl_states.specs.Laying.{inner_sorts};
ghost use Rattle.civl_goals.specs.Outlines.{note_holds};
ghost use Rattle.civl_goals.specs.Weights.{first_note_weight};
ghost use Rattle.civl_goal_terms.specs.inner.Outlined.{IsOutlined};
ghost use Rattle.civl_goal_terms.specs.inner.Frames.{named_sorts, begins_astray};

use crate::notes::note_at;
use civl_bits::Value;
use civl_firing::names::proc as place_of_proc;
use civl_outlines::Outline;
use civl_states::formula_parts::negated;
use civl_states::{inner_sorts, zeros};
use civl_terms::{Id, Memory, Terms};
use civl_tree::{List, Name, Proc, Program};
use std::alloc::Global as Alloc;

/// The terms of the outputs and locals in a first frame, which are zeros.
fn inner_zeros(alloc: Alloc, terms: &mut Terms, proc: &Proc) -> Result<List<Id>, Memory>
    requires { All (λ s. IsTrue (is_sort s)) (inner_sorts proc.now) }
    ensures said { IfOk result (λ ids. AreSaid terms.new ids (inner_sorts proc.now) (λ env. zeros_of_params proc.now.outs ++ zeros_of_locals proc.now.locals)) }
    ensures grows { Grows terms.old terms.new }
    ensures weighs { OnOk result (graph_weight terms.new ≤ graph_weight terms.old) }
{
    let sorts = inner_sorts(alloc, proc)?;
    let ids = zeros(alloc, terms, sorts.as_slice())?;
    Ok(ids)
}

/// The terms of a first frame, with these for the parameters.
fn first_frame(
    alloc: Alloc,
    terms: &mut Terms,
    program: &Program,
    number: u32,
    proc: &Proc,
    args: List<Id>,
) -> Result<List<Id>, Memory>
    requires rules { Keeps typing_rules program.now }
    requires proc { slice_get program.now.procs number ≡ Some proc.now }
    requires args { AreOf terms.old args (param_sorts proc.now.params) }
    ensures said { IfOk result (λ ids. (v : Env → ListOf Meant) → AreSaid terms.old args (param_sorts proc.now.params) v → AreSaid terms.new ids (frame_sorts proc.now) (λ env. v env ++ (zeros_of_params proc.now.outs ++ zeros_of_locals proc.now.locals))) }
    ensures sorted { IfOk result (λ ids. AreOf terms.new ids (frame_sorts proc.now)) }
    ensures grows { Grows terms.old terms.new }
    ensures weighs { OnOk result (graph_weight terms.new ≤ graph_weight terms.old) }
{
    let inner = inner_zeros(alloc, terms, proc)?;
    let mut ids = args.into_vec();
    ids.extend_from_slice(inner.as_slice())?;
    Ok(List::from_vec(ids))
}

/// Whether the first note of this procedure isn't true, where it is called with these arguments.
fn first_note(
    alloc: Alloc,
    terms: &mut Terms,
    program: &Program,
    outline: &Outline,
    number: u32,
    proc: &Proc,
    globals: &List<Id>,
    args: List<Id>,
) -> Result<Id, Memory>
    requires layered { IsLayered program.now }
    requires outlined { IsOutlined program.now outline.now }
    requires proc { slice_get program.now.procs number ≡ Some proc.now }
    requires globals { AreGlobals terms.old program.now globals.now }
    requires args { AreOf terms.old args (param_sorts proc.now.params) }
    ensures tells { IfOk result (λ id. (g : Env → Store) (v : Env → ListOf Meant) → AreStore terms.old program.now globals.now g → AreSaid terms.old args (param_sorts proc.now.params) v → IsTest terms.new id (λ env. not (note_holds program.now outline.now (g env) (new_frame number proc.now (v env))))) }
    ensures sorted { IfOk result (λ id. sort_at terms.new id ≡ Some Truth) }
    ensures grows { Grows terms.old terms.new }
    ensures weighs { OnOk result (graph_weight terms.new ≤ graph_weight terms.old + first_note_weight program.now outline.now number + 1) }
{
    let locals = first_frame(alloc, terms, program, number, proc, args)?;
    let note = note_at(
        alloc, terms, program, outline, number, proc, 0, globals, &locals,
    )?;
    let id = negated(terms, note)?;
    Ok(id)
}

/// Whether the procedure of this name, called with these arguments, begins where its first note isn't true.
pub(crate) fn begins_astray(
    alloc: Alloc,
    terms: &mut Terms,
    program: &Program,
    outline: &Outline,
    name: &Name,
    globals: &List<Id>,
    args: List<Id>,
) -> Result<Id, Memory>
    requires layered { IsLayered program.now }
    requires outlined { IsOutlined program.now outline.now }
    requires globals { AreGlobals terms.old program.now globals.now }
    requires args { AreOf terms.old args (named_sorts program.now name.now) }
    ensures tells { IfOk result (λ id. (g : Env → Store) (v : Env → ListOf Meant) → AreStore terms.old program.now globals.now g → AreSaid terms.old args (named_sorts program.now name.now) v → IsTest terms.new id (λ env. begins_astray program.now outline.now name.now (g env) (v env))) }
    ensures sorted { IfOk result (λ id. sort_at terms.new id ≡ Some Truth) }
    ensures grows { Grows terms.old terms.new }
    ensures weighs { OnOk result (graph_weight terms.new ≤ graph_weight terms.old + first_note_weight program.now outline.now (proc_number program.now name.now) + 1) }
{
    let procs = program.procs.as_slice();
    let number = place_of_proc(procs, name);
    match procs.get(number) {
        Some(proc) => {
            let place = number as u32;
            let id = first_note(alloc, terms, program, outline, place, proc, globals, args)?;
            Ok(id)
        }
        None => {
            let id = terms.constant(Value::Bool(false))?;
            Ok(id)
        }
    }
}

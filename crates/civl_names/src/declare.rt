// The first item in which a name stands twice (E10), and the sets of the names that are declared.
ghost use Rattle.std.specs.Prelude.{◌≡◌, ◌+◌, ◌<◌, ◌^◌, [], map, take, length, IfOk};
ghost use Rattle.civl_tree.specs.Numbering.{statements_of};
ghost use Rattle.civl_tree.specs.rules.Names.{global_names, action_names, proc_names};
ghost use Rattle.civl_tree.specs.rules.Codes.{E10};
ghost use Rattle.civl_tree.specs.rules.Rules.{global_places, action_places, proc_places, refusal_at, first_of};
ghost use Rattle.civl_tree.specs.rules.Typing.{twice_rule};
ghost use Rattle.civl_tree.specs.Numbered.{IsNumbered};
ghost use Rattle.civl_names.specs.inner.NameSets.{names_in, first_twice, Declares};

use crate::name_set::NameSet;
use crate::twice::{action_twice, first_doubled, proc_twice};
use civl_tree::{Action, Memory, Proc, Program, Refusal};
use std::alloc::Global;

fn twice_at(item: u32, statement: u32) -> Refusal
    ensures { result ≡ refusal_at E10 (record { item = item; statement = statement }) }
{
    Refusal {
        code: 10,
        item,
        statement,
    }
}

/// The refusal of the first global with the name of an earlier one. Where there is none, the set, which is empty at
/// first, has the names of all.
pub(crate) fn declare_globals<'a>(
    globals: &mut NameSet<'a>,
    program: &'a Program,
) -> Result<Option<Refusal>, Memory>
    requires numbered { IsNumbered program.now }
    requires empty { names_in globals.old ≡ [] }
    ensures { IfOk result (λ first. Declares first (first_twice (global_places twice_rule program.now) 0 program.now.globals) (global_names program.now.globals) (names_in globals.new)) }
{
    let items = program.globals.as_slice();
    for (place, global) in items.iter().enumerate() {
        if globals.add(&global.name)? {
            return Ok(Some(twice_at(place as u32, 0)));
        }
    }
    Ok(None)
}

/// The refusal of an action, where these are the names of the globals and of the actions before it.
fn action_refusal(
    alloc: Global,
    program: &Program,
    globals: &NameSet,
    actions: &NameSet,
    place: usize,
    action: &Action,
) -> Result<Option<Refusal>, Memory>
    requires numbered { IsNumbered program.now }
    requires place { place < length program.now.actions }
    requires globals { names_in globals.now ≡ global_names program.now.globals }
    requires actions { names_in actions.now ≡ action_names (take place program.now.actions) }
    ensures { IfOk result (λ first. first ≡ first_of (map (refusal_at E10) (action_places twice_rule program.now place action.now))) }
{
    let item = (program.globals.len() + 1 + program.invariants.len() + place) as u32;
    if action_twice(alloc, globals, actions, action)? {
        Ok(Some(twice_at(item, 0)))
    } else {
        Ok(None)
    }
}

/// The refusal of the first action that breaks E10, and the set of the names of all where none does.
pub(crate) fn declare_actions<'a>(
    alloc: Global,
    globals: &NameSet,
    actions: &mut NameSet<'a>,
    program: &'a Program,
) -> Result<Option<Refusal>, Memory>
    requires numbered { IsNumbered program.now }
    requires globals { names_in globals.now ≡ global_names program.now.globals }
    requires empty { names_in actions.old ≡ [] }
    ensures { IfOk result (λ first. Declares first (first_twice (action_places twice_rule program.now) 0 program.now.actions) (action_names program.now.actions) (names_in actions.new)) }
{
    let items = program.actions.as_slice();
    for (place, action) in items.iter().enumerate() {
        if let Some(refusal) = action_refusal(alloc, program, globals, actions, place, action)? {
            return Ok(Some(refusal));
        }
        actions.add(&action.name)?;
    }
    Ok(None)
}

/// The refusal of a procedure: of itself, where these are the names of the globals, the actions and the procedures
/// before it, or of the first call that names a result twice.
#[tactic(auto, using(crate::proofs::walks::Placing::of_procs))]
fn proc_refusal(
    alloc: Global,
    program: &Program,
    globals: &NameSet,
    actions: &NameSet,
    procs: &NameSet,
    place: usize,
    proc: &Proc,
) -> Result<Option<Refusal>, Memory>
    requires numbered { IsNumbered program.now }
    requires place { place < length program.now.procs }
    requires body { length (statements_of proc.now.body) < 2 ^ 32 }
    requires globals { names_in globals.now ≡ global_names program.now.globals }
    requires actions { names_in actions.now ≡ action_names program.now.actions }
    requires procs { names_in procs.now ≡ proc_names (take place program.now.procs) }
    ensures { IfOk result (λ first. first ≡ first_of (map (refusal_at E10) (proc_places twice_rule program.now place proc.now))) }
{
    let item = (program.globals.len()
        + 1
        + program.invariants.len()
        + program.actions.len()
        + place) as u32;
    if proc_twice(alloc, globals, actions, procs, proc)? {
        return Ok(Some(twice_at(item, 0)));
    }
    match first_doubled(alloc, &proc.body)? {
        Some(statement) => Ok(Some(twice_at(item, statement))),
        None => Ok(None),
    }
}

/// The refusal of the first procedure that breaks E10, and the set of the names of all where none does.
pub(crate) fn declare_procs<'a>(
    alloc: Global,
    globals: &NameSet,
    actions: &NameSet,
    procs: &mut NameSet<'a>,
    program: &'a Program,
) -> Result<Option<Refusal>, Memory>
    requires numbered { IsNumbered program.now }
    requires globals { names_in globals.now ≡ global_names program.now.globals }
    requires actions { names_in actions.now ≡ action_names program.now.actions }
    requires empty { names_in procs.old ≡ [] }
    ensures { IfOk result (λ first. Declares first (first_twice (proc_places twice_rule program.now) 0 program.now.procs) (proc_names program.now.procs) (names_in procs.new)) }
{
    let items = program.procs.as_slice();
    for (place, proc) in items.iter().enumerate() {
        if let Some(refusal) = proc_refusal(alloc, program, globals, actions, procs, place, proc)? {
            return Ok(Some(refusal));
        }
        procs.add(&proc.name)?;
    }
    Ok(None)
}

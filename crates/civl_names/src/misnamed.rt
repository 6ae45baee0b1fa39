// The first place at which a rule on names is broken.
ghost use Rattle.std.specs.Prelude.{◌≡◌, [], ◌∷◌, IfOk};
ghost use Rattle.civl_tree.specs.Numbered.{IsNumbered};
ghost use Rattle.civl_tree.specs.rules.Broken.{IsRefusal};
ghost use Rattle.civl_tree.specs.rules.Names.{global_names, action_names, proc_names};
ghost use Rattle.civl_tree.specs.rules.Rules.{refusals_of, refusal_by, first_of};
ghost use Rattle.civl_tree.specs.rules.Typing.{twice_rule, unknown_rule};
ghost use Rattle.civl_names.specs.inner.NameSets.{names_in};
ghost use Rattle.civl_names.specs.inner.Strange.{declared_in, first_strange};

use crate::declare::{declare_actions, declare_globals, declare_procs};
use crate::known::{Scope, all_known};
use crate::name_set::NameSet;
use crate::unknown::{Sets, first_item, unknown_at};
use crate::walks::first_in_procs;
use civl_tree::{Memory, Program, Refusal};
use std::alloc::Global;

/// The refusal of the first item in which there is a name that isn't one of these, as what is needed.
fn first_strange(alloc: Global, sets: &Sets, program: &Program) -> Result<Option<Refusal>, Memory>
    requires { IsNumbered program.now }
    ensures { IfOk result (λ first. first ≡ first_strange (declared_in sets.now) program.now) }
{
    let init = program.globals.len();
    if !all_known(&Scope::Globals(sets.globals), &program.init) {
        return Ok(Some(unknown_at(init as u32)));
    }
    let invariants = init + 1;
    if let Some(refusal) = first_item(alloc, sets, invariants, program.invariants.as_slice())? {
        return Ok(Some(refusal));
    }
    let actions = invariants + program.invariants.len();
    if let Some(refusal) = first_item(alloc, sets, actions, program.actions.as_slice())? {
        return Ok(Some(refusal));
    }
    if let Some(refusal) = first_in_procs(alloc, sets, program)? {
        return Ok(Some(refusal));
    }
    let threads = actions + program.actions.len() + program.procs.len();
    let last = first_item(alloc, sets, threads, program.threads.as_slice())?;
    Ok(last)
}

/// The refusal of the first place at which E11 is broken, where these are the names that the program declares.
fn first_unknown(alloc: Global, sets: &Sets, program: &Program) -> Result<Option<Refusal>, Memory>
    requires numbered { IsNumbered program.now }
    requires globals { names_in sets.now.globals.now ≡ global_names program.now.globals }
    requires actions { names_in sets.now.actions.now ≡ action_names program.now.actions }
    requires procs { names_in sets.now.procs.now ≡ proc_names program.now.procs }
    ensures { IfOk result (λ first. first ≡ first_of (refusals_of unknown_rule program.now)) }
{
    let first = first_strange(alloc, sets, program)?;
    Ok(first)
}

/// The refusal of the first place at which E10 is broken, else of the first at which E11 is. The sets, which are empty at
/// first, take the names that the program declares.
#[tactic(auto, using(crate::proofs::Answering::in_parts))]
fn first_by_sets<'a>(
    alloc: Global,
    globals: &mut NameSet<'a>,
    actions: &mut NameSet<'a>,
    procs: &mut NameSet<'a>,
    program: &'a Program,
) -> Result<Option<Refusal>, Memory>
    requires numbered { IsNumbered program.now }
    requires globals { names_in globals.old ≡ [] }
    requires actions { names_in actions.old ≡ [] }
    requires procs { names_in procs.old ≡ [] }
    ensures { IfOk result (λ refusal. refusal ≡ refusal_by (twice_rule ∷ unknown_rule ∷ []) program.now) }
{
    if let Some(refusal) = declare_globals(globals, program)? {
        return Ok(Some(refusal));
    }
    if let Some(refusal) = declare_actions(alloc, globals, actions, program)? {
        return Ok(Some(refusal));
    }
    if let Some(refusal) = declare_procs(alloc, globals, actions, procs, program)? {
        return Ok(Some(refusal));
    }
    let sets = Sets {
        globals,
        actions,
        procs,
    };
    first_unknown(alloc, &sets, program)
}

/// The refusal of the first place at which E10 is broken, else of the first at which E11 is.
fn first_of_both(alloc: Global, program: &Program) -> Result<Option<Refusal>, Memory>
    requires { IsNumbered program.now }
    ensures { IfOk result (λ refusal. refusal ≡ refusal_by (twice_rule ∷ unknown_rule ∷ []) program.now) }
{
    let mut globals = NameSet::new(alloc);
    let mut actions = NameSet::new(alloc);
    let mut procs = NameSet::new(alloc);
    first_by_sets(alloc, &mut globals, &mut actions, &mut procs, program)
}

/// The first place, by item and statement, at which a name stands twice (E10), else the first at which a name isn't in scope
/// as what is needed (E11), or `None` where there is neither. The program has fewer than 2^32 items, and each procedure fewer
/// than 2^32 statements. The names that the program declares are kept in sets, so the time grows with the size of the program.
///
/// # Errors
///
/// For want of memory, which is taken in proportion to the number of the names that are declared, and of the statements of
/// a procedure.
#[tactic(auto, using(crate::proofs::Answering::is_answer))]
pub fn first_misnamed(alloc: Global, program: &Program) -> Result<Option<Refusal>, Memory>
    requires { IsNumbered program.now }
    ensures same { IfOk result (λ refusal. refusal ≡ refusal_by (twice_rule ∷ unknown_rule ∷ []) program.now) }
    ensures first { IfOk result (λ refusal. IsRefusal (twice_rule ∷ unknown_rule ∷ []) program.now refusal) }
{
    first_of_both(alloc, program)
}

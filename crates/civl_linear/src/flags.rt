// Sets of held names, as flags.
ghost use Rattle.std.specs.Prelude.{◌≡◌, ◌++◌, map, false, IfOk, OnOk};
ghost use Rattle.civl_linear.specs.Held.{both_held, covers, entry_held, exit_owed};
ghost use Rattle.civl_linear.specs.Modes.{is_passed, is_lent, is_given};

use crate::modes::{is_given, is_lent, is_passed};
use civl_tree::{List, Local, Memory, Proc};
use std::alloc::Global;

/// A copy of these flags.
pub(crate) fn copied(alloc: Global, held: &List<bool>) -> Result<List<bool>, Memory>
    ensures { IfOk result (λ copy. copy ≡ held.now) }
{
    Ok(List::from_vec(held.as_slice().to_vec(alloc)?))
}

/// What is held in both.
pub(crate) fn both_held(
    alloc: Global,
    first: &List<bool>,
    second: &List<bool>,
) -> Result<List<bool>, Memory>
    ensures { IfOk result (λ both. both ≡ both_held first.now second.now) }
{
    let others = second.as_slice();
    let mut both = List::new(alloc);
    for (at, one) in first.as_slice().iter().enumerate() {
        match others.get(at) {
            Some(other) => both.push(*one && *other)?,
            None => return Ok(both),
        }
    }
    Ok(both)
}

/// Whether all that is held in the first is held in the second.
pub(crate) fn covers(first: &List<bool>, second: &List<bool>) -> bool
    ensures { result ≡ covers first.now second.now }
{
    let others = second.as_slice();
    for (at, one) in first.as_slice().iter().enumerate() {
        match others.get(at) {
            Some(other) => {
                if *one && !*other {
                    return false;
                }
            }
            None => return true,
        }
    }
    true
}

/// Adds a flag that is down for each of these locals.
fn add_locals(flags: &mut List<bool>, locals: &[Local]) -> Result<(), Memory>
    ensures { OnOk result (flags.new ≡ flags.old ++ map (λ declared. false) locals.now) }
{
    for _local in locals {
        flags.push(false)?;
    }
    Ok(())
}

/// What is held at the entry of a procedure.
pub(crate) fn entry_held(alloc: Global, proc: &Proc) -> Result<List<bool>, Memory>
    ensures { IfOk result (λ held. held ≡ entry_held proc.now) }
{
    let mut held = List::new(alloc);
    for param in proc.params.as_slice() {
        held.push(is_passed(param.mode))?;
    }
    for _out in proc.outs.as_slice() {
        held.push(false)?;
    }
    add_locals(&mut held, proc.locals.as_slice())?;
    Ok(held)
}

/// What has to be held at the exit of a procedure.
pub(crate) fn exit_owed(alloc: Global, proc: &Proc) -> Result<List<bool>, Memory>
    ensures { IfOk result (λ owed. owed ≡ exit_owed proc.now) }
{
    let mut owed = List::new(alloc);
    for param in proc.params.as_slice() {
        owed.push(is_lent(param.mode))?;
    }
    for out in proc.outs.as_slice() {
        owed.push(is_given(out.mode))?;
    }
    add_locals(&mut owed, proc.locals.as_slice())?;
    Ok(owed)
}

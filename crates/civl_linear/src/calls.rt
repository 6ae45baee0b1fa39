// What calls and spawns do to what is held.
ghost use Rattle.std.specs.Prelude.{◌≡◌, map, IfOk};
ghost use Rattle.civl_linear.specs.Modes.{passed_names, given_names};
ghost use Rattle.civl_linear.specs.inner.Wants.{wants};
ghost use Rattle.civl_linear.specs.Held.{without_names, with_names, call_held, spawn_held};
ghost use Rattle.civl_types.specs.Views.{signature_of};

use crate::flags::copied;
use crate::modes::Want;
use crate::passing::{is_given_name, is_passed_name};
use civl_tree::{Expr, List, Memory, Name, Param};
use civl_types::names::Signature;
use std::alloc::Global;

/// What is held without the names that stand for the parameters which are looked at.
pub(crate) fn without_names(
    alloc: Global,
    want: Want,
    params: &[Param],
    args: &[Expr],
    names: &[&Name],
    held: &List<bool>,
) -> Result<List<bool>, Memory>
    ensures { IfOk result (λ left. left ≡ without_names (passed_names (wants want) params.now args.now) (map (λ name. name.now) names.now) held.now) }
{
    let flags = held.as_slice();
    let mut left = List::new(alloc);
    for (at, name) in names.iter().enumerate() {
        match flags.get(at) {
            Some(is_held) => {
                let stays = *is_held && !is_passed_name(want, params, args, name);
                left.push(stays)?;
            }
            None => return Ok(left),
        }
    }
    Ok(left)
}

/// What is held, and the results to which linear values are given.
fn with_names(
    alloc: Global,
    outs: &[Param],
    results: &[Name],
    names: &[&Name],
    held: &List<bool>,
) -> Result<List<bool>, Memory>
    ensures { IfOk result (λ all. all ≡ with_names (given_names outs.now results.now) (map (λ name. name.now) names.now) held.now) }
{
    let flags = held.as_slice();
    let mut all = List::new(alloc);
    for (at, name) in names.iter().enumerate() {
        match flags.get(at) {
            Some(is_held) => {
                let comes = *is_held || is_given_name(outs, results, name);
                all.push(comes)?;
            }
            None => return Ok(all),
        }
    }
    Ok(all)
}

/// What is held behind a call.
pub(crate) fn call_held(
    alloc: Global,
    names: &[&Name],
    signature: Option<Signature>,
    args: &[Expr],
    results: &[Name],
    held: &List<bool>,
) -> Result<List<bool>, Memory>
    ensures { IfOk result (λ after. after ≡ call_held (map (λ name. name.now) names.now) (signature_of signature.entry) args.now results.now held.now) }
{
    match signature {
        Some(signature) => {
            let left = without_names(alloc, Want::Taken, signature.params, args, names, held)?;
            with_names(alloc, signature.outs, results, names, &left)
        }
        None => { copied(alloc, held) }
    }
}

/// What is held behind a spawn.
pub(crate) fn spawn_held(
    alloc: Global,
    names: &[&Name],
    signature: Option<Signature>,
    args: &[Expr],
    held: &List<bool>,
) -> Result<List<bool>, Memory>
    ensures { IfOk result (λ after. after ≡ spawn_held (map (λ name. name.now) names.now) (signature_of signature.entry) args.now held.now) }
{
    match signature {
        Some(signature) => {
            without_names(alloc, Want::Passed, signature.params, args, names, held)
        }
        None => { copied(alloc, held) }
    }
}

// The names of a procedure.
ghost use Rattle.std.specs.Prelude.{◌≡◌, ◌&&◌, map, IfOk};
ghost use Rattle.civl_tree.specs.rules.Names.{names_in_proc, same_name};
ghost use Rattle.civl_linear.specs.Held.{holds};
ghost use Rattle.civl_linear.specs.Places.{passes_in, gives_out, is_linear_local, may_pass, is_param, may_get};

use crate::modes::{is_given, is_passed};
use civl_tree::{List, Memory, Name, Param, Proc};
use civl_types::names::same_name;
use std::alloc::Global;

/// The names of a procedure: its parameters, outputs and locals, in this order.
///
/// # Errors
///
/// For want of memory.
pub fn names_in_proc<'a>(alloc: Global, proc: &'a Proc) -> Result<Vec<&'a Name>, Memory>
    ensures { IfOk result (λ names. map (λ name. name.now) names.items ≡ names_in_proc proc.now) }
{
    let mut names = Vec::new(alloc);
    for param in proc.params.as_slice() {
        names.push(&param.name)?;
    }
    for out in proc.outs.as_slice() {
        names.push(&out.name)?;
    }
    for local in proc.locals.as_slice() {
        names.push(&local.name)?;
    }
    Ok(names)
}

/// Whether the name is held, where these are the names with their flags.
pub(crate) fn holds(names: &[&Name], held: &List<bool>, name: &Name) -> bool
    ensures { result ≡ holds (map (λ name. name.now) names.now) held.now name.now }
{
    let flags = held.as_slice();
    for (at, first) in names.iter().enumerate() {
        match flags.get(at) {
            Some(is_held) => {
                if *is_held && same_name(first, name) {
                    return true;
                }
            }
            None => return false,
        }
    }
    false
}

fn passes_in(params: &[Param], name: &Name) -> bool
    ensures { result ≡ passes_in params.now name.now }
{
    for param in params {
        if is_passed(param.mode) && same_name(&param.name, name) {
            return true;
        }
    }
    false
}

fn gives_out(outs: &[Param], name: &Name) -> bool
    ensures { result ≡ gives_out outs.now name.now }
{
    for out in outs {
        if is_given(out.mode) && same_name(&out.name, name) {
            return true;
        }
    }
    false
}

fn is_linear_local(proc: &Proc, name: &Name) -> bool
    ensures { result ≡ is_linear_local proc.now name.now }
{
    for local in proc.locals.as_slice() {
        if local.linear && same_name(&local.name, name) {
            return true;
        }
    }
    false
}

/// Whether the name may stand for a lend or take parameter.
pub(crate) fn may_pass(proc: &Proc, name: &Name) -> bool
    ensures { result ≡ may_pass proc.now name.now }
{
    is_linear_local(proc, name) || passes_in(proc.params.as_slice(), name)
}

/// Whether the name is a parameter.
pub(crate) fn is_param(proc: &Proc, name: &Name) -> bool
    ensures { result ≡ is_param proc.now name.now }
{
    for param in proc.params.as_slice() {
        if same_name(name, &param.name) {
            return true;
        }
    }
    false
}

/// Whether the name may get a linear value.
pub(crate) fn may_get(proc: &Proc, name: &Name) -> bool
    ensures { result ≡ may_get proc.now name.now }
{
    is_linear_local(proc, name) || gives_out(proc.outs.as_slice(), name)
}

// Procedures whose signature isn't that of their action (E34).
ghost use Rattle.std.specs.Prelude.{◌≡◌, not, ◌&&◌};
ghost use Rattle.civl_tree.specs.rules.Names.{action_named};
ghost use Rattle.civl_tree.specs.rules.Sorts.{same_sort};
ghost use Rattle.civl_tree.specs.rules.Signature.{same_mode, same_params, signature_differs, proc_signature_differs};

use civl_tree::{Action, Mode, Param, Proc, Program, Sort};
use civl_types::names::action_named;

fn same_mode(first: Mode, second: Mode) -> bool
    ensures { result ≡ same_mode first second }
{
    match first {
        Mode::Val => matches!(second, Mode::Val),
        Mode::Lend => matches!(second, Mode::Lend),
        Mode::Take => matches!(second, Mode::Take),
        Mode::Give => matches!(second, Mode::Give),
    }
}

fn same_sort(first: Sort, second: Sort) -> bool
    ensures { result ≡ same_sort first second }
{
    match first {
        Sort::Bool => matches!(second, Sort::Bool),
        Sort::Word(width) => match second {
            Sort::Word(other) => width == other,
            Sort::Bool | Sort::Row(_, _) => false,
        },
        Sort::Row(index, width) => match second {
            Sort::Row(other_index, other) => index == other_index && width == other,
            Sort::Bool | Sort::Word(_) => false,
        },
    }
}

fn same_param(first: &Param, second: &Param) -> bool
    ensures { result ≡ (same_mode first.now.mode second.now.mode && same_sort first.now.sort second.now.sort) }
{
    same_mode(first.mode, second.mode) && same_sort(first.sort, second.sort)
}

fn same_params(first: &[Param], second: &[Param]) -> bool
    ensures { result ≡ same_params first.now second.now }
{
    if first.len() != second.len() {
        return false;
    }
    for at in 0..first.len() {
        if !same_param(&first[at], &second[at]) {
            return false;
        }
    }
    true
}

fn signature_differs(proc: &Proc, action: &Action) -> bool
    ensures { result ≡ not (same_params proc.now.params action.now.params && same_params proc.now.outs action.now.outs) }
{
    !(same_params(proc.params.as_slice(), action.params.as_slice())
        && same_params(proc.outs.as_slice(), action.outs.as_slice()))
}

/// Whether a procedure breaks E34.
pub(crate) fn proc_signature_differs(program: &Program, proc: &Proc) -> bool
    ensures { result ≡ proc_signature_differs program.now proc.now }
{
    match &proc.refines {
        Some(refines) => match action_named(program, &refines.action) {
            Some(action) => signature_differs(proc, action),
            None => false,
        },
        None => false,
    }
}

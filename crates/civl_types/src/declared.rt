// The sorts of declared names: their widths (E20) and indices (E22).
ghost use Rattle.std.specs.Prelude.{◌≡◌, ◌^◌};
ghost use Rattle.std.specs.List.{list_any};
ghost use Rattle.civl_tree.specs.declared.expr.Sort.TheVariants.{Word as WordOf};
ghost use Rattle.civl_tree.specs.rules.Sorts.{same_sort};
ghost use Rattle.civl_tree.specs.rules.Width.{sort_width_fits, global_width, is_linear, linear_width, param_width, choice_width, local_width, action_width, proc_width};
ghost use Rattle.civl_tree.specs.rules.Index.{sort_index, action_index, proc_index};

use crate::exprs::{is_index, is_width, power};
use crate::rule::TypingRule;
use crate::uses::{action_uses_break, with_uses_break};
use civl_tree::{Action, Choice, Global, Local, Mode, Param, Proc, Program, Sort};

fn sort_width_fits(sort: Sort) -> bool
    ensures { result ≡ sort_width_fits sort }
{
    match sort {
        Sort::Bool => true,
        Sort::Word(width) => is_width(width),
        Sort::Row(_, width) => is_width(width),
    }
}

/// Whether a sort is that of a word.
fn is_word_of(sort: Sort, width: u32) -> bool
    ensures { result ≡ same_sort sort (WordOf width) }
{
    match sort {
        Sort::Word(other) => other == width,
        Sort::Bool | Sort::Row(_, _) => false,
    }
}

/// Whether a sort is that of a word with one bit for each permission.
#[tactic(auto, using(crate::proofs::Powers::large_power))]
fn is_permission_set(sort: Sort, permissions: u32) -> bool
    ensures { result ≡ same_sort sort (WordOf (2 ^ permissions)) }
{
    match sort {
        Sort::Word(width) => {
            if permissions < 32 {
                u64::from(width) == power(permissions)
            } else {
                false
            }
        }
        Sort::Bool | Sort::Row(_, _) => false,
    }
}

/// Whether a global breaks E20.
pub(crate) fn global_width(program: &Program, global: &Global) -> bool
    ensures { result ≡ global_width program.now global.now }
{
    !sort_width_fits(global.sort)
        || global.linear && !is_permission_set(global.sort, program.permissions)
}

/// Whether values of a mode are linear.
pub fn is_linear(mode: Mode) -> bool
    ensures { result ≡ is_linear mode }
{
    match mode {
        Mode::Val => false,
        Mode::Lend | Mode::Take | Mode::Give => true,
    }
}

fn linear_width(program: &Program, linear: bool, sort: Sort) -> bool
    ensures { result ≡ linear_width program.now linear sort }
{
    !sort_width_fits(sort) || linear && !is_word_of(sort, program.permissions)
}

fn params_width(program: &Program, params: &[Param]) -> bool
    ensures { result ≡ list_any (param_width program.now) params.now }
{
    params.iter().any(|param| linear_width(program, is_linear(param.mode), param.sort))
}

fn choices_width(choices: &[Choice]) -> bool
    ensures { result ≡ list_any choice_width choices.now }
{
    choices.iter().any(|choice| !sort_width_fits(choice.sort))
}

fn locals_width(program: &Program, locals: &[Local]) -> bool
    ensures { result ≡ list_any (local_width program.now) locals.now }
{
    locals
        .iter()
        .any(|local| linear_width(program, local.linear, local.sort))
}

/// Whether an action breaks E20.
#[tactic(auto, using(civl_names::proofs::Lists::any_append))]
pub(crate) fn action_width(program: &Program, action: &Action) -> bool
    ensures { result ≡ action_width program.now action.now }
{
    params_width(program, action.params.as_slice())
        || params_width(program, action.outs.as_slice())
        || choices_width(action.choices.as_slice())
        || action_uses_break(TypingRule::Width, program, action)
}

/// Whether a procedure breaks E20, outside its statements.
#[tactic(auto, using(civl_names::proofs::Lists::any_append))]
pub(crate) fn proc_width(program: &Program, proc: &Proc) -> bool
    ensures { result ≡ proc_width program.now proc.now }
{
    params_width(program, proc.params.as_slice())
        || params_width(program, proc.outs.as_slice())
        || locals_width(program, proc.locals.as_slice())
        || with_uses_break(TypingRule::Width, program, proc)
}

/// Whether a sort is that of a row whose index is out of range.
pub(crate) fn sort_index(sort: Sort) -> bool
    ensures { result ≡ sort_index sort }
{
    match sort {
        Sort::Bool | Sort::Word(_) => false,
        Sort::Row(index, _) => !is_index(index),
    }
}

fn params_index(params: &[Param]) -> bool
    ensures { result ≡ list_any (λ param. sort_index param.sort) params.now }
{
    params.iter().any(|param| sort_index(param.sort))
}

fn choices_index(choices: &[Choice]) -> bool
    ensures { result ≡ list_any (λ choice. sort_index choice.sort) choices.now }
{
    choices.iter().any(|choice| sort_index(choice.sort))
}

fn locals_index(locals: &[Local]) -> bool
    ensures { result ≡ list_any (λ declared. sort_index declared.sort) locals.now }
{
    locals.iter().any(|local| sort_index(local.sort))
}

/// Whether an action breaks E22.
#[tactic(auto, using(civl_names::proofs::Lists::any_append))]
pub(crate) fn action_index(program: &Program, action: &Action) -> bool
    ensures { result ≡ action_index program.now action.now }
{
    params_index(action.params.as_slice())
        || params_index(action.outs.as_slice())
        || choices_index(action.choices.as_slice())
        || action_uses_break(TypingRule::Index, program, action)
}

/// Whether a procedure breaks E22, outside its statements.
#[tactic(auto, using(civl_names::proofs::Lists::any_append))]
pub(crate) fn proc_index(program: &Program, proc: &Proc) -> bool
    ensures { result ≡ proc_index program.now proc.now }
{
    params_index(proc.params.as_slice())
        || params_index(proc.outs.as_slice())
        || locals_index(proc.locals.as_slice())
        || with_uses_break(TypingRule::Index, program, proc)
}

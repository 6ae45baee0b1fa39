// The sorts of declared names.
ghost use Rattle.std.specs.Prelude.{◌≡◌};
ghost use Rattle.civl_tree.specs.declared.expr.Sort.TheVariants.{Word as WordOf};
ghost use Rattle.civl_tree.specs.rules.Index.{sort_index};
ghost use Rattle.civl_tree.specs.rules.Sorts.{same_sort};
ghost use Rattle.civl_tree.specs.rules.Width.{sort_width_fits};
ghost use Rattle.civl_subjects.specs.Places.{declared_subject, linear_subject, local_subject, param_subject, set_width, global_subject};
ghost use Rattle.civl_subjects.specs.Parts.{first_told};
ghost use Rattle.civl_subjects.specs.inner.Meant.{all_meant};

use crate::expr_rule::ExprRule;
use crate::fitting::{is_index, is_width};
use crate::subject::Subject;
use civl_tree::{Global, Local, Name, Param, Program, Sort};
use civl_types::is_linear;

/// Whether the width of a sort is in range.
fn sort_width_fits(sort: Sort) -> bool
    ensures { result ≡ sort_width_fits sort }
{
    match sort {
        Sort::Bool => true,
        Sort::Word(width) => is_width(width),
        Sort::Row(_, width) => is_width(width),
    }
}

/// Whether a sort is that of a row whose index is out of range.
fn sort_index(sort: Sort) -> bool
    ensures { result ≡ sort_index sort }
{
    match sort {
        Sort::Bool => false,
        Sort::Word(_) => false,
        Sort::Row(index, _) => !is_index(index),
    }
}

/// Whether a sort is that of a word of this width.
fn is_word(sort: Sort, width: u32) -> bool
    ensures { result ≡ same_sort sort (WordOf width) }
{
    match sort {
        Sort::Word(other) => other == width,
        Sort::Bool | Sort::Row(_, _) => false,
    }
}

/// A linear name that isn't a word of the width that it needs.
fn linear_subject<'a>(linear: bool, width: u32, name: &'a Name, sort: Sort) -> Option<Subject<'a>>
    ensures { all_meant result ≡ linear_subject linear width name.now sort }
{
    if linear && !is_word(sort, width) {
        return Some(Subject::Needs(name, sort, Sort::Word(width)));
    }
    None
}

/// A name with a sort whose widths or index are out of range, or a linear one that needs a word of this width.
pub(crate) fn declared_subject<'a>(
    rule: ExprRule,
    linear: bool,
    width: u32,
    name: &'a Name,
    sort: Sort,
) -> Option<Subject<'a>>
    ensures { all_meant result ≡ declared_subject rule linear width name.now sort }
{
    match rule {
        ExprRule::Width => {
            if sort_width_fits(sort) {
                return linear_subject(linear, width, name, sort);
            }
            Some(Subject::Sorted(name, sort))
        }
        ExprRule::Index => {
            if sort_index(sort) {
                return Some(Subject::Sorted(name, sort));
            }
            None
        }
        ExprRule::Unknown => None,
        ExprRule::Sorts => None,
    }
}

fn param_subject<'a>(rule: ExprRule, program: &Program, param: &'a Param) -> Option<Subject<'a>>
    ensures { all_meant result ≡ param_subject rule program.now param.now }
{
    declared_subject(
        rule,
        is_linear(param.mode),
        program.permissions,
        &param.name,
        param.sort,
    )
}

/// The first of these parameters or outputs about which something is told.
pub(crate) fn params_subject<'a>(
    rule: ExprRule,
    program: &Program,
    params: &'a [Param],
) -> Option<Subject<'a>>
    ensures { all_meant result ≡ first_told (param_subject rule program.now) params.now }
{
    for param in params {
        if let Some(subject) = param_subject(rule, program, param) {
            return Some(subject);
        }
    }
    None
}

fn local_subject<'a>(rule: ExprRule, program: &Program, local: &'a Local) -> Option<Subject<'a>>
    ensures { all_meant result ≡ local_subject rule program.now local.now }
{
    declared_subject(
        rule,
        local.linear,
        program.permissions,
        &local.name,
        local.sort,
    )
}

/// The first of these locals about which something is told.
pub(crate) fn locals_subject<'a>(
    rule: ExprRule,
    program: &Program,
    locals: &'a [Local],
) -> Option<Subject<'a>>
    ensures { all_meant result ≡ first_told (local_subject rule program.now) locals.now }
{
    for local in locals {
        if let Some(subject) = local_subject(rule, program, local) {
            return Some(subject);
        }
    }
    None
}

/// The width of a word with one bit for each permission.
fn set_width(permissions: u32) -> u32
    ensures { result ≡ set_width permissions }
{
    if permissions < 32 {
        1 << permissions
    } else {
        0
    }
}

/// What is told of a global.
pub(crate) fn global_subject<'a>(
    rule: ExprRule,
    program: &Program,
    global: &'a Global,
) -> Option<Subject<'a>>
    ensures { all_meant result ≡ global_subject rule program.now global.now }
{
    declared_subject(
        rule,
        global.linear,
        set_width(program.permissions),
        &global.name,
        global.sort,
    )
}

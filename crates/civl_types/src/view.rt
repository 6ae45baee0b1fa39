//! The places of expressions, and the sorts of the names that may stand there.
ghost use Rattle.std.specs.Prelude.{◌≡◌, ◌++◌};
ghost use Rattle.civl_tree.specs.rules.Scopes.{sort_in, bind_globals, bind_params, bind_choices, bind_locals, bind_proc};
ghost use Rattle.civl_types.specs.Views.{scope_of};

use crate::names::same_name;
use civl_tree::{Action, Choice, Global, Local, Name, Param, Proc, Program, Sort};

/// Where an expression stands: in `init`, an invariant or the arguments of a thread; in the gate or an offer of an
/// action; in its guard or an update; in a statement of a procedure; in an invariant, a rank, a `with` or an intro of
/// a procedure.
#[derive(Clone, Copy)]
pub enum View<'a> {
    Globals(&'a Program),
    Gate(&'a Program, &'a Action),
    Guard(&'a Program, &'a Action),
    Body(&'a Program, &'a Proc),
    Note(&'a Program, &'a Proc),
}

pub(crate) fn global_sort(globals: &[Global], name: &Name) -> Option<Sort>
    ensures { result ≡ sort_in (bind_globals globals.now) name.now }
{
    for global in globals {
        if same_name(&global.name, name) {
            return Some(global.sort);
        }
    }
    None
}

fn param_sort(params: &[Param], name: &Name) -> Option<Sort>
    ensures { result ≡ sort_in (bind_params params.now) name.now }
{
    for param in params {
        if same_name(&param.name, name) {
            return Some(param.sort);
        }
    }
    None
}

fn choice_sort(choices: &[Choice], name: &Name) -> Option<Sort>
    ensures { result ≡ sort_in (bind_choices choices.now) name.now }
{
    for choice in choices {
        if same_name(&choice.name, name) {
            return Some(choice.sort);
        }
    }
    None
}

fn local_sort(locals: &[Local], name: &Name) -> Option<Sort>
    ensures { result ≡ sort_in (bind_locals locals.now) name.now }
{
    for local in locals {
        if same_name(&local.name, name) {
            return Some(local.sort);
        }
    }
    None
}

/// The sort of a name that is declared by a procedure.
#[tactic(auto, using(crate::proofs::Scoping::sort_in_append))]
pub(crate) fn place_sort(proc: &Proc, name: &Name) -> Option<Sort>
    ensures { result ≡ sort_in (bind_proc proc.now) name.now }
{
    if let Some(sort) = param_sort(proc.params.as_slice(), name) {
        return Some(sort);
    }
    if let Some(sort) = param_sort(proc.outs.as_slice(), name) {
        return Some(sort);
    }
    local_sort(proc.locals.as_slice(), name)
}

/// The sort of a global, else of one of the parameters.
#[tactic(auto, using(crate::proofs::Scoping::sort_in_append))]
pub(crate) fn outer_sort(globals: &[Global], params: &[Param], name: &Name) -> Option<Sort>
    ensures { result ≡ sort_in (bind_globals globals.now ++ bind_params params.now) name.now }
{
    if let Some(sort) = global_sort(globals, name) {
        return Some(sort);
    }
    param_sort(params, name)
}

#[tactic(auto, using(crate::proofs::Scoping::sort_in_append))]
fn guard_sort(program: &Program, action: &Action, name: &Name) -> Option<Sort>
    ensures { result ≡ sort_in (bind_globals program.now.globals ++ (bind_params action.now.params ++ bind_choices action.now.choices)) name.now }
{
    if let Some(sort) = global_sort(program.globals.as_slice(), name) {
        return Some(sort);
    }
    if let Some(sort) = param_sort(action.params.as_slice(), name) {
        return Some(sort);
    }
    choice_sort(action.choices.as_slice(), name)
}

#[tactic(auto, using(crate::proofs::Scoping::sort_in_append))]
fn note_sort(program: &Program, proc: &Proc, name: &Name) -> Option<Sort>
    ensures { result ≡ sort_in (bind_globals program.now.globals ++ bind_proc proc.now) name.now }
{
    if let Some(sort) = global_sort(program.globals.as_slice(), name) {
        return Some(sort);
    }
    place_sort(proc, name)
}

/// The sort of a name in an expression that stands there.
pub fn name_sort(view: &View, name: &Name) -> Option<Sort>
    ensures { result ≡ sort_in (scope_of view.now).names name.now }
{
    match view {
        View::Globals(program) => global_sort(program.globals.as_slice(), name),
        View::Gate(program, action) => outer_sort(
            program.globals.as_slice(),
            action.params.as_slice(),
            name,
        ),
        View::Guard(program, action) => guard_sort(program, action, name),
        View::Body(_, proc) => place_sort(proc, name),
        View::Note(program, proc) => note_sort(program, proc, name),
    }
}

/// The sort of a name in `old(name)` there.
pub fn old_sort(view: &View, name: &Name) -> Option<Sort>
    ensures { result ≡ sort_in (scope_of view.now).olds name.now }
{
    match view {
        View::Globals(program) => global_sort(program.globals.as_slice(), name),
        View::Gate(program, action) | View::Guard(program, action) => outer_sort(
            program.globals.as_slice(),
            action.outs.as_slice(),
            name,
        ),
        View::Body(program, proc) | View::Note(program, proc) => outer_sort(
            program.globals.as_slice(),
            proc.outs.as_slice(),
            name,
        ),
    }
}

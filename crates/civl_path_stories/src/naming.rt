// The names at places.
ghost use Rattle.std.specs.Prelude.{◌≡◌, ◌++◌};
ghost use Rattle.civl_tree.specs.rules.Names.{global_names, param_names};
ghost use Rattle.civl_firing.specs.Scope.{choice_names, local_names};
ghost use Rattle.civl_firing.specs.Names.{names_of};
ghost use Rattle.civl_conditions.specs.paths.NoteValues.{note_names};
ghost use Rattle.civl_path_stories.specs.Paths.{name_at};

use civl_firing::names::Names;
use civl_tree::{Choice, Global, Local, Param, Proc};

/// The bytes of a global's name; none where there is no such global.
#[tactic(auto, using(crate::proofs::Names::naming))]
fn global(globals: &[Global], place: usize) -> &[u8]
    ensures { result.now ≡ (name_at (global_names globals.now) place).bytes }
{
    if place < globals.len() {
        globals[place].name.as_slice()
    } else {
        &[]
    }
}

/// Those of a parameter's or an output's name.
#[tactic(auto, using(crate::proofs::Names::naming))]
fn param(params: &[Param], place: usize) -> &[u8]
    ensures { result.now ≡ (name_at (param_names params.now) place).bytes }
{
    if place < params.len() {
        params[place].name.as_slice()
    } else {
        &[]
    }
}

/// Those of a choice's name.
#[tactic(auto, using(crate::proofs::Names::naming))]
fn choice(choices: &[Choice], place: usize) -> &[u8]
    ensures { result.now ≡ (name_at (choice_names choices.now) place).bytes }
{
    if place < choices.len() {
        choices[place].name.as_slice()
    } else {
        &[]
    }
}

/// Those of a local's name.
#[tactic(auto, using(crate::proofs::Names::naming))]
fn local(locals: &[Local], place: usize) -> &[u8]
    ensures { result.now ≡ (name_at (local_names locals.now) place).bytes }
{
    if place < locals.len() {
        locals[place].name.as_slice()
    } else {
        &[]
    }
}

/// The bytes of the name at a place; none where no name is.
#[tactic(auto, using(civl_firing::proofs::Joining::indexing, std::proofs::lemmas::Grind::common_steps))]
pub fn name_at<'a>(names: &Names<'a>, place: usize) -> &'a [u8]
    ensures { result.now ≡ (name_at (names_of names.now) place).bytes }
{
    if place < names.globals.len() {
        return global(names.globals, place);
    }
    behind_globals(names, place - names.globals.len())
}

#[tactic(auto, using(civl_firing::proofs::Joining::indexing, std::proofs::lemmas::Grind::common_steps))]
fn behind_globals<'a>(names: &Names<'a>, place: usize) -> &'a [u8]
    ensures { result.now ≡ (name_at (param_names names.now.params.now ++ (choice_names names.now.choices.now
        ++ (param_names names.now.outs.now ++ (local_names names.now.locals.now ++ global_names names.now.behind.now)))) place).bytes }
{
    if place < names.params.len() {
        return param(names.params, place);
    }
    behind_params(names, place - names.params.len())
}

#[tactic(auto, using(civl_firing::proofs::Joining::indexing, std::proofs::lemmas::Grind::common_steps))]
fn behind_params<'a>(names: &Names<'a>, place: usize) -> &'a [u8]
    ensures { result.now ≡ (name_at (choice_names names.now.choices.now
        ++ (param_names names.now.outs.now ++ (local_names names.now.locals.now ++ global_names names.now.behind.now))) place).bytes }
{
    if place < names.choices.len() {
        return choice(names.choices, place);
    }
    behind_choices(names, place - names.choices.len())
}

#[tactic(auto, using(civl_firing::proofs::Joining::indexing, std::proofs::lemmas::Grind::common_steps))]
fn behind_choices<'a>(names: &Names<'a>, place: usize) -> &'a [u8]
    ensures { result.now ≡ (name_at (param_names names.now.outs.now
        ++ (local_names names.now.locals.now ++ global_names names.now.behind.now)) place).bytes }
{
    if place < names.outs.len() {
        return param(names.outs, place);
    }
    behind_outs(names, place - names.outs.len())
}

#[tactic(auto, using(civl_firing::proofs::Joining::indexing, std::proofs::lemmas::Grind::common_steps))]
fn behind_outs<'a>(names: &Names<'a>, place: usize) -> &'a [u8]
    ensures { result.now ≡ (name_at (local_names names.now.locals.now ++ global_names names.now.behind.now) place).bytes }
{
    if place < names.locals.len() {
        return local(names.locals, place);
    }
    global(names.behind, place - names.locals.len())
}

/// The names of the globals, and behind them those of the parameters, outputs and locals of a procedure.
#[tactic(auto, using(civl_firing::proofs::Joining::appending))]
pub fn noted<'a>(globals: &'a [Global], proc: &'a Proc) -> Names<'a>
    ensures { names_of result ≡ note_names globals.now proc.now }
{
    Names {
        globals,
        params: proc.params.as_slice(),
        choices: &[],
        outs: proc.outs.as_slice(),
        locals: proc.locals.as_slice(),
        behind: &[],
    }
}

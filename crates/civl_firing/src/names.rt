//! The places of names among those that a program declares.
ghost use Rattle.std.specs.Prelude.{◌≡◌, ◌++◌, ◌≤◌, length, map};
ghost use Rattle.std.specs.Str.{bytes_eq};
ghost use Rattle.civl_firing.specs.Truth.{place_of};
ghost use Rattle.civl_firing.specs.Scope.{choice_names, local_names};
ghost use Rattle.civl_tree.specs.rules.Names.{global_names, param_names};
ghost use Rattle.civl_firing.specs.Names.{names_of};

use civl_tree::{Action, Choice, Global, Local, Name, Param, Proc};

/// The declarations whose names stand in a scope, in the order of their places. What a scope hasn't is empty.
#[derive(Clone, Copy)]
pub struct Names<'a> {
    pub globals: &'a [Global],
    pub params: &'a [Param],
    pub choices: &'a [Choice],
    pub outs: &'a [Param],
    pub locals: &'a [Local],
    pub behind: &'a [Global],
}

/// Whether two names have the same bytes.
fn same(a: &Name, b: &Name) -> bool
    ensures { result ≡ bytes_eq a.now.bytes b.now.bytes }
{
    a.as_slice() == b.as_slice()
}

/// The place of a global's name.
fn global(globals: &[Global], name: &Name) -> usize
    ensures place { result ≡ place_of (global_names globals.now) name.now }
    ensures within { result ≤ length (global_names globals.now) }
{
    let mut at = 0;
    for known in globals {
        if same(&known.name, name) {
            return at;
        }
        at += 1;
    }
    at
}

/// The place of a parameter's or an output's name.
fn param(params: &[Param], name: &Name) -> usize
    ensures place { result ≡ place_of (param_names params.now) name.now }
    ensures within { result ≤ length (param_names params.now) }
{
    let mut at = 0;
    for known in params {
        if same(&known.name, name) {
            return at;
        }
        at += 1;
    }
    at
}

/// The place of a choice's name.
fn choice(choices: &[Choice], name: &Name) -> usize
    ensures place { result ≡ place_of (choice_names choices.now) name.now }
    ensures within { result ≤ length (choice_names choices.now) }
{
    let mut at = 0;
    for known in choices {
        if same(&known.name, name) {
            return at;
        }
        at += 1;
    }
    at
}

/// The place of a local's name.
fn local(locals: &[Local], name: &Name) -> usize
    ensures place { result ≡ place_of (local_names locals.now) name.now }
    ensures within { result ≤ length (local_names locals.now) }
{
    let mut at = 0;
    for known in locals {
        if same(&known.name, name) {
            return at;
        }
        at += 1;
    }
    at
}

/// The place of an action's name, or the number of the actions.
pub fn action(actions: &[Action], name: &Name) -> usize
    ensures { result ≡ place_of (map (λ a. a.name) actions.now) name.now }
{
    let mut at = 0;
    for known in actions {
        if same(&known.name, name) {
            return at;
        }
        at += 1;
    }
    at
}

/// The place of a procedure's name, or the number of the procedures.
pub fn proc(procs: &[Proc], name: &Name) -> usize
    ensures { result ≡ place_of (map (λ p. p.name) procs.now) name.now }
{
    let mut at = 0;
    for known in procs {
        if same(&known.name, name) {
            return at;
        }
        at += 1;
    }
    at
}

/// The place of a name in a scope, or the number of its names.
#[tactic(auto, using(crate::proofs::Joining::joining, std::proofs::lemmas::Grind::common_steps))]
pub fn place(names: &Names<'_>, name: &Name) -> usize
    ensures place { result ≡ place_of (names_of names.now) name.now }
    ensures within { result ≤ length (names_of names.now) }
{
    let at = global(names.globals, name);
    if at < names.globals.len() {
        return at;
    }
    names.globals.len() + behind_globals(names, name)
}

#[tactic(auto, using(crate::proofs::Joining::joining, std::proofs::lemmas::Grind::common_steps))]
fn behind_globals(names: &Names<'_>, name: &Name) -> usize
    ensures place { result ≡ place_of (param_names names.now.params.now ++ (choice_names names.now.choices.now ++ (param_names names.now.outs.now ++ (local_names names.now.locals.now ++ global_names names.now.behind.now)))) name.now }
    ensures within { result ≤ length (param_names names.now.params.now ++ (choice_names names.now.choices.now ++ (param_names names.now.outs.now ++ (local_names names.now.locals.now ++ global_names names.now.behind.now)))) }
{
    let at = param(names.params, name);
    if at < names.params.len() {
        return at;
    }
    names.params.len() + behind_params(names, name)
}

#[tactic(auto, using(crate::proofs::Joining::joining, std::proofs::lemmas::Grind::common_steps))]
fn behind_params(names: &Names<'_>, name: &Name) -> usize
    ensures place { result ≡ place_of (choice_names names.now.choices.now ++ (param_names names.now.outs.now ++ (local_names names.now.locals.now ++ global_names names.now.behind.now))) name.now }
    ensures within { result ≤ length (choice_names names.now.choices.now ++ (param_names names.now.outs.now ++ (local_names names.now.locals.now ++ global_names names.now.behind.now))) }
{
    let at = choice(names.choices, name);
    if at < names.choices.len() {
        return at;
    }
    names.choices.len() + behind_choices(names, name)
}

#[tactic(auto, using(crate::proofs::Joining::joining, std::proofs::lemmas::Grind::common_steps))]
fn behind_choices(names: &Names<'_>, name: &Name) -> usize
    ensures place { result ≡ place_of (param_names names.now.outs.now ++ (local_names names.now.locals.now ++ global_names names.now.behind.now)) name.now }
    ensures within { result ≤ length (param_names names.now.outs.now ++ (local_names names.now.locals.now ++ global_names names.now.behind.now)) }
{
    let at = param(names.outs, name);
    if at < names.outs.len() {
        return at;
    }
    names.outs.len() + behind_outs(names, name)
}

#[tactic(auto, using(crate::proofs::Joining::joining, std::proofs::lemmas::Grind::common_steps))]
fn behind_outs(names: &Names<'_>, name: &Name) -> usize
    ensures place { result ≡ place_of (local_names names.now.locals.now ++ global_names names.now.behind.now) name.now }
    ensures within { result ≤ length (local_names names.now.locals.now ++ global_names names.now.behind.now) }
{
    let at = local(names.locals, name);
    if at < names.locals.len() {
        return at;
    }
    names.locals.len() + global(names.behind, name)
}

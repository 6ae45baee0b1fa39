// Unknown names (E11) in items other than procedures.
ghost use Rattle.std.specs.Prelude.{Bool, ◌≡◌, ◌+◌, ◌<◌, ◌^◌, ◌++◌, not, map, length, IfOk};
ghost use Rattle.std.specs.List.{list_any};
ghost use Rattle.civl_tree.specs.rules.Names.{has_name, param_names};
ghost use Rattle.civl_tree.specs.rules.Codes.{E11};
ghost use Rattle.civl_tree.specs.rules.Rules.{each_place, refusal_at, first_of};
ghost use Rattle.civl_names.specs.inner.NameSets.{names_in, set_of};
ghost use Rattle.civl_names.specs.inner.InScope.{names_of, olds_of, all_known};
ghost use Rattle.civl_names.specs.inner.Strange.{Declared, declared_in, broken_items, invariant_strange, gate_strange, guard_strange, action_strange, thread_strange};

use crate::known::{Own, Scope, all_known, any_strange};
use crate::name_set::NameSet;
use crate::named::{add_all, set_of};
use civl_tree::{Action, Choice, Invariant, Memory, Name, Refusal, Thread, Update, both};
use std::alloc::Global;

/// The names of a program's globals, actions and procedures.
#[derive(Clone, Copy)]
pub(crate) struct Sets<'s, 'p> {
    pub globals: &'s NameSet<'p>,
    pub actions: &'s NameSet<'p>,
    pub procs: &'s NameSet<'p>,
}

/// An item that may break E11 as a whole.
pub(crate) trait Judged {
    ghost unknown: { Declared → Self → Bool };

    /// Whether it does.
    fn is_unknown(&self, alloc: Global, sets: &Sets) -> Result<bool, Memory>
        ensures { IfOk result (λ broken. broken ≡ unknown (declared_in sets.now) self.now) };
}

impl Judged for Invariant {
    ghost unknown = { invariant_strange };

    fn is_unknown(&self, _alloc: Global, sets: &Sets) -> Result<bool, Memory> {
        Ok(!all_known(&Scope::Globals(sets.globals), &self.expr))
    }
}

impl Judged for Thread {
    ghost unknown = { thread_strange };

    fn is_unknown(&self, _alloc: Global, sets: &Sets) -> Result<bool, Memory> {
        Ok(
            !sets.procs.has(&self.callee)
                || any_strange(&Scope::Globals(sets.globals), self.args.as_slice()),
        )
    }
}

impl Judged for Action {
    ghost unknown = { action_strange };

    fn is_unknown(&self, alloc: Global, sets: &Sets) -> Result<bool, Memory> {
        let (names, outs) = both(
            set_of(alloc, self.params.as_slice()),
            set_of(alloc, self.outs.as_slice()),
        )?;
        let mut own = Own { names, outs };
        action_unknown(sets, &mut own, self)
    }
}

/// Whether an action breaks E11, where these are the names of its parameters and of its outputs. Those of its choices are
/// added once the gate is seen.
fn action_unknown<'a>(sets: &Sets, own: &mut Own<'a>, action: &'a Action) -> Result<bool, Memory>
    requires names { names_in own.old.names ≡ set_of (param_names action.now.params) }
    requires outs { names_in own.old.outs ≡ set_of (param_names action.now.outs) }
    ensures { IfOk result (λ broken. broken ≡ action_strange (declared_in sets.now) action.now) }
{
    if targets_unknown(sets.globals, &own.outs, action.updates.as_slice()) {
        return Ok(true);
    }
    if gate_unknown(&Scope::Note(sets.globals, own), action) {
        return Ok(true);
    }
    add_all(&mut own.names, action.choices.as_slice())?;
    Ok(guard_unknown(&Scope::Note(sets.globals, own), action))
}

#[tactic(auto, using(crate::proofs::Lists::any_append))]
fn target_unknown(globals: &NameSet, outs: &NameSet, target: &Name) -> bool
    ensures { result ≡ not (has_name (names_in globals.now ++ names_in outs.now) target.now) }
{
    !(globals.has(target) || outs.has(target))
}

/// Whether the target of an update isn't in scope.
fn targets_unknown(globals: &NameSet, outs: &NameSet, updates: &[Update]) -> bool
    ensures { result ≡ list_any (λ update. not (has_name (names_in globals.now ++ names_in outs.now) update.target)) updates.now }
{
    updates
        .iter()
        .any(|update| target_unknown(globals, outs, &update.target))
}

/// Whether a name of an offer or of the gate isn't in scope.
fn gate_unknown(scope: &Scope, action: &Action) -> bool
    ensures { result ≡ gate_strange (names_of scope.now) (olds_of scope.now) action.now }
{
    offers_unknown(scope, action.choices.as_slice()) || !all_known(scope, &action.gate)
}

fn offers_unknown(scope: &Scope, choices: &[Choice]) -> bool
    ensures { result ≡ list_any (λ choice. not (all_known (names_of scope.now) (olds_of scope.now) choice.offer)) choices.now }
{
    choices
        .iter()
        .any(|choice| !all_known(scope, &choice.offer))
}

/// Whether a name of the guard or of an update's value isn't in scope.
fn guard_unknown(scope: &Scope, action: &Action) -> bool
    ensures { result ≡ guard_strange (names_of scope.now) (olds_of scope.now) action.now }
{
    !all_known(scope, &action.guard) || values_unknown(scope, action.updates.as_slice())
}

fn values_unknown(scope: &Scope, updates: &[Update]) -> bool
    ensures { result ≡ list_any (λ update. not (all_known (names_of scope.now) (olds_of scope.now) update.expr)) updates.now }
{
    updates.iter().any(|update| !all_known(scope, &update.expr))
}

pub(crate) fn unknown_at(item: u32) -> Refusal
    ensures { result ≡ refusal_at E11 (record { item = item; statement = 0 }) }
{
    Refusal {
        code: 11,
        item,
        statement: 0,
    }
}

/// The refusal of the first of these items that breaks E11, where so many items stand before them.
pub(crate) fn first_item<T: Judged>(
    alloc: Global,
    sets: &Sets,
    before: usize,
    items: &[T],
) -> Result<Option<Refusal>, Memory>
    requires { before + length items.now < 2 ^ 32 }
    ensures { IfOk result (λ first. first ≡ first_of (map (refusal_at E11) (each_place (broken_items (T.unknown (declared_in sets.now)) before) 0 items.now))) }
{
    for (place, item) in items.iter().enumerate() {
        if item.is_unknown(alloc, sets)? {
            return Ok(Some(unknown_at((before + place) as u32)));
        }
    }
    Ok(None)
}

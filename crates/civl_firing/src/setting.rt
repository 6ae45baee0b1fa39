//! What the names of an expression stand for, at the places of a program. No list of values is made for them.
ghost use Rattle.std.specs.Prelude.{◌≡◌, ◌++◌, slice_index_or};
ghost use Rattle.civl_firing.specs.declared.scope.Scope.{Scope as Given};
ghost use Rattle.civl_firing.specs.values.Operators.{nothing};
ghost use Rattle.civl_firing.specs.Eval.{look};
ghost use Rattle.civl_firing.specs.Settings.{values_in, scope_in};
ghost use Rattle.civl_firing.specs.Scope.{zeros_of_params, zeros_of_globals, global_values, gate_values, guard_values, frame_values};

use crate::names::{Names, place};
use crate::scope::Scope;
use crate::store::Store;
use crate::values::{nothing, zero};
use civl_bits::Value;
use civl_tree::{Action, Global, Name, Param, Proc};

/// What the names of an expression stand for.
pub trait Bindings {
    /// The scope that this is.
    ghost scope: { Self → Given };

    /// The value of a name.
    fn value(&self, name: &Name) -> Value
        ensures { result ≡ look (scope self.now).names (scope self.now).values name.now };

    /// The old value of a name.
    fn old_value(&self, name: &Name) -> Value
        ensures { result ≡ look (scope self.now).names (scope self.now).old name.now };

    /// The value of `done`.
    fn is_done(&self) -> bool
        ensures { result ≡ (scope self.now).done };

    /// The value of `old(done)`.
    fn was_done(&self) -> bool
        ensures { result ≡ (scope self.now).old_done };
}

impl Bindings for Scope {
    ghost scope = { λ s. s };

    fn value(&self, name: &Name) -> Value {
        value_at(
            self.values.as_slice(),
            crate::truth::place(&self.names, name),
        )
    }

    fn old_value(&self, name: &Name) -> Value {
        value_at(self.old.as_slice(), crate::truth::place(&self.names, name))
    }

    fn is_done(&self) -> bool {
        self.done
    }

    fn was_done(&self) -> bool {
        self.old_done
    }
}

/// The value at a place, or that where nothing is.
fn value_at(values: &[Value], at: usize) -> Value
    ensures { result ≡ slice_index_or values.now at nothing }
{
    if at < values.len() {
        values[at]
    } else {
        nothing()
    }
}

/// The zero of the parameter or output at a place.
fn param_zero_at(params: &[Param], at: usize) -> Value
    ensures { result ≡ slice_index_or (zeros_of_params params.now) at nothing }
{
    if at < params.len() {
        zero(params[at].sort)
    } else {
        nothing()
    }
}

/// The zero of the global at a place.
fn global_zero_at(globals: &[Global], at: usize) -> Value
    ensures { result ≡ slice_index_or (zeros_of_globals globals.now) at nothing }
{
    if at < globals.len() {
        zero(globals[at].sort)
    } else {
        nothing()
    }
}

/// A place of a program: the names there, and their values, which are those of the store, of the inputs and of the
/// choices, and zeros.
#[derive(Clone, Copy)]
pub struct Setting<'a> {
    pub names: Names<'a>,
    pub store: &'a [Value],
    pub inputs: &'a [Value],
    pub chosen: &'a [Value],
    pub zeros: &'a [Param],
}

/// The zero at a place of a setting's zeros.
#[tactic(auto, using(crate::proofs::Joining::indexing, std::proofs::lemmas::Grind::common_steps))]
pub(crate) fn zero_in(setting: &Setting<'_>, at: usize) -> Value
    ensures { result ≡ slice_index_or (zeros_of_params setting.now.zeros.now ++ zeros_of_globals setting.now.names.behind.now) at nothing }
{
    if at < setting.zeros.len() {
        return param_zero_at(setting.zeros, at);
    }
    global_zero_at(setting.names.behind, at - setting.zeros.len())
}

#[tactic(auto, using(crate::proofs::Joining::indexing, std::proofs::lemmas::Grind::common_steps))]
fn behind_store(setting: &Setting<'_>, at: usize) -> Value
    ensures { result ≡ slice_index_or (setting.now.inputs.now ++ (setting.now.chosen.now ++ (zeros_of_params setting.now.zeros.now ++ zeros_of_globals setting.now.names.behind.now))) at nothing }
{
    if at < setting.inputs.len() {
        return setting.inputs[at];
    }
    let at = at - setting.inputs.len();
    if at < setting.chosen.len() {
        return setting.chosen[at];
    }
    zero_in(setting, at - setting.chosen.len())
}

#[tactic(auto, using(crate::proofs::Joining::indexing, std::proofs::lemmas::Grind::common_steps))]
fn setting_at(setting: &Setting<'_>, at: usize) -> Value
    ensures { result ≡ slice_index_or (values_in setting.now) at nothing }
{
    if at < setting.store.len() {
        return setting.store[at];
    }
    behind_store(setting, at - setting.store.len())
}

impl Bindings for Setting<'_> {
    ghost scope = { scope_in };

    fn value(&self, name: &Name) -> Value {
        setting_at(self, place(&self.names, name))
    }

    fn old_value(&self, name: &Name) -> Value {
        setting_at(self, place(&self.names, name))
    }

    fn is_done(&self) -> bool {
        false
    }

    fn was_done(&self) -> bool {
        false
    }
}

/// `init` and the arguments of threads.
#[tactic(auto, using(crate::proofs::Joining::appending))]
pub fn at_start<'a>(globals: &'a [Global], store: &'a Store) -> Setting<'a>
    ensures { scope_in result ≡ global_values globals.now store.now }
{
    Setting {
        names: Names {
            globals,
            params: &[],
            choices: &[],
            outs: &[],
            locals: &[],
            behind: &[],
        },
        store: store.values.as_slice(),
        inputs: &[],
        chosen: &[],
        zeros: &[],
    }
}

/// An action's gate and offers.
#[tactic(auto, using(crate::proofs::Joining::appending))]
pub(crate) fn at_gate<'a>(
    globals: &'a [Global],
    store: &'a Store,
    action: &'a Action,
    inputs: &'a [Value],
) -> Setting<'a>
    ensures { scope_in result ≡ gate_values globals.now store.now action.now inputs.now }
{
    Setting {
        names: Names {
            globals,
            params: action.params.as_slice(),
            choices: &[],
            outs: action.outs.as_slice(),
            locals: &[],
            behind: &[],
        },
        store: store.values.as_slice(),
        inputs,
        chosen: &[],
        zeros: action.outs.as_slice(),
    }
}

/// An action's guard and updates.
#[tactic(auto, using(crate::proofs::Joining::appending))]
pub(crate) fn at_guard<'a>(
    globals: &'a [Global],
    store: &'a Store,
    action: &'a Action,
    inputs: &'a [Value],
    chosen: &'a [Value],
) -> Setting<'a>
    ensures { scope_in result ≡ guard_values globals.now store.now action.now inputs.now chosen.now }
{
    Setting {
        names: Names {
            globals,
            params: action.params.as_slice(),
            choices: action.choices.as_slice(),
            outs: action.outs.as_slice(),
            locals: &[],
            behind: &[],
        },
        store: store.values.as_slice(),
        inputs,
        chosen,
        zeros: action.outs.as_slice(),
    }
}

/// A procedure's statements.
#[tactic(auto, using(crate::proofs::Joining::appending))]
pub fn in_frame<'a>(globals: &'a [Global], proc: &'a Proc, locals: &'a [Value]) -> Setting<'a>
    ensures { scope_in result ≡ frame_values globals.now proc.now locals.now }
{
    Setting {
        names: Names {
            globals: &[],
            params: proc.params.as_slice(),
            choices: &[],
            outs: proc.outs.as_slice(),
            locals: proc.locals.as_slice(),
            behind: globals,
        },
        store: &[],
        inputs: locals,
        chosen: &[],
        zeros: &[],
    }
}

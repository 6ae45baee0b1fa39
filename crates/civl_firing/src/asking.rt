// The gate of a call whose arguments aren't evaluated into a list.
ghost use Rattle.std.specs.Prelude.{◌≡◌, ◌++◌, slice_index_or};
ghost use Rattle.civl_firing.specs.values.Operators.{nothing};
ghost use Rattle.civl_firing.specs.Eval.{values_of};
ghost use Rattle.civl_firing.specs.Scope.{gate_values, frame_values, zeros_of_params, zeros_of_globals};
ghost use Rattle.civl_firing.specs.Settings.{scope_in};
ghost use Rattle.civl_firing.specs.inner.Asked.{asked_values, scope_asked};
ghost use Rattle.civl_firing.specs.Fired.{gate_holds};

use crate::expressions::{holds, value};
use crate::names::{Names, place};
use crate::setting::{Bindings, Setting, in_frame, zero_in};
use crate::store::Store;
use civl_bits::Value;
use civl_tree::{Action, Expr, Global, Name, Proc};

/// An action's gate at a call: the inputs are those of the gate's setting and behind them these arguments in the frame
/// of the call, which are evaluated where they are looked up.
#[derive(Clone, Copy)]
pub struct Asked<'a> {
    pub gate: Setting<'a>,
    pub frame: Setting<'a>,
    pub args: &'a [Expr],
}

#[tactic(auto, using(crate::proofs::Joining::indexing, crate::proofs::Joining::evaluated_at, std::proofs::lemmas::Grind::common_steps))]
fn argument_at(asked: &Asked<'_>, at: usize) -> Value
    ensures { result ≡ slice_index_or (values_of (scope_in asked.now.frame) asked.now.args.now ++ (zeros_of_params asked.now.gate.zeros.now ++ zeros_of_globals asked.now.gate.names.behind.now)) at nothing }
{
    if at < asked.args.len() {
        return value(&asked.frame, &asked.args[at]);
    }
    zero_in(&asked.gate, at - asked.args.len())
}

#[tactic(auto, using(crate::proofs::Joining::indexing, std::proofs::lemmas::Grind::common_steps))]
fn asked_at(asked: &Asked<'_>, at: usize) -> Value
    ensures { result ≡ slice_index_or (asked_values asked.now) at nothing }
{
    if at < asked.gate.store.len() {
        return asked.gate.store[at];
    }
    let at = at - asked.gate.store.len();
    if at < asked.gate.inputs.len() {
        return asked.gate.inputs[at];
    }
    argument_at(asked, at - asked.gate.inputs.len())
}

impl Bindings for Asked<'_> {
    ghost scope = { scope_asked };

    fn value(&self, name: &Name) -> Value {
        asked_at(self, place(&self.gate.names, name))
    }

    fn old_value(&self, name: &Name) -> Value {
        asked_at(self, place(&self.gate.names, name))
    }

    fn is_done(&self) -> bool {
        false
    }

    fn was_done(&self) -> bool {
        false
    }
}

/// The gate at a call with these inputs, and behind them these arguments in a procedure's frame.
#[tactic(auto, using(crate::proofs::Joining::appending))]
fn at_call<'a>(
    globals: &'a [Global],
    store: &'a Store,
    action: &'a Action,
    inputs: &'a [Value],
    proc: &'a Proc,
    locals: &'a [Value],
    args: &'a [Expr],
) -> Asked<'a>
    ensures { scope_asked result ≡ gate_values globals.now store.now action.now (inputs.now ++ values_of (frame_values globals.now proc.now locals.now) args.now) }
{
    Asked {
        gate: Setting {
            names: Names {
                globals,
                params: action.params.as_slice(),
                choices: &[],
                outs: action.outs.as_slice(),
                locals: &[],
                behind: &[],
            },
            store: store.values.as_slice(),
            inputs,
            chosen: &[],
            zeros: action.outs.as_slice(),
        },
        frame: in_frame(globals, proc, locals),
        args,
    }
}

/// Whether the gate of an action is true at a call with these arguments in a procedure's frame. It takes no memory: the
/// first 32 arguments are evaluated once, which are all that a call may have, and further ones where the gate looks them
/// up.
#[tactic(auto, using(crate::proofs::Joining::evaluated), unfolding(crate::specs::Fired::gate_holds))]
pub fn gate_of_call(
    globals: &[Global],
    store: &Store,
    action: &Action,
    proc: &Proc,
    locals: &[Value],
    args: &[Expr],
) -> bool
    ensures { result ≡ gate_holds globals.now store.now action.now (values_of (frame_values globals.now proc.now locals.now) args.now) }
{
    let mut inputs = [Value::Bool(false); 32];
    let count = args.len().min(32);
    for at in 0..count {
        inputs[at] = value(&in_frame(globals, proc, locals), &args[at]);
    }
    let asked = at_call(
        globals,
        store,
        action,
        &inputs[..count],
        proc,
        locals,
        &args[count..],
    );
    holds(&asked, &action.gate)
}

// Whether an action does what a block did.
ghost use Rattle.std.specs.Prelude.{ℕ, ◌≡◌, ◌+◌, ◌<◌, ◌^◌, true, false, All, IfOk};
ghost use Rattle.civl_bits.specs.Value.{IsValue};
ghost use Rattle.civl_followed.specs.inner.Along.{Does, IsAfter};

use crate::agreeing::{agree, are_same};
use civl_bits::Value;
use civl_firing::firing::{choices_fit, gate, transition};
use civl_firing::values::sort_of;
use civl_firing::{Fired, Store};
use civl_meaning::outputs;
use civl_shadows::frames::inputs;
use civl_shadows::refined_action;
use civl_tree::{Memory, Proc, Program};
use std::alloc::Global;

/// What a block did: the procedure, the locals of its frame at the end, the store at its beginning and that at its end.
#[derive(Clone, Copy)]
pub struct Done<'a> {
    pub program: &'a Program,
    pub layer: u32,
    pub proc: &'a Proc,
    pub locals: &'a [Value],
    pub before: &'a Store,
    pub after: &'a Store,
}

/// Values are values of their sorts.
fn are_values(values: &[Value])
    ensures { All IsValue values.now }
{
    for value in values {
        sort_of(value);
    }
}

/// Whether the action that the procedure refines does with these choices what the block did.
pub fn does(alloc: Global, done: &Done<'_>, chosen: &[Value]) -> Result<bool, Memory>
    requires { done.now.layer + 1 < 2 ^ 32 }
    ensures yes { IfOk result (λ b. b ≡ true → (procedure place : ℕ) → Does done.now.program.now done.now.layer (done.now.proc.now, record { procedure = procedure; place = place; locals = done.now.locals.now }) done.now.before.now done.now.after.now chosen.now) }
    ensures no { IfOk result (λ b. b ≡ false → (procedure place : ℕ) → Does done.now.program.now done.now.layer (done.now.proc.now, record { procedure = procedure; place = place; locals = done.now.locals.now }) done.now.before.now done.now.after.now chosen.now → ⊥) }
{
    are_values(chosen);
    let globals = done.program.globals.as_slice();
    let inputs = inputs(done.proc, done.locals);
    match refined_action(done.program, done.proc) {
        None => Ok(false),
        Some(action) => {
            if !gate(globals, done.before, action, inputs) {
                return Ok(false);
            }
            if !choices_fit(action, chosen) {
                return Ok(false);
            }
            match transition(alloc, globals, done.before, action, inputs, chosen)? {
                Fired::GateFalse => Ok(false),
                Fired::Blocked => Ok(false),
                Fired::Moved(to, outs) => Ok(is_after(done, &to, outs.as_slice())),
            }
        }
    }
}

/// Whether this store is the block's last one in the next layer, and these are its outputs.
fn is_after(done: &Done<'_>, to: &Store, outs: &[Value]) -> bool
    requires { done.now.layer + 1 < 2 ^ 32 }
    ensures yes { result ≡ true → IsAfter done.now to.now outs.now }
    ensures no { result ≡ false → IsAfter done.now to.now outs.now → ⊥ }
{
    let globals = done.program.globals.as_slice();
    if !are_same(outs, outputs(done.proc, done.locals)) {
        return false;
    }
    agree(
        globals,
        done.layer + 1,
        to.values.as_slice(),
        done.after.values.as_slice(),
    )
}

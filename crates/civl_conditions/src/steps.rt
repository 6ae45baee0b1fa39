// What there is at a step.
ghost use Rattle.std.specs.Prelude.{◌≡◌, ◌<◌, ◌^◌, nat_eq, length, count_by};
ghost use Rattle.civl_conditions.specs.Steps.{begins_below, meet_below, lasts_through, has_layer, step_invariants};
ghost use Rattle.civl_layers.specs.Movers.{is_left, is_right};

use civl_tree::{Action, Invariant, Mover, Proc, Program};

/// Whether an action moves to the right.
pub(crate) fn is_right(mover: Mover) -> bool
    ensures { result ≡ is_right mover }
{
    match mover {
        Mover::Right | Mover::Both => true,
        Mover::Atomic | Mover::Left => false,
    }
}

/// Whether an action moves to the left.
pub(crate) fn is_left(mover: Mover) -> bool
    ensures { result ≡ is_left mover }
{
    match mover {
        Mover::Left | Mover::Both => true,
        Mover::Atomic | Mover::Right => false,
    }
}

/// Whether the lower layer of the step is the first in which the action exists.
pub(crate) fn begins_below(step: u32, action: &Action) -> bool
    ensures { result ≡ begins_below step action.now }
{
    step.checked_sub(1) == Some(action.first)
}

/// Whether the lower layer of the step is the first in which both actions exist.
pub(crate) fn meet_below(step: u32, first: &Action, second: &Action) -> bool
    ensures { result ≡ meet_below step first.now second.now }
{
    match step.checked_sub(1) {
        Some(below) => {
            below == first.first.max(second.first) && below <= first.last && below <= second.last
        }
        None => false,
    }
}

/// Whether the action exists in both layers of the step.
pub(crate) fn lasts_through(step: u32, action: &Action) -> bool
    ensures { result ≡ lasts_through step action.now }
{
    action.first < step && step <= action.last
}

/// Whether a procedure is of this layer.
pub(crate) fn has_layer(layer: u32, proc: &Proc) -> bool
    ensures { result ≡ has_layer layer proc.now }
{
    match &proc.refines {
        Some(refines) => refines.layer == layer,
        None => false,
    }
}

fn count_at(invariants: &[Invariant], step: u32) -> usize
    ensures { result ≡ count_by (λ invariant. nat_eq invariant.step step) invariants.now }
{
    invariants
        .iter()
        .filter(|invariant| invariant.step == step)
        .count()
}

/// How many invariants the step has.
pub(crate) fn invariant_count(program: &Program, step: u32) -> u32
    requires { length program.now.invariants < 2 ^ 32 }
    ensures { result ≡ length (step_invariants program.now step) }
{
    count_at(program.invariants.as_slice(), step) as u32
}

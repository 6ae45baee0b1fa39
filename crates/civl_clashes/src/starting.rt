// K1: initial stores meet the invariants.
ghost use Rattle.std.specs.Prelude.{◌≡◌, IfOk};
ghost use Rattle.civl_clashes.specs.Told.{start_violation};

use crate::violations::Violation;
use civl_assumed::invariants::invariant_lost;
use civl_assumed::is_initial;
use civl_firing::Store;
use civl_tree::{Memory, Program};
use std::alloc::Global;

/// K1: an initial store in which the invariant is false.
pub(crate) fn start_violation(
    alloc: Global,
    program: &Program,
    step: u32,
    place: u32,
    store: Store,
) -> Result<Option<Violation>, Memory>
    ensures { IfOk result (λ told. told ≡ start_violation program.now step place store) }
{
    if !invariant_lost(program, step, place, &store) {
        return Ok(None);
    }
    match is_initial(alloc, program, &store) {
        Ok(initial) => {
            if initial {
                Ok(Some(Violation::Starts(store)))
            } else {
                Ok(None)
            }
        }
        Err(error) => Err(error),
    }
}

// Whether threads stand inside blocks, and their frames.
ghost use Rattle.std.specs.Prelude.{◌≡◌, ◌+◌, ◌<◌, ◌^◌, IfOk};
ghost use Rattle.civl_reduction.specs.blocks.Cuts.{frame_at};
ghost use Rattle.civl_followed.specs.Followed.{inside_at};
ghost use Rattle.civl_followed.specs.inner.Frames.{IsKept};

use civl_meaning::remaining::rest_at;
use civl_meaning::{Activation, Config, Running};
use civl_shadows::frames::frame_at;
use civl_shadows::notes::at_yield;
use civl_tree::{List, Memory, Program};
use std::alloc::Global;

/// Whether the thread with this number stands inside a block.
pub fn is_inside(
    alloc: Global,
    program: &Program,
    layer: u32,
    config: &Config,
    number: usize,
) -> Result<bool, Memory>
    requires { layer + 1 < 2 ^ 32 }
    ensures { IfOk result (λ b. b ≡ inside_at program.now layer config.now number) }
{
    match frame_at(program, layer + 1, config.threads.as_slice(), number) {
        None => Ok(false),
        Some(framed) => {
            let rest = rest_at(alloc, framed.proc, framed.frame.place)?;
            Ok(!at_yield(&rest))
        }
    }
}

/// A copy of the topmost frame of the thread with this number, where that is of a procedure of the layer above.
pub fn frame_of(
    alloc: Global,
    program: &Program,
    layer: u32,
    threads: &[Running],
    number: usize,
) -> Result<Option<Activation>, Memory>
    requires { layer + 1 < 2 ^ 32 }
    ensures { IfOk result (λ frame. IsKept program.now frame (frame_at program.now (layer + 1) threads.now number)) }
{
    match frame_at(program, layer + 1, threads, number) {
        None => Ok(None),
        Some(framed) => {
            let frame = framed.frame;
            let locals = Vec::from_slice(alloc, frame.locals.as_slice())?;
            Ok(Some(Activation {
                procedure: frame.procedure,
                place: frame.place,
                locals: List::from_vec(locals),
            }))
        }
    }
}

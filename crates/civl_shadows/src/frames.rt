//! Frames of a layer's procedures.
ghost use Rattle.std.specs.Prelude.{◌≡◌, slice_get};
ghost use Rattle.civl_conditions.specs.Assumed.{inputs_of};
ghost use Rattle.civl_conditions.specs.Steps.{has_layer};
ghost use Rattle.civl_reduction.specs.blocks.Blocks.{framed_in, frame_of_layer};
ghost use Rattle.civl_reduction.specs.blocks.Cuts.{frame_at};
ghost use Rattle.civl_shadows.specs.Frames.{framed_of};

use civl_bits::Value;
use civl_meaning::slices::first;
use civl_meaning::{Activation, Running, State};
use civl_tree::{Proc, Program};

/// A frame with its procedure.
#[derive(Clone, Copy)]
pub struct Framed<'a> {
    pub proc: &'a Proc,
    pub frame: &'a Activation,
}

/// Whether a procedure is of this layer.
pub fn has_layer(layer: u32, proc: &Proc) -> bool
    ensures { result ≡ has_layer layer proc.now }
{
    match &proc.refines {
        None => false,
        Some(refines) => refines.layer == layer,
    }
}

/// A frame with its procedure, where that is of this layer.
fn in_layer<'a>(program: &'a Program, layer: u32, frame: &'a Activation) -> Option<Framed<'a>>
    ensures { framed_of result ≡ framed_in layer frame.now (slice_get program.now.procs frame.now.procedure) }
{
    let procs = program.procs.as_slice();
    if frame.procedure >= procs.len() {
        return None;
    }
    let proc = &procs[frame.procedure];
    if has_layer(layer, proc) {
        Some(Framed { proc, frame })
    } else {
        None
    }
}

/// The topmost frame of a thread with its procedure, where that is of this layer.
pub fn frame_of_layer<'a>(
    program: &'a Program,
    layer: u32,
    thread: &'a Running,
) -> Option<Framed<'a>>
    ensures { framed_of result ≡ frame_of_layer program.now layer thread.now }
{
    match &thread.state {
        State::Before | State::After => None,
        State::Inside(_, frame) => in_layer(program, layer, frame),
    }
}

/// The same of the thread with this number, if there is one.
pub fn frame_at<'a>(
    program: &'a Program,
    layer: u32,
    threads: &'a [Running],
    number: usize,
) -> Option<Framed<'a>>
    ensures { framed_of result ≡ frame_at program.now layer threads.now number }
{
    if number < threads.len() {
        frame_of_layer(program, layer, &threads[number])
    } else {
        None
    }
}

/// The parameters among a frame's locals.
pub fn inputs<'a>(proc: &Proc, locals: &'a [Value]) -> &'a [Value]
    ensures { result.now ≡ inputs_of proc.now locals.now }
{
    first(locals, proc.params.len())
}

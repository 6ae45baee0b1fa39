// The end of a block, and what follows it.
ghost use Rattle.std.specs.Prelude.{◌≡◌, ◌+◌, ◌++◌, ◌∷◌, [], ◌<◌, ◌^◌, true, false, Option, Some, slice_get, IfOk, OnOk};
ghost use Rattle.civl_tree.specs.declared.program.Proc.{Proc};
ghost use Rattle.civl_meaning.specs.declared.config.Config.{Config as Place};
ghost use Rattle.civl_meaning.specs.declared.config.Stepped.TheVariants.{Moved};
ghost use Rattle.civl_meaning.specs.Layers.{program_at};
ghost use Rattle.civl_meaning.specs.Step.{step_of};
ghost use Rattle.civl_meaning.specs.Table.{ArePlaces};
ghost use Rattle.civl_tree.specs.declared.program.Program.{Program as Tree};
ghost use Rattle.civl_meaning.specs.declared.config.Activation.{Activation as Frame};
ghost use Rattle.civl_reduction.specs.blocks.Shadow.{merged};
ghost use Rattle.civl_reduction.specs.simulation.Refined.{last_frame};
ghost use Rattle.civl_followed.specs.inner.Frames.{IsKept};
ghost use Rattle.civl_followed.specs.inner.Along.{IsChosen, Closes};

use crate::acting::Done;
use crate::blocks::frame_of;
use crate::choosing::choose;
use crate::opening::done_at;
use crate::walk::{Opening, Walk};
use civl_bits::Value;
use civl_firing::Store;
use civl_meaning::copying::copied;
use civl_meaning::{Activation, Move, Places, Plain, step};
use civl_shadows::merged;
use civl_tree::{List, Memory, Program};
use std::alloc::Global;

/// Makes a move of the program of the next layer.
fn make(
    alloc: Global,
    upper: &Plain,
    places: &Places<'_>,
    walk: &mut Walk,
    chosen: Move,
) -> Result<(), Memory>
    requires { ArePlaces upper.now places.now }
    ensures lower { walk.new.lower ≡ walk.old.lower }
    ensures upper { OnOk result ((y : Place) → step_of upper.now walk.old.upper chosen ≡ (Moved, y) → walk.new.upper ≡ y) }
    ensures followed { OnOk result (walk.new.followed.items ≡ walk.old.followed.items ++ chosen ∷ []) }
{
    step(alloc, &mut walk.upper, upper, places, &chosen)?;
    walk.followed.push(chosen)?;
    Ok(())
}

/// The choices of the move that follows a block with a new commit, whose frame was this one.
fn choices_of(
    alloc: Global,
    program: &Program,
    layer: u32,
    walk: &Walk,
    opening: &Opening,
    frame: &Activation,
) -> Result<List<Value>, Memory>
    requires few { layer + 1 < 2 ^ 32 }
    ensures { IfOk result (λ vs. (proc : Proc) → slice_get program.now.procs frame.now.procedure ≡ Some proc → IsChosen program.now layer (proc, frame.now) opening.now (merged program.now layer walk.now.lower.config.store walk.now.lower.shadow.store) vs) }
{
    let procs = program.procs.as_slice();
    if frame.procedure >= procs.len() {
        return Ok(List::new(alloc));
    }
    let globals = program.globals.as_slice();
    let lower = &walk.lower;
    let values = merged(
        alloc,
        globals,
        layer,
        &lower.config.store,
        &lower.shadow.store,
    )?;
    let after = Store {
        values: List::from_vec(values),
    };
    let done = Done {
        program,
        layer,
        proc: &procs[frame.procedure],
        locals: frame.locals.as_slice(),
        before: &opening.store,
        after: &after,
    };
    let chosen = choose(alloc, &done, &opening.offered)?;
    Ok(chosen)
}

/// The first frame, or the second where there is none.
fn last_of(now: Option<Activation>, before: Option<Activation>) -> Option<Activation>
    ensures { (program : Tree) (first second : Option (Proc × Frame)) → IsKept program now first → IsKept program before second → IsKept program result (last_frame first second) }
{
    match now {
        None => before,
        Some(frame) => Some(frame),
    }
}

/// Whether two truth values are the same.
fn is_same(a: bool, b: bool) -> bool
    ensures yes { result ≡ true → a ≡ b }
    ensures no { result ≡ false → a ≡ b → ⊥ }
{
    a == b
}

/// Follows a block with this beginning, which this move has just ended. Before the move its thread had this frame of a procedure
/// of the layer above, if any.
pub fn close(
    alloc: Global,
    program: &Program,
    layer: u32,
    upper: &Plain,
    places: &Places<'_>,
    walk: &mut Walk,
    opening: &Opening,
    before: Option<Activation>,
    last: &Move,
) -> Result<(), Memory>
    requires few { layer + 1 < 2 ^ 32 }
    requires upper { upper.now ≡ program_at program.now (layer + 1) }
    requires places { ArePlaces upper.now places.now }
    ensures closes { OnOk result (Closes program.now layer walk.old walk.new opening.now before last.now) }
    ensures lower { walk.new.lower ≡ walk.old.lower }
{
    let number = last.thread as usize;
    let threads = walk.lower.config.threads.as_slice();
    let now = frame_of(alloc, program, layer, threads, number)?;
    match last_of(now, before) {
        None => {
            let same = copied(alloc, last)?;
            make(alloc, upper, places, walk, same)?;
            Ok(())
        }
        Some(frame) => {
            let done = done_at(&walk.lower.shadow.done, number);
            if is_same(done, opening.done) {
                return Ok(());
            }
            let choices = choices_of(alloc, program, layer, walk, opening, &frame)?;
            let chosen = Move {
                thread: last.thread,
                choices,
            };
            make(alloc, upper, places, walk, chosen)?;
            Ok(())
        }
    }
}

// Moves that are joined to a block run.
ghost use Rattle.std.specs.Prelude.{◌≡◌, ◌+◌, ◌≤◌, ◌∷◌, [], ◌++◌, true, false, List, Some, None, length, IfOk, OnOk, All};
ghost use Rattle.civl_meaning.specs.declared.config.Config.{Config as There};
ghost use Rattle.civl_meaning.specs.declared.config.Move.{Move as Given};
ghost use Rattle.civl_meaning.specs.Failing.{IsMove};
ghost use Rattle.civl_reduction.specs.interleavings.Runs.{BlocksTo, Opens};
ghost use Rattle.civl_reduction.specs.gathering.Gathered.{own};
ghost use Rattle.civl_reduction.specs.gathered.Laws.{by_thread};
ghost use Rattle.civl_blocked.specs.inner.Arranged.{IsLonger, IsCalm, IsHard};
ghost use Rattle.civl_blocked.specs.Blocked.{IsTurned};
ghost use Rattle.civl_blocked.specs.inner.Segments.{IsGround, over, program_of};
ghost use Rattle.civl_blocked.specs.inner.Turning.{IsBeside, Standing, ended};

use crate::ground::Ground;
use crate::place::{is_inside, place_at};
use civl_meaning::Move;
use civl_meaning::copying::copied;
use civl_shadows::{Shadowed, is_challenged, shadowed_step};
use civl_tree::Memory;
use std::alloc::Global;

/// Joins one more move to the block run.
pub fn join(
    alloc: Global,
    ground: &Ground<'_, '_, '_>,
    done: &mut Vec<Move>,
    beside: &mut Shadowed,
    chosen: &Move,
) -> Result<(), Memory>
    requires ground { IsGround ground.now }
    requires runs { (d : There) × ((over ground.now).step beside.old.config chosen.now ≡ Some d) }
    requires beside { IsBeside ground.now done.old.items beside.old }
    ensures done { OnOk result (done.new.items ≡ done.old.items ++ chosen.now ∷ []) }
    ensures step { OnOk result ((over ground.now).step beside.old.config chosen.now ≡ Some beside.new.config) }
    ensures beside { OnOk result (IsBeside ground.now done.new.items beside.new) }
{
    shadowed_step(
        alloc,
        ground.plain,
        ground.places,
        ground.layer,
        beside,
        chosen,
    )?;
    let copy = copied(alloc, chosen)?;
    done.push(copy)?;
    Ok(())
}

/// Joins the moves of this thread to the block run.
pub fn join_own(
    alloc: Global,
    ground: &Ground<'_, '_, '_>,
    done: &mut Vec<Move>,
    beside: &mut Shadowed,
    thread: u32,
    moves: &[Move],
) -> Result<(), Memory>
    requires ground { IsGround ground.now }
    requires runs { (x : There) × Opens (over ground.now) thread (own by_thread thread moves.now) beside.old.config x }
    requires beside { IsBeside ground.now done.old.items beside.old }
    ensures done { OnOk result (done.new.items ≡ done.old.items ++ own by_thread thread moves.now) }
    ensures opens { OnOk result (Opens (over ground.now) thread (own by_thread thread moves.now) beside.old.config beside.new.config) }
    ensures beside { OnOk result (IsBeside ground.now done.new.items beside.new) }
{
    for chosen in moves {
        if chosen.thread != thread {
            continue;
        }
        join(alloc, ground, done, beside, chosen)?;
    }
    Ok(())
}

/// Whether a block run is challenged behind a step of this thread that leaves it between blocks.
fn ends_challenged(
    alloc: Global,
    ground: &Ground<'_, '_, '_>,
    beside: &Shadowed,
    thread: u32,
) -> Result<bool, Memory>
    requires ground { IsGround ground.now }
    requires one_each { length beside.now.shadow.done.items ≡ length beside.now.config.threads }
    ensures calm { IfOk result (λ b. b ≡ false → (ms : List Given) → IsBeside ground.now ms beside.now → IsCalm ground.now beside.now.config thread ms) }
    ensures hard { IfOk result (λ b. b ≡ true → (ms : List Given) → IsBeside ground.now ms beside.now → IsHard ground.now beside.now.config thread ms) }
{
    civl_reduction::gathered::laws::places_stay();
    let program = &ground.plain.program;
    let place = place_at(alloc, program, ground.layer, &beside.config, thread)?;
    if is_inside(place) {
        return Ok(false);
    }
    let challenged = is_challenged(alloc, ground.plain, ground.layer, beside)?;
    Ok(challenged)
}

/// Joins whole blocks to the block run, up to the first one behind which it is challenged. Whether it is.
pub fn join_blocks(
    alloc: Global,
    ground: &Ground<'_, '_, '_>,
    done: &mut Vec<Move>,
    beside: &mut Shadowed,
    blocks: &[Move],
) -> Result<bool, Memory>
    requires ground { IsGround ground.now }
    requires standing { Standing ground.now done.old.items None beside.old }
    requires runs { (e : There) × BlocksTo (over ground.now) None blocks.now beside.old.config None e }
    requires moves { All IsMove blocks.now }
    ensures goes { IfOk result (λ challenged. challenged ≡ false → IsLonger ground.now done.old.items done.new.items beside.old beside.new blocks.now) }
    ensures done { IfOk result (λ challenged. challenged ≡ true → (given : List Given) → ended ground.now done.old.items + length blocks.now ≤ length given → IsTurned (program_of ground.now) ground.now.layer ground.now.store.now given done.new.items) }
{
    civl_reduction::gathered::laws::places_stay();
    for chosen in blocks {
        join(alloc, ground, done, beside, chosen)?;
        if ends_challenged(alloc, ground, beside, chosen.thread)? {
            return Ok(true);
        }
    }
    Ok(false)
}

// A failing block run is followed.
ghost use Rattle.std.specs.Prelude.{ℕ, ◌≡◌, ◌+◌, ◌<◌, ◌≤◌, ◌^◌, [], length, IfOk, OnOk};
ghost use Rattle.civl_meaning.specs.Step.{start};
ghost use Rattle.civl_reduction.specs.blocks.Shadow.{shadowed_start};
ghost use Rattle.civl_meaning.specs.Layers.{program_at};
ghost use Rattle.civl_meaning.specs.Table.{ArePlaces};
ghost use Rattle.civl_reduction.specs.checked.Checked.{IsChecked};
ghost use Rattle.civl_shadows.specs.Shadows.{IsLayerOf, Shows};
ghost use Rattle.civl_followed.specs.Followed.{FailsInBlocks, FollowsBlocks};
ghost use Rattle.civl_followed.specs.inner.Along.{Grounds, FollowsOne, FollowsAll};

use crate::blocks::{frame_of, is_inside};
use crate::closing::close;
use crate::opening::open;
use crate::walk::Walk;
use civl_firing::Store;
use civl_layers::{Layered, at};
use civl_meaning::{Move, Places, Plain, places_of, start};
use civl_shadows::{is_challenged, shadowed_start, shadowed_step};
use civl_tree::{List, Memory};
use std::alloc::Global;

/// Follows the block that begins with the move at this place. The answer is the place behind its last one.
fn follow_block(
    alloc: Global,
    lower: &Plain,
    lower_places: &Places<'_>,
    upper: &Plain,
    upper_places: &Places<'_>,
    layer: u32,
    walk: &mut Walk,
    moves: &[Move],
    from: usize,
) -> Result<usize, Memory>
    requires few { layer + 1 < 2 ^ 32 }
    requires lower { IsLayerOf lower.now layer }
    requires lower_places { ArePlaces lower.now lower_places.now }
    requires upper { upper.now ≡ program_at lower.now.program (layer + 1) }
    requires upper_places { ArePlaces upper.now upper_places.now }
    requires one_each { length walk.old.lower.shadow.done.items ≡ length walk.old.lower.config.threads }
    requires there { from < length moves.now }
    ensures on { IfOk result (λ next. (from < next) × (next ≤ length moves.now)) }
    ensures follows { IfOk result (λ next. FollowsOne lower.now.program layer moves.now walk.old walk.new from next) }
    ensures one_each { OnOk result (length walk.new.lower.shadow.done.items ≡ length walk.new.lower.config.threads) }
{
    let program = &lower.program;
    let opening = open(
        alloc,
        program,
        layer,
        &walk.lower,
        moves[from].thread as usize,
    )?;
    for at in from..moves.len() {
        let one = &moves[at];
        let number = one.thread as usize;
        let threads = walk.lower.config.threads.as_slice();
        let before = frame_of(alloc, program, layer, threads, number)?;
        shadowed_step(alloc, lower, lower_places, layer, &mut walk.lower, one)?;
        if !is_inside(alloc, program, layer, &walk.lower.config, number)? {
            close(
                alloc,
                program,
                layer,
                upper,
                upper_places,
                walk,
                &opening,
                before,
                one,
            )?;
            return Ok(at + 1);
        }
    }
    Ok(moves.len())
}

/// Follows a block run, block by block, up to the first place where it is challenged.
fn follow_all(
    alloc: Global,
    lower: &Plain,
    lower_places: &Places<'_>,
    upper: &Plain,
    upper_places: &Places<'_>,
    layer: u32,
    walk: &mut Walk,
    moves: &[Move],
) -> Result<(), Memory>
    requires few { layer + 1 < 2 ^ 32 }
    requires lower { IsLayerOf lower.now layer }
    requires lower_places { ArePlaces lower.now lower_places.now }
    requires upper { upper.now ≡ program_at lower.now.program (layer + 1) }
    requires upper_places { ArePlaces upper.now upper_places.now }
    requires one_each { length walk.old.lower.shadow.done.items ≡ length walk.old.lower.config.threads }
    ensures { OnOk result (FollowsAll lower.now.program layer moves.now walk.old walk.new) }
{
    let mut at = 0;
    while at < moves.len() {
        if is_challenged(alloc, lower, layer, &walk.lower)? {
            return Ok(());
        }
        at = follow_block(
            alloc,
            lower,
            lower_places,
            upper,
            upper_places,
            layer,
            walk,
            moves,
            at,
        )?;
    }
    Ok(())
}

/// Where following begins.
fn begin(alloc: Global, lower: &Plain, upper: &Plain, store: &Store) -> Result<Walk, Memory>
    ensures lower { IfOk result (λ walk. (layer : ℕ) → IsLayerOf lower.now layer → Shows walk.lower (shadowed_start lower.now.program layer store.now)) }
    ensures upper { IfOk result (λ walk. walk.upper ≡ start upper.now store.now) }
    ensures followed { IfOk result (λ walk. walk.followed.items ≡ []) }
{
    let upper = start(alloc, upper, store)?;
    let lower = shadowed_start(alloc, lower, store)?;
    Ok(Walk {
        lower,
        upper,
        followed: Vec::new(alloc),
    })
}

/// Follows a failing block run of the first program by a run of the second.
fn follow_in(
    alloc: Global,
    lower: &Plain,
    upper: &Plain,
    layer: u32,
    store: &Store,
    moves: &[Move],
) -> Result<List<Move>, Memory>
    requires few { layer + 1 < 2 ^ 32 }
    requires lower { IsLayerOf lower.now layer }
    requires upper { upper.now ≡ program_at lower.now.program (layer + 1) }
    ensures { IfOk result (λ followed. Grounds lower.now.program layer store.now → FailsInBlocks lower.now.program layer store.now moves.now → FollowsBlocks lower.now.program layer store.now moves.now followed) }
{
    let lower_places = places_of(alloc, lower)?;
    let upper_places = places_of(alloc, upper)?;
    let mut walk = begin(alloc, lower, upper, store)?;
    follow_all(
        alloc,
        lower,
        &lower_places,
        upper,
        &upper_places,
        layer,
        &mut walk,
        moves,
    )?;
    Ok(List::from_vec(walk.followed))
}

/// Follows a failing block run: the moves are a block run of the program of a layer of a checked program, from an initial store,
/// which ends failing or challenged. The answer runs from this store in the program of the next layer to a failing configuration,
/// and has at most as many moves as the block run has blocks.
///
/// # Errors
///
/// For want of memory.
pub fn follow(
    alloc: Global,
    src: &Layered,
    layer: u32,
    store: &Store,
    moves: &List<Move>,
) -> Result<List<Move>, Memory>
    requires checked { IsChecked src.now layer store.now }
    requires fails { FailsInBlocks src.now layer store.now moves.now }
    ensures { IfOk result (λ followed. FollowsBlocks src.now layer store.now moves.now followed) }
{
    civl_reduction::checked::laws::checked();
    civl_reduction::simulation::laws::blocks_are_sound();
    let lower = at(alloc, src, layer)?;
    let upper = at(alloc, src, layer + 1)?;
    let followed = follow_in(alloc, &lower, &upper, layer, store, moves.as_slice())?;
    Ok(followed)
}

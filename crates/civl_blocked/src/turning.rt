// A failing run is turned into a block run, block by block.
ghost use Rattle.std.specs.Prelude.{ℕ, ◌≡◌, ◌+◌, ◌<◌, ◌≤◌, ◌++◌, List, Some, None, length, drop, IfOk, OnOk, IsTrue};
ghost use Rattle.std.specs.VecDeque.{deque_len};
ghost use Rattle.civl_reduction.specs.gathered.Laws.{by_thread};
ghost use Rattle.civl_blocked.specs.inner.Arranged.{IsArranged};
ghost use Rattle.civl_meaning.specs.declared.config.Move.{Move as Given};
ghost use Rattle.civl_reduction.specs.gathering.Gathered.{others};
ghost use Rattle.civl_blocked.specs.inner.Segments.{IsGround, program_of, Gathered};
ghost use Rattle.civl_blocked.specs.declared.turning.Next.TheVariants.{Goes, Done};
ghost use Rattle.civl_blocked.specs.Blocked.{IsBlocked};
ghost use Rattle.civl_blocked.specs.inner.Turning.{IsTurning, IsGoing, IsNext, IsGathering, IsShortening, IsFinishing, HasRoom, whole_of, part_of, measure};

use crate::arranging::Arranged;
use crate::blocked::Blocked;
use crate::completing::{Completed, complete};
use crate::copying::queue;
use crate::gathering::gathers;
use crate::ground::Ground;
use crate::joining::{join, join_blocks, join_own};
use crate::pacing::{Pace, arrange};
use crate::place::{is_late, place_at};
use crate::segment::Segment;
use crate::shortening::shortened;
use crate::stepping::failing_in;
use crate::walking::{Walked, to_end, to_turn};
use civl_meaning::copying::copied;
use civl_meaning::{Config, Move};
use civl_shadows::{Shadowed, is_challenged};
use civl_tree::{List, Memory};
use std::alloc::Global;
use std::collections::VecDeque;

/// So many steps are added to a block that the moves leave unfinished.
pub const STEPS: u32 = 1_000_000;

/// A run on its way to a block run.
#[derive(Drop)]
pub struct Turning {
    /// The moves of the block run so far, and of the block that is open.
    pub done: Vec<Move>,
    /// Where they lead, and the shadow beside them.
    pub beside: Shadowed,
    /// The moves that are still to come.
    pub rest: VecDeque<Move>,
    /// The thread whose block is open, if one is.
    pub open: Option<u32>,
    /// How many moves are arranged at once.
    pub pace: Pace,
}

/// What comes next.
#[derive(Drop)]
pub enum Next {
    /// More of the same.
    Goes,
    /// Nothing: the block run fails or is challenged.
    Done,
    /// The thread's block is open, and isn't ended by its next steps; these moves lead to where that is so.
    Spent(u32, Vec<Move>),
}

/// Puts the moves of the other threads in front of what is still to come.
fn put_back(
    alloc: Global,
    rest: &mut VecDeque<Move>,
    thread: u32,
    moves: &[Move],
) -> Result<(), Memory>
    ensures { OnOk result (rest.new.items ≡ others by_thread thread moves.now ++ rest.old.items) }
{
    for at in (0..moves.len()).rev() {
        let chosen = &moves[at];
        if chosen.thread != thread {
            let copy = copied(alloc, chosen)?;
            rest.push_front(copy)?;
        }
    }
    Ok(())
}

/// Joins a segment's moves of this thread to the block run, and puts the others back. Whether the block run is then challenged.
fn take_in(
    alloc: Global,
    ground: &Ground<'_, '_, '_>,
    turning: &mut Turning,
    thread: u32,
    segment: &Segment,
) -> Result<bool, Memory>
    requires ground { IsGround ground.now }
    requires gathering { IsGathering ground.now turning.old thread segment.now turning.old.rest.items }
    requires gathered { Gathered ground.now turning.old.beside.config thread segment.now }
    ensures going { IfOk result (λ challenged. (IsTrue challenged → ⊥) → (bound before : ℕ) → HasRoom ground.now bound before turning.old (whole_of segment.now turning.old.rest.items) (part_of thread segment.now turning.old.rest.items) → IsNext ground.now bound before turning.new Goes) }
    ensures done { IfOk result (λ challenged. IsTrue challenged → (bound before : ℕ) → HasRoom ground.now bound before turning.old (whole_of segment.now turning.old.rest.items) (part_of thread segment.now turning.old.rest.items) → IsNext ground.now bound before turning.new Done) }
{
    civl_reduction::gathered::laws::places_stay();
    let moves = segment.moves.as_slice();
    join_own(
        alloc,
        ground,
        &mut turning.done,
        &mut turning.beside,
        thread,
        moves,
    )?;
    join(
        alloc,
        ground,
        &mut turning.done,
        &mut turning.beside,
        &segment.last,
    )?;
    put_back(alloc, &mut turning.rest, thread, moves)?;
    let program = &ground.plain.program;
    let place = place_at(alloc, program, ground.layer, &turning.beside.config, thread)?;
    if is_late(place) {
        turning.open = Some(thread);
        return Ok(false);
    }
    turning.open = None;
    let challenged = is_challenged(alloc, ground.plain, ground.layer, &turning.beside)?;
    Ok(challenged)
}

/// Goes on with a shorter rest that fails.
fn shorten(
    alloc: Global,
    ground: &Ground<'_, '_, '_>,
    turning: &mut Turning,
    thread: u32,
    moves: &[Move],
) -> Result<Next, Memory>
    requires ground { IsGround ground.now }
    requires shortening { IsShortening ground.now turning.old thread moves.now }
    ensures { IfOk result (λ next. (bound before : ℕ) → HasRoom ground.now bound before turning.old (length moves.now) (length (others by_thread thread moves.now)) → IsNext ground.now bound before turning.new next) }
{
    let config = &turning.beside.config;
    let shorter = shortened(alloc, ground, config, thread, moves)?;
    turning.rest = queue(alloc, &shorter)?;
    turning.pace = Pace::full();
    Ok(Next::Goes)
}

/// Gathers the moves of this thread at the front of a segment, or goes on with a shorter rest.
fn gather(
    alloc: Global,
    ground: &Ground<'_, '_, '_>,
    turning: &mut Turning,
    thread: u32,
    segment: Segment,
) -> Result<Next, Memory>
    requires ground { IsGround ground.now }
    requires gathering { IsGathering ground.now turning.old thread segment turning.old.rest.items }
    ensures { IfOk result (λ next. (bound before : ℕ) → HasRoom ground.now bound before turning.old (whole_of segment turning.old.rest.items) (part_of thread segment turning.old.rest.items) → IsNext ground.now bound before turning.new next) }
{
    if gathers(alloc, ground, &turning.beside.config, thread, &segment)? {
        if take_in(alloc, ground, turning, thread, &segment)? {
            return Ok(Next::Done);
        }
        return Ok(Next::Goes);
    }
    let Segment {
        mut moves,
        last,
        end: _,
    } = segment;
    moves.push(last)?;
    let next = shorten(alloc, ground, turning, thread, &moves)?;
    Ok(next)
}

/// Completes the block that is open, which these moves leave unfinished, and gathers its moves.
fn finish(
    alloc: Global,
    ground: &Ground<'_, '_, '_>,
    turning: &mut Turning,
    thread: u32,
    moves: Vec<Move>,
    end: Config,
) -> Result<Next, Memory>
    requires ground { IsGround ground.now }
    requires finishing { IsFinishing ground.now turning.old thread moves.items end }
    ensures { IfOk result (λ next. (bound before : ℕ) → HasRoom ground.now bound before turning.old (length moves.items) (length (others by_thread thread moves.items)) → IsNext ground.now bound before turning.new next) }
{
    civl_reduction::gathered::laws::places_stay();
    civl_reduction::gathered::laws::moves_gather();
    civl_reduction::gathered::laws::moves_stop();
    civl_reduction::gathered::laws::late_threads_step();
    let Some(failing) = failing_in(ground, &end)? else {
        unreachable!()
    };
    if failing == thread {
        let next = shorten(alloc, ground, turning, thread, &moves)?;
        return Ok(next);
    }
    match complete(alloc, ground, thread, moves, end, STEPS)? {
        Completed::Whole(segment) => gather(alloc, ground, turning, thread, segment),
        Completed::Stopped(moves) => shorten(alloc, ground, turning, thread, &moves),
        Completed::Spent(moves) => Ok(Next::Spent(thread, moves)),
    }
}

/// Goes on to the end of the block that is open.
fn go_late(
    alloc: Global,
    ground: &Ground<'_, '_, '_>,
    turning: &mut Turning,
    thread: u32,
) -> Result<Next, Memory>
    requires ground { IsGround ground.now }
    requires going { IsGoing ground.now turning.old }
    requires open { turning.old.open ≡ Some thread }
    ensures { IfOk result (λ next. (bound : ℕ) → IsTurning ground.now bound turning.old → IsNext ground.now bound (measure ground.now turning.old) turning.new next) }
{
    civl_reduction::gathered::laws::places_stay();
    civl_reduction::gathered::laws::moves_gather();
    match to_end(
        alloc,
        ground,
        &turning.beside.config,
        thread,
        &mut turning.rest,
    )? {
        Walked::To(segment) => gather(alloc, ground, turning, thread, segment),
        Walked::Past(moves, end) => finish(alloc, ground, turning, thread, moves, end),
    }
}

/// Puts these moves in the place of the first ones of the rest, so many.
fn put_others(rest: &mut VecDeque<Move>, count: usize, others: Vec<Move>) -> Result<(), Memory>
    requires { count ≤ deque_len rest.old }
    ensures { OnOk result (rest.new.items ≡ others.items ++ drop count rest.old.items) }
{
    let mut behind = rest.split_off(count)?;
    let mut whole = VecDeque::from(others);
    whole.append(&mut behind)?;
    *rest = whole;
    Ok(())
}

/// Goes on by whole blocks that stand, with the others behind them, for the first moves of the rest.
fn take_blocks(
    alloc: Global,
    ground: &Ground<'_, '_, '_>,
    turning: &mut Turning,
    arranged: Arranged,
) -> Result<Next, Memory>
    requires ground { IsGround ground.now }
    requires going { IsGoing ground.now turning.old }
    requires open { turning.old.open ≡ None }
    requires arranged { IsArranged ground.now turning.old.beside.config turning.old.rest.items arranged }
    ensures { IfOk result (λ next. (bound : ℕ) → IsTurning ground.now bound turning.old → IsNext ground.now bound (measure ground.now turning.old) turning.new next) }
{
    let Arranged { blocks, others } = arranged;
    let count = blocks.len() + others.len();
    let challenged = join_blocks(
        alloc,
        ground,
        &mut turning.done,
        &mut turning.beside,
        &blocks,
    )?;
    if challenged {
        return Ok(Next::Done);
    }
    put_others(&mut turning.rest, count, others)?;
    Ok(Next::Goes)
}

/// Goes on to the next turn of a block, where none is open.
fn go_early(
    alloc: Global,
    ground: &Ground<'_, '_, '_>,
    turning: &mut Turning,
) -> Result<Next, Memory>
    requires ground { IsGround ground.now }
    requires going { IsGoing ground.now turning.old }
    requires open { turning.old.open ≡ None }
    ensures { IfOk result (λ next. (bound : ℕ) → IsTurning ground.now bound turning.old → IsNext ground.now bound (measure ground.now turning.old) turning.new next) }
{
    civl_reduction::gathered::laws::moves_gather();
    civl_reduction::gathered::laws::moves_stop();
    if failing_in(ground, &turning.beside.config)?.is_some() {
        return Ok(Next::Done);
    }
    let whole = arrange(
        alloc,
        ground,
        &turning.beside.config,
        &turning.rest,
        &mut turning.pace,
    )?;
    if let Some(arranged) = whole {
        let next = take_blocks(alloc, ground, turning, arranged)?;
        return Ok(next);
    }
    match to_turn(alloc, ground, &turning.beside.config, &mut turning.rest)? {
        Walked::To(segment) => {
            let thread = segment.last.thread;
            gather(alloc, ground, turning, thread, segment)
        }
        Walked::Past(moves, end) => {
            let Some(thread) = failing_in(ground, &end)? else {
                unreachable!()
            };
            shorten(alloc, ground, turning, thread, &moves)
        }
    }
}

/// Goes on by one block, or by a shorter rest.
fn go_on(alloc: Global, ground: &Ground<'_, '_, '_>, turning: &mut Turning) -> Result<Next, Memory>
    requires ground { IsGround ground.now }
    requires going { IsGoing ground.now turning.old }
    ensures { IfOk result (λ next. (bound : ℕ) → IsTurning ground.now bound turning.old → IsNext ground.now bound (measure ground.now turning.old) turning.new next) }
{
    match turning.open {
        None => go_early(alloc, ground, turning),
        Some(thread) => go_late(alloc, ground, turning, thread),
    }
}

/// Turns a failing run into a block run.
pub fn turn(alloc: Global, ground: &Ground<'_, '_, '_>, turning: Turning) -> Result<Blocked, Memory>
    requires ground { IsGround ground.now }
    requires going { IsGoing ground.now turning }
    ensures { IfOk result (λ blocked. (given : List Given) → IsTurning ground.now (length given) turning → IsBlocked (program_of ground.now) ground.now.layer ground.now.store.now 1000000 given blocked) }
{
    let mut turning = turning;
    loop {
        match go_on(alloc, ground, &mut turning)? {
            Next::Goes => {}
            Next::Done => return Ok(Blocked::Run(List::from_vec(turning.done))),
            Next::Spent(thread, mut moves) => {
                turning.done.append(&mut moves)?;
                return Ok(Blocked::Spent(thread, List::from_vec(turning.done)));
            }
        }
    }
}

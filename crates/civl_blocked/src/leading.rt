// Whether arranged moves lead to the same end.
ghost use Rattle.std.specs.Prelude.{◌≡◌, ◌+◌, ◌<◌, ◌≤◌, drop, length, None, IfOk, OnOk, IsTrue, All};
ghost use Rattle.std.specs.VecDeque.{deque_len};
ghost use Rattle.civl_bits.specs.Value.{IsValue};
ghost use Rattle.civl_meaning.specs.Failing.{IsMove};
ghost use Rattle.civl_reduction.specs.interleavings.Runs.{SystemRuns, BlocksTo, MayStep, opened};
ghost use Rattle.civl_reduction.specs.interleavings.Reduction.{is_inside};
ghost use Rattle.civl_blocked.specs.inner.Places.{place_of};
ghost use Rattle.civl_blocked.specs.inner.Segments.{IsGround, over, FailsTo};
ghost use Rattle.civl_blocked.specs.inner.Arranged.{Leads, IsFound};

use crate::arranging::{Arranged, by_turns};
use crate::ground::Ground;
use crate::place::{Place, is_inside};
use crate::stepping::{advanced, moved, passed};
use civl_bits::Value;
use civl_meaning::{Config, Move, copy_config, same};
use civl_tree::Memory;
use std::alloc::Global;
use std::collections::VecDeque;

/// What comes of arranging the first moves.
#[derive(Drop)]
pub enum Found {
    /// Whole blocks, with the others behind them, that lead to the same end.
    Whole(Arranged),
    /// No block ends among them.
    Nothing,
    /// They don't lead to the same end.
    Elsewhere,
}

/// A value is one of its sort.
fn is_value(value: &Value)
    ensures { IsValue value.now }
{
    match value {
        Value::Bool(_) => {}
        Value::Word(word) => {
            let _width = word.width();
        }
        Value::Row(row) => {
            let _width = row.width();
        }
    }
}

/// Values are values of their sorts.
fn are_values(values: &[Value])
    ensures { All IsValue values.now }
{
    for value in values {
        is_value(value);
    }
}

/// The choices of moves are values of their sorts.
fn are_moves(moves: &[Move])
    ensures { All IsMove moves.now }
{
    for chosen in moves {
        are_values(chosen.choices.as_slice());
    }
}

/// Runs so many first moves, and tells where each leaves its thread.
fn places_along(
    alloc: Global,
    ground: &Ground<'_, '_, '_>,
    config: &mut Config,
    rest: &VecDeque<Move>,
    count: usize,
) -> Result<Vec<Place>, Memory>
    requires ground { IsGround ground.now }
    requires fails { FailsTo (over ground.now) rest.now.items config.old }
    requires there { count ≤ deque_len rest.now }
    ensures fails { OnOk result (FailsTo (over ground.now) (drop count rest.now.items) config.new) }
    ensures one_each { IfOk result (λ places. length places.items ≡ count) }
{
    let mut places = Vec::new(alloc);
    for at in 0..count {
        let place = passed(alloc, ground, config, &rest[at])?;
        places.push(place)?;
    }
    Ok(places)
}

/// Whether this thread may step where the block of that one is open, if one is.
fn may_step(owner: Option<u32>, thread: u32) -> bool
    ensures { IsTrue result → MayStep owner thread }
{
    match owner {
        None => true,
        Some(other) => thread == other,
    }
}

/// The block that is open behind a step of a thread that leaves it here.
fn opened(place: Place, thread: u32) -> Option<u32>
    ensures { result ≡ opened (is_inside (place_of place)) thread }
{
    if is_inside(place) { Some(thread) } else { None }
}

/// Runs moves, and tells whether all are made, block by block, and each block is whole.
fn runs_blocks(
    alloc: Global,
    ground: &Ground<'_, '_, '_>,
    config: &mut Config,
    blocks: &[Move],
) -> Result<bool, Memory>
    requires { IsGround ground.now }
    ensures { IfOk result (λ b. IsTrue b → BlocksTo (over ground.now) None blocks.now config.old None config.new) }
{
    civl_reduction::gathered::laws::places_stay();
    let mut owner = None;
    for chosen in blocks {
        if !may_step(owner, chosen.thread) {
            return Ok(false);
        }
        let Some(place) = advanced(alloc, ground, config, chosen)? else {
            return Ok(false);
        };
        owner = opened(place, chosen.thread);
    }
    Ok(owner.is_none())
}

/// Runs moves, and tells whether all are made.
fn runs_all(
    alloc: Global,
    ground: &Ground<'_, '_, '_>,
    config: &mut Config,
    moves: &[Move],
) -> Result<bool, Memory>
    requires { IsGround ground.now }
    ensures { IfOk result (λ b. IsTrue b → SystemRuns (over ground.now).steps moves.now config.old config.new) }
{
    for chosen in moves {
        if !moved(alloc, ground, config, chosen)? {
            return Ok(false);
        }
    }
    Ok(true)
}

/// Whether arranged moves are whole blocks, with the others behind them, and lead to this end.
fn leads(
    alloc: Global,
    ground: &Ground<'_, '_, '_>,
    from: &Config,
    arranged: &Arranged,
    end: &Config,
) -> Result<bool, Memory>
    requires { IsGround ground.now }
    ensures { IfOk result (λ b. IsTrue b → Leads ground.now from.now arranged.now end.now) }
{
    let mut config = copy_config(alloc, from)?;
    if !runs_blocks(alloc, ground, &mut config, arranged.blocks.as_slice())? {
        return Ok(false);
    }
    if !runs_all(alloc, ground, &mut config, arranged.others.as_slice())? {
        return Ok(false);
    }
    Ok(same(&config, end))
}

/// Arranges the first moves of a rest that fails, so many, and tries whether they lead to the same end.
pub fn try_blocks(
    alloc: Global,
    ground: &Ground<'_, '_, '_>,
    from: &Config,
    rest: &VecDeque<Move>,
    count: usize,
) -> Result<Found, Memory>
    requires ground { IsGround ground.now }
    requires fails { FailsTo (over ground.now) rest.now.items from.now }
    requires there { count ≤ deque_len rest.now }
    ensures { IfOk result (IsFound ground.now from.now rest.now.items) }
{
    let mut end = copy_config(alloc, from)?;
    let places = places_along(alloc, ground, &mut end, rest, count)?;
    let arranged = by_turns(alloc, rest, places.as_slice(), end.threads.len())?;
    if arranged.blocks.len() == 0 {
        return Ok(Found::Nothing);
    }
    if arranged.blocks.len() + arranged.others.len() != count {
        return Ok(Found::Elsewhere);
    }
    if !leads(alloc, ground, from, &arranged, &end)? {
        return Ok(Found::Elsewhere);
    }
    are_moves(arranged.blocks.as_slice());
    are_moves(arranged.others.as_slice());
    Ok(Found::Whole(arranged))
}

// Exchanges of moves: of neighbouring moves of two threads, and of moves that are brought to the front.

ghost use Rattle.std.specs.Prelude.{◌<◌, ℕ, All, length};
ghost use Rattle.std.specs.List.Sorted.{IsStrictlyIncreasing};

use crate::runs::{begun, moves_of, plain};
use civl_bits::{Value, Word};
use civl_meaning::{Config, Move, Plain};
use civl_reduction::{Swapped, swap, to_front};
use civl_tree::List;
use std::alloc::{AllocError, Global};

/// The first thread loads 0; the second adds twice, and gets 2; the first stores 1, and the second asserts.
const LATE_STORE: [u32; 14] = [0, 0, 0, 1, 1, 1, 1, 1, 1, 1, 1, 1, 0, 1];

/// Both threads load 0, and both store 1.
const IN_TURNS: [u32; 12] = [0, 1, 0, 1, 0, 1, 0, 1, 0, 1, 0, 1];

/// The second thread's action makes the gate of the first's false, and comes behind it.
const GATE_FIRST: [u32; 6] = [0, 1, 0, 1, 0, 1];

/// Whether the moves are of these threads.
fn are_of(moves: &List<Move>, threads: &[u32]) -> bool {
    if moves.len() != threads.len() {
        return false;
    }
    for at in 0..threads.len() {
        if moves.as_slice()[at].thread != threads[at] {
            return false;
        }
    }
    true
}

/// What is wanted of an exchange.
#[derive(Clone, Copy)]
enum Wanted<'a> {
    Same(&'a [u32]),
    Fails(&'a [u32]),
    Differs(usize),
}

/// Whether the answer is the one that is wanted.
fn is_wanted(answer: &Swapped, wanted: Wanted<'_>) -> bool {
    match answer {
        Swapped::Same(moves) => match wanted {
            Wanted::Same(threads) => are_of(moves, threads),
            _ => false,
        },
        Swapped::Fails(moves) => match wanted {
            Wanted::Fails(threads) => are_of(moves, threads),
            _ => false,
        },
        Swapped::Differs(place) => match wanted {
            Wanted::Differs(at) => *place == at,
            _ => false,
        },
    }
}

/// Whether the exchange of the moves of these threads at a place is the one that is wanted.
fn swaps(
    alloc: Global,
    plain: &Plain,
    from: &Config,
    threads: &[u32],
    place: usize,
    wanted: Wanted<'_>,
) -> Option<bool> {
    let moves = moves_of(alloc, threads)?;
    if from.threads.len() > 9 || moves.len() > 99 || place > 99 || place + 1 >= moves.len() {
        return Some(false);
    }
    let answer = swap(alloc, plain, from, &moves, place).ok()?;
    Some(is_wanted(&answer, wanted))
}

/// Whether bringing the moves at these places to the front is what is wanted.
fn fronts(
    alloc: Global,
    plain: &Plain,
    from: &Config,
    threads: &[u32],
    chosen: &List<usize>,
    wanted: Wanted<'_>,
) -> Option<bool>
    requires rising { IsStrictlyIncreasing chosen.now }
    requires exist { All (λ (place : ℕ). place < length threads.now) chosen.now }
{
    let moves = moves_of(alloc, threads)?;
    if from.threads.len() > 9 || moves.len() > 99 || moves.len() != threads.len() {
        return Some(false);
    }
    let answer = to_front(alloc, plain, from, &moves, chosen).ok()?;
    Some(is_wanted(&answer, wanted))
}

/// Loading goes before the second thread's first step, and storing doesn't go behind its assert.
fn neighbours(alloc: Global, plain: &Plain, from: &Config) -> Option<bool> {
    let loaded = [0, 0, 1, 0, 1, 1, 1, 1, 1, 1, 1, 1, 0, 1];
    let is_same = swaps(alloc, plain, from, &LATE_STORE, 2, Wanted::Same(&loaded))?;
    let is_other = swaps(alloc, plain, from, &LATE_STORE, 12, Wanted::Differs(12))?;
    Some(is_same && is_other)
}

/// The second thread's steps up to its load go to the front.
fn fronted(alloc: Global, plain: &Plain, from: &Config) -> Option<bool> {
    let first = [1, 1, 1, 0, 0, 0, 1, 1, 1, 1, 1, 1, 0, 1];
    let three = List::from_vec([3, 4, 5].to_vec(alloc).ok()?);
    fronts(
        alloc,
        plain,
        from,
        &LATE_STORE,
        &three,
        Wanted::Same(&first),
    )
}

/// Its store doesn't.
fn kept_behind(alloc: Global, plain: &Plain, from: &Config) -> Option<bool> {
    let four = List::from_vec([3, 4, 5, 6].to_vec(alloc).ok()?);
    fronts(alloc, plain, from, &LATE_STORE, &four, Wanted::Differs(5))
}

/// All of these.
fn all_exchanged(alloc: Global, plain: &Plain, from: &Config) -> Option<bool> {
    let is_near = neighbours(alloc, plain, from)?;
    let is_front = fronted(alloc, plain, from)?;
    let is_behind = kept_behind(alloc, plain, from)?;
    Some(is_near && is_front && is_behind)
}

/// The same of the program's start.
fn exchanged_from_start(alloc: Global, plain: &Plain) -> Option<bool> {
    let zero = Word::new(8, 0)?;
    let from = begun(alloc, plain, Value::Word(zero))?;
    all_exchanged(alloc, plain, &from)
}

/// Exchanges in a program of two threads that add to one number.
pub(crate) fn moves_of_additions(alloc: Global, text: &str) -> Option<bool> {
    let plain = plain(alloc, text, true, 3)?;
    exchanged_from_start(alloc, &plain)
}

/// An answer as a word: `same` where the moves come to the same end, `fails` with how many are left, or `other` with the place.
fn told(alloc: Global, answer: &Swapped) -> Result<String, AllocError> {
    match answer {
        Swapped::Same(_) => String::from_str(alloc, "same"),
        Swapped::Fails(moves) => {
            let count = moves.len();
            format!(in alloc; "fails:{count}")
        }
        Swapped::Differs(place) => format!(in alloc; "other:{place}"),
    }
}

/// Whether the answer is this in short.
fn is_told(alloc: Global, answer: &Swapped, wanted: &str) -> Option<bool> {
    let told = told(alloc, answer).ok()?;
    Some(told.as_str() == wanted)
}

/// Whether the exchange at a place is the one that is wanted.
fn swaps_at(
    alloc: Global,
    plain: &Plain,
    from: &Config,
    moves: &List<Move>,
    at: usize,
    wanted: &str,
) -> Option<bool> {
    if from.threads.len() > 9 || moves.len() > 99 || at > 99 || at + 1 >= moves.len() {
        return Some(false);
    }
    let answer = swap(alloc, plain, from, moves, at).ok()?;
    is_told(alloc, &answer, wanted)
}

/// Whether bringing the moves at a place and behind it to the front is what is wanted.
fn fronts_at(
    alloc: Global,
    plain: &Plain,
    from: &Config,
    moves: &List<Move>,
    at: usize,
    wanted: &str,
) -> Option<bool> {
    if from.threads.len() > 9 || moves.len() > 99 || at > 99 || at + 1 >= moves.len() {
        return Some(false);
    }
    let both = List::from_vec([at, at + 1].to_vec(alloc).ok()?);
    let answer = to_front(alloc, plain, from, moves, &both).ok()?;
    is_told(alloc, &answer, wanted)
}

/// Whether the exchanges of each two neighbours are those that are wanted, a word for each.
fn swaps_all(
    alloc: Global,
    plain: &Plain,
    from: &Config,
    moves: &List<Move>,
    wanted: &str,
) -> Option<bool> {
    let mut at: usize = 0;
    for word in wanted.split(" ") {
        if !swaps_at(alloc, plain, from, moves, at, word)? {
            return Some(false);
        }
        at = at.saturating_add(1);
    }
    Some(at.saturating_add(1) == moves.len())
}

/// The same of bringing each two neighbours to the front.
fn fronts_all(
    alloc: Global,
    plain: &Plain,
    from: &Config,
    moves: &List<Move>,
    wanted: &str,
) -> Option<bool> {
    let mut at: usize = 0;
    for word in wanted.split(" ") {
        if !fronts_at(alloc, plain, from, moves, at, word)? {
            return Some(false);
        }
        at = at.saturating_add(1);
    }
    Some(at.saturating_add(1) == moves.len())
}

/// Both, of the moves of these threads.
fn exchanges(
    alloc: Global,
    plain: &Plain,
    from: &Config,
    threads: &[u32],
    swapped: &str,
    fronted: &str,
) -> Option<bool> {
    let moves = moves_of(alloc, threads)?;
    let swaps = swaps_all(alloc, plain, from, &moves, swapped)?;
    let fronts = fronts_all(alloc, plain, from, &moves, fronted)?;
    Some(swaps && fronts)
}

/// The same from the program's start.
fn exchanges_from(
    alloc: Global,
    plain: &Plain,
    value: Value,
    threads: &[u32],
    swapped: &str,
    fronted: &str,
) -> Option<bool> {
    let from = begun(alloc, plain, value)?;
    exchanges(alloc, plain, &from, threads, swapped, fronted)
}

/// Each two neighbours in two schedules of the additions: a load and another thread's store are exchanged to another end, and two stores
/// of one number aren't.
fn added(alloc: Global, plain: &Plain) -> Option<bool> {
    let zero = Value::Word(Word::new(8, 0)?);
    let late = "same same same same same same same same same same same same other:12";
    let late_fronts = "same same same same same same same same same same same other:10 other:10";
    let turns = "same same same same same other:5 same same same same same";
    let turns_fronts = "same same same same same same other:5 same other:5 same other:5";
    let is_late = exchanges_from(alloc, plain, zero, &LATE_STORE, late, late_fronts)?;
    let is_in_turns = exchanges_from(alloc, plain, zero, &IN_TURNS, turns, turns_fronts)?;
    Some(is_late && is_in_turns)
}

/// Exchanges of each two neighbours in the program of two threads that add to one number.
pub(crate) fn neighbours_of_additions(alloc: Global, text: &str) -> Option<bool> {
    let plain = plain(alloc, text, true, 3)?;
    added(alloc, &plain)
}

/// Exchanges of each two neighbours where one thread's action makes the gate of the other's false: the exchange of both fails, and so does
/// bringing the second to the front.
pub(crate) fn neighbours_of_a_gate(alloc: Global, text: &str) -> Option<bool> {
    let plain = plain(alloc, text, true, 2)?;
    exchanges_from(
        alloc,
        &plain,
        Value::Bool(true),
        &GATE_FIRST,
        "same same fails:3 same same",
        "same same same fails:3 same",
    )
}

/// A is called, B is called and needs the flag, and A clears it.
fn fails_before(alloc: Global, plain: &Plain) -> Option<bool> {
    let from = begun(alloc, plain, Value::Bool(true))?;
    let fails = Wanted::Fails(&[0, 1, 0]);
    swaps(alloc, plain, &from, &[0, 1, 1, 0], 2, fails)
}

/// The first thread's action makes the second's gate false.
pub(crate) fn failing_before_an_exchange(alloc: Global, text: &str) -> Option<bool> {
    let plain = plain(alloc, text, true, 2)?;
    fails_before(alloc, &plain)
}

/// B is called first. Then A's action comes before B's, which fails there.
fn fails_in_front(alloc: Global, plain: &Plain) -> Option<bool> {
    let from = begun(alloc, plain, Value::Bool(true))?;
    let chosen = List::from_vec([1, 3].to_vec(alloc).ok()?);
    let fails = Wanted::Fails(&[1, 0, 0]);
    fronts(alloc, plain, &from, &[0, 1, 1, 0], &chosen, fails)
}

/// Of two moves that are brought to the front the first gets there, and the second makes the other thread's gate false on its way.
pub(crate) fn failing_on_the_way_to_the_front(alloc: Global, text: &str) -> Option<bool> {
    let plain = plain(alloc, text, true, 2)?;
    fails_in_front(alloc, &plain)
}

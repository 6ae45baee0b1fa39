// Shifts, by stages: one for each bit of the amount that can move anything.
ghost use Rattle.std.specs.Prelude.{◌≡◌, ◌<◌, ◌≤◌, ◌+◌, ◌-◌, ◌*◌, ◌^◌, length, if◌then◌else◌, IfOk};
ghost use Rattle.civl_bits.specs.Word.{left_shift_at, right_shift_at, arithmetic_right_shift_at, complement_at};
ghost use Rattle.civl_cnf.specs.Literal.{truth_of};
ghost use Rattle.civl_cnf.specs.ClauseSet.{IsBelow};
ghost use Rattle.civl_cnf.specs.Gates.{Extends, bit};
ghost use Rattle.civl_circuits.specs.Circuits.{number, IsOne, MakesWord};
ghost use Rattle.civl_circuits.specs.inner.Shift.{shifted_word, shifted};

use crate::wiring::{join, repeated};
use crate::{Circuit, choose, complement, is_zero};
use civl_cnf::{Lit, Memory};
use std::alloc::Global;

/// Where a shift moves the bits.
#[derive(Clone, Copy)]
pub(crate) enum Direction {
    Up,
    Down,
}

/// The word where the bit is true, else 0. It takes at most as many variables as the word has bits.
///
/// # Errors
///
/// For want of memory. The clauses that the gates then have still extend the old ones in exactly one way.
#[tactic(auto, using(crate::proofs::Words::extending))]
pub fn mask(gates: &mut Circuit, alloc: Global, c: Lit, a: &[Lit]) -> Result<Vec<Lit>, Memory>
    requires room { gates.old.variables + length a.now ≤ 2 ^ 30 }
    requires c { c.variable < gates.old.variables }
    requires a { IsBelow gates.old.variables a.now }
    ensures ok { IfOk result (λ word. MakesWord gates.old gates.new word.items (length a.now) (length a.now)
        (λ v. bit (truth_of v c) * number v a.now)) }
    ensures extends { Extends gates.old gates.new }
{
    let mut word = Vec::new(alloc);
    for i in 0..a.len() {
        let bit = gates.and(c, a[i])?;
        word.push(bit)?;
    }
    Ok(word)
}

/// The word where the bit is false, and its complement where it is true. It takes at most as many variables as the word has bits.
#[tactic(auto, using(crate::proofs::Words::extending))]
fn turn(gates: &mut Circuit, alloc: Global, c: Lit, a: &[Lit]) -> Result<Vec<Lit>, Memory>
    requires room { gates.old.variables + length a.now ≤ 2 ^ 30 }
    requires c { c.variable < gates.old.variables }
    requires a { IsBelow gates.old.variables a.now }
    ensures ok { IfOk result (λ word. MakesWord gates.old gates.new word.items (length a.now) (length a.now)
        (λ v. if truth_of v c then complement_at (length a.now) (number v a.now) else number v a.now)) }
    ensures extends { Extends gates.old gates.new }
{
    let flipped = complement(alloc, a)?;
    let word = choose(gates, alloc, c, flipped.as_slice(), a)?;
    Ok(word)
}

/// The literals moved by a distance, with zeros where nothing moves to.
pub(crate) fn moved(
    alloc: Global,
    direction: Direction,
    zero: Lit,
    a: &[Lit],
    distance: usize,
) -> Result<Vec<Lit>, Memory>
    requires { distance ≤ length a.now }
    ensures { IfOk result (λ word. word.items ≡ shifted_word direction zero a.now distance) }
{
    let kept = a.len() - distance;
    let zeros = repeated(alloc, zero, distance)?;
    match direction {
        Direction::Up => { join(alloc, &a[..kept], zeros.as_slice()) }
        Direction::Down => { join(alloc, zeros.as_slice(), &a[distance..]) }
    }
}

/// The word moved by a distance where a bit is true. It takes at most as many variables as the word has bits.
#[tactic(auto, using(crate::proofs::Words::extending))]
fn stage(
    gates: &mut Circuit,
    alloc: Global,
    one: Lit,
    direction: Direction,
    a: &[Lit],
    distance: usize,
    c: Lit,
) -> Result<Vec<Lit>, Memory>
    requires room { gates.old.variables + length a.now ≤ 2 ^ 30 }
    requires one { IsOne gates.old one }
    requires a { IsBelow gates.old.variables a.now }
    requires within { distance ≤ length a.now }
    requires c { c.variable < gates.old.variables }
    ensures ok { IfOk result (λ word. MakesWord gates.old gates.new word.items (length a.now) (length a.now)
        (λ v. if truth_of v c then shifted direction (length a.now) (number v a.now) distance else number v a.now)) }
    ensures extends { Extends gates.old gates.new }
{
    let zero = one.negate();
    let away = moved(alloc, direction, zero, a, distance)?;
    let word = choose(gates, alloc, c, away.as_slice(), a)?;
    Ok(word)
}

/// The word moved by the number of another of the same width. It takes at most seven variables for each bit.
#[tactic(auto, using(crate::proofs::Words::extending))]
fn shift(
    gates: &mut Circuit,
    alloc: Global,
    one: Lit,
    direction: Direction,
    a: &[Lit],
    b: &[Lit],
) -> Result<Vec<Lit>, Memory>
    requires room { gates.old.variables + 7 * length a.now ≤ 2 ^ 30 }
    requires one { IsOne gates.old one }
    requires a { IsBelow gates.old.variables a.now }
    requires b { IsBelow gates.old.variables b.now }
    requires wide { length a.now ≤ 32 }
    requires size { length a.now ≡ length b.now }
    ensures ok { IfOk result (λ word. MakesWord gates.old gates.new word.items (length a.now) (7 * length a.now)
        (λ v. shifted direction (length a.now) (number v a.now) (number v b.now))) }
    ensures extends { Extends gates.old gates.new }
{
    let mut word = Vec::from_slice(alloc, a)?;
    let mut distance = 1;
    let mut at = 0;
    while distance < a.len() {
        word = stage(
            gates,
            alloc,
            one,
            direction,
            word.as_slice(),
            distance,
            b[at],
        )?;
        distance *= 2;
        at += 1;
    }
    let none = is_zero(gates, one, &b[at..])?;
    let kept = mask(gates, alloc, none, word.as_slice())?;
    Ok(kept)
}

/// The word moved up by the number of another of the same width, at most 32 bits; 0 from the width on. It takes at most seven variables for each bit.
///
/// # Errors
///
/// For want of memory. The clauses that the gates then have still extend the old ones in exactly one way.
#[tactic(auto, using(crate::proofs::Words::extending))]
pub fn shift_left(
    gates: &mut Circuit,
    alloc: Global,
    one: Lit,
    a: &[Lit],
    b: &[Lit],
) -> Result<Vec<Lit>, Memory>
    requires room { gates.old.variables + 7 * length a.now ≤ 2 ^ 30 }
    requires one { IsOne gates.old one }
    requires a { IsBelow gates.old.variables a.now }
    requires b { IsBelow gates.old.variables b.now }
    requires wide { length a.now ≤ 32 }
    requires size { length a.now ≡ length b.now }
    ensures ok { IfOk result (λ word. MakesWord gates.old gates.new word.items (length a.now) (7 * length a.now)
        (λ v. left_shift_at (length a.now) (number v a.now) (number v b.now))) }
    ensures extends { Extends gates.old gates.new }
{
    shift(gates, alloc, one, Direction::Up, a, b)
}

/// The word moved down by the number of another of the same width, at most 32 bits; 0 from the width on. It takes at most seven variables for each bit.
///
/// # Errors
///
/// For want of memory. The clauses that the gates then have still extend the old ones in exactly one way.
#[tactic(auto, using(crate::proofs::Words::extending))]
pub fn shift_right(
    gates: &mut Circuit,
    alloc: Global,
    one: Lit,
    a: &[Lit],
    b: &[Lit],
) -> Result<Vec<Lit>, Memory>
    requires room { gates.old.variables + 7 * length a.now ≤ 2 ^ 30 }
    requires one { IsOne gates.old one }
    requires a { IsBelow gates.old.variables a.now }
    requires b { IsBelow gates.old.variables b.now }
    requires wide { length a.now ≤ 32 }
    requires size { length a.now ≡ length b.now }
    ensures ok { IfOk result (λ word. MakesWord gates.old gates.new word.items (length a.now) (7 * length a.now)
        (λ v. right_shift_at (length a.now) (number v a.now) (number v b.now))) }
    ensures extends { Extends gates.old gates.new }
{
    shift(gates, alloc, one, Direction::Down, a, b)
}

/// The word moved down by the number of another of the same width, 1 to 32 bits, with copies of the top bit above. It takes at most nine variables for each bit.
///
/// # Errors
///
/// For want of memory. The clauses that the gates then have still extend the old ones in exactly one way.
#[tactic(auto, using(crate::proofs::Words::extending))]
pub fn arithmetic_shift_right(
    gates: &mut Circuit,
    alloc: Global,
    one: Lit,
    a: &[Lit],
    b: &[Lit],
) -> Result<Vec<Lit>, Memory>
    requires room { gates.old.variables + 9 * length a.now ≤ 2 ^ 30 }
    requires one { IsOne gates.old one }
    requires a { IsBelow gates.old.variables a.now }
    requires b { IsBelow gates.old.variables b.now }
    requires narrow { 1 ≤ length a.now }
    requires wide { length a.now ≤ 32 }
    requires size { length a.now ≡ length b.now }
    ensures ok { IfOk result (λ word. MakesWord gates.old gates.new word.items (length a.now) (9 * length a.now)
        (λ v. arithmetic_right_shift_at (length a.now) (number v a.now) (number v b.now))) }
    ensures extends { Extends gates.old gates.new }
{
    let top = a[a.len() - 1];
    let turned = turn(gates, alloc, top, a)?;
    let moved = shift_right(gates, alloc, one, turned.as_slice(), b)?;
    let word = turn(gates, alloc, top, moved.as_slice())?;
    Ok(word)
}

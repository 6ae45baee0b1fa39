// Division with remainder.
ghost use Rattle.std.specs.Prelude.{◌≡◌, ◌<◌, ◌≤◌, ◌+◌, ◌-◌, ◌*◌, ◌%◌, ◌^◌, length, take, nat_le, if◌then◌else◌, ℕ, Bool, false, IfOk, IsTrue};
ghost use Rattle.civl_bits.specs.Word.{quotient_at, remainder_at};
ghost use Rattle.civl_cnf.specs.Literal.{truth_of};
ghost use Rattle.civl_cnf.specs.ClauseSet.{IsBelow, Satisfies};
ghost use Rattle.civl_cnf.specs.Gates.{Extends, bit};
ghost use Rattle.civl_circuits.specs.Circuits.{number, IsOne, MakesBit, MakesWord};

use crate::wiring::{join, repeated, widen};
use crate::{Circuit, add_with_carry, choose, complement};
use civl_cnf::{Lit, Memory};
use std::alloc::Global;

/// A quotient and its remainder.
#[derive(Drop)]
pub struct Division {
    pub quotient: Vec<Lit>,
    pub remainder: Vec<Lit>,
}

/// A step of a division: whether the divisor was subtracted, and what is left.
#[derive(Drop)]
struct Step {
    enough: Lit,
    rest: Vec<Lit>,
}

/// Brings down the next bit, and subtracts the divisor where that is enough. It takes at most three variables for each bit, and two more.
#[tactic(auto, using(crate::proofs::Words::extending))]
fn divide_step(
    gates: &mut Circuit,
    alloc: Global,
    one: Lit,
    rest: &[Lit],
    next: Lit,
    b: &[Lit],
) -> Result<Step, Memory>
    requires room { gates.old.variables + 3 * length b.now + 2 ≤ 2 ^ 30 }
    requires one { IsOne gates.old one }
    requires rest { IsBelow gates.old.variables rest.now }
    requires next { next.variable < gates.old.variables }
    requires b { IsBelow gates.old.variables b.now }
    requires size { length rest.now ≡ length b.now }
    ensures enough { IfOk result (λ step. MakesBit gates.old gates.new step.enough (3 * length b.now + 2)
        (λ v. nat_le (number v b.now) (bit (truth_of v next) + 2 * number v rest.now))) }
    ensures rest { IfOk result (λ step. MakesWord gates.old gates.new step.rest.items (length b.now) (3 * length b.now + 2)
        (λ v. (if nat_le (number v b.now) (bit (truth_of v next) + 2 * number v rest.now)
        then bit (truth_of v next) + 2 * number v rest.now - number v b.now
        else bit (truth_of v next) + 2 * number v rest.now) % 2 ^ length b.now)) }
    ensures extends { Extends gates.old gates.new }
{
    let last = [next];
    let from = join(alloc, rest, last.as_slice())?;
    let mut flipped = complement(alloc, b)?;
    flipped.push(one)?;
    let sum = add_with_carry(gates, alloc, from.as_slice(), flipped.as_slice(), one)?;
    let enough = sum[b.len() + 1];
    let rest = choose(gates, alloc, enough, &sum[..b.len()], &from[..b.len()])?;
    Ok(Step { enough, rest })
}

/// Whether the literal stands in the word.
fn contains(word: &[Lit], lit: Lit) -> bool
    ensures { IsTrue result → (v : ℕ → Bool) → IsTrue (truth_of v lit) → 0 < number v word.now }
{
    for other in word {
        if *other == lit {
            return true;
        }
    }
    false
}

/// How many bits the word has without those at its top that are this literal.
fn width_below(word: &[Lit], zero: Lit) -> usize
    ensures within { result ≤ length word.now }
    ensures value { (v : ℕ → Bool) → truth_of v zero ≡ false → number v (take result word.now) ≡ number v word.now }
{
    let mut width = word.len();
    while width > 0 {
        if word[width - 1] != zero {
            return width;
        }
        width -= 1;
    }
    width
}

/// How many low bits of a divisor do: those up to its last bit that isn't the constant false, where one of its bits is the constant true, and else all.
fn divisor_width(one: Lit, b: &[Lit]) -> usize
    ensures within { result ≤ length b.now }
    ensures value { (v : ℕ → Bool) → IsTrue (truth_of v one) → number v (take result b.now) ≡ number v b.now }
    ensures whole { (v : ℕ → Bool) → IsTrue (truth_of v one) → number v b.now ≡ 0 → result ≡ length b.now }
{
    if contains(b, one) {
        width_below(b, one.negate())
    } else {
        b.len()
    }
}

/// The same as `divide`, with a remainder as wide as the divisor, which may be narrower than the first word where it is never 0.
#[tactic(auto, using(crate::proofs::Words::extending))]
fn divide_by(
    gates: &mut Circuit,
    alloc: Global,
    one: Lit,
    a: &[Lit],
    b: &[Lit],
) -> Result<Division, Memory>
    requires room { gates.old.variables + (3 * length a.now + 2) * length a.now ≤ 2 ^ 30 }
    requires one { IsOne gates.old one }
    requires a { IsBelow gates.old.variables a.now }
    requires b { IsBelow gates.old.variables b.now }
    requires narrow { length b.now ≤ length a.now }
    requires whole { (v : ℕ → Bool) → Satisfies v gates.old.clauses → number v b.now ≡ 0 → length b.now ≡ length a.now }
    ensures quotient { IfOk result (λ division. MakesWord gates.old gates.new division.quotient.items (length a.now) ((3 * length a.now + 2) * length a.now)
        (λ v. quotient_at (length a.now) (number v a.now) (number v b.now))) }
    ensures remainder { IfOk result (λ division. MakesWord gates.old gates.new division.remainder.items (length b.now) ((3 * length a.now + 2) * length a.now)
        (λ v. remainder_at (length a.now) (number v a.now) (number v b.now))) }
    ensures extends { Extends gates.old gates.new }
{
    let mut remainder = repeated(alloc, one.negate(), b.len())?;
    let mut quotient = Vec::new(alloc);
    let mut at = a.len();
    while at > 0 {
        at -= 1;
        let Step { enough, rest } = divide_step(gates, alloc, one, remainder.as_slice(), a[at], b)?;
        remainder = rest;
        quotient.insert(0, enough)?;
    }
    Ok(Division {
        quotient,
        remainder,
    })
}

/// The quotient of two words, rounded down, and the remainder, by restoring division; by 0 the quotient has all bits, and the remainder is the first word. It takes at most three variables for each pair of bits, and two more for each bit. Where the divisor has a bit that is the constant true, the remainder is worked out in as many bits as the divisor has up to its last that isn't the constant false.
///
/// # Errors
///
/// For want of memory. The clauses that the gates then have still extend the old ones in exactly one way.
#[tactic(auto, using(crate::proofs::Words::extending))]
pub fn divide(
    gates: &mut Circuit,
    alloc: Global,
    one: Lit,
    a: &[Lit],
    b: &[Lit],
) -> Result<Division, Memory>
    requires room { gates.old.variables + (3 * length a.now + 2) * length a.now ≤ 2 ^ 30 }
    requires one { IsOne gates.old one }
    requires a { IsBelow gates.old.variables a.now }
    requires b { IsBelow gates.old.variables b.now }
    requires size { length a.now ≡ length b.now }
    ensures quotient { IfOk result (λ division. MakesWord gates.old gates.new division.quotient.items (length a.now) ((3 * length a.now + 2) * length a.now)
        (λ v. quotient_at (length a.now) (number v a.now) (number v b.now))) }
    ensures remainder { IfOk result (λ division. MakesWord gates.old gates.new division.remainder.items (length a.now) ((3 * length a.now + 2) * length a.now)
        (λ v. remainder_at (length a.now) (number v a.now) (number v b.now))) }
    ensures extends { Extends gates.old gates.new }
{
    let width = divisor_width(one, b);
    let Division {
        quotient,
        remainder,
    } = divide_by(gates, alloc, one, a, &b[..width])?;
    let remainder = widen(alloc, one, remainder.as_slice(), a.len())?;
    Ok(Division {
        quotient,
        remainder,
    })
}

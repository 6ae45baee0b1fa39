// Sums and differences.
ghost use Rattle.std.specs.Prelude.{◌≡◌, ◌<◌, ◌≤◌, ◌+◌, ◌*◌, ◌^◌, length, IfOk};
ghost use Rattle.civl_bits.specs.Word.{sum_at, difference_at, negative_at};
ghost use Rattle.civl_cnf.specs.Literal.{truth_of};
ghost use Rattle.civl_cnf.specs.ClauseSet.{IsBelow};
ghost use Rattle.civl_cnf.specs.Gates.{Extends, bit};
ghost use Rattle.civl_circuits.specs.Circuits.{number, IsOne, MakesWord};

use crate::wiring::repeated;
use crate::{Circuit, complement};
use civl_cnf::{Lit, Memory};
use std::alloc::Global;

/// The sum of two words and a bit, not cut: its top bit is the carry (a ripple-carry adder). It takes at most two variables for each bit of the words.
///
/// # Errors
///
/// For want of memory. The clauses that the gates then have still extend the old ones in exactly one way.
#[tactic(auto, using(crate::proofs::Words::extending))]
pub fn add_with_carry(
    gates: &mut Circuit,
    alloc: Global,
    a: &[Lit],
    b: &[Lit],
    carry: Lit,
) -> Result<Vec<Lit>, Memory>
    requires room { gates.old.variables + 2 * length a.now ≤ 2 ^ 30 }
    requires a { IsBelow gates.old.variables a.now }
    requires b { IsBelow gates.old.variables b.now }
    requires carry { carry.variable < gates.old.variables }
    requires size { length a.now ≡ length b.now }
    ensures ok { IfOk result (λ sum. MakesWord gates.old gates.new sum.items (length a.now + 1) (2 * length a.now)
        (λ v. number v a.now + number v b.now + bit (truth_of v carry))) }
    ensures extends { Extends gates.old gates.new }
{
    let mut sum = Vec::new(alloc);
    let mut rest = carry;
    for i in 0..a.len() {
        let (bit, next) = gates.adder(a[i], b[i], rest)?;
        rest = next;
        sum.push(bit)?;
    }
    sum.push(rest)?;
    Ok(sum)
}

/// The sum of two words modulo 2 to their width. It takes at most two variables for each bit.
///
/// # Errors
///
/// For want of memory. The clauses that the gates then have still extend the old ones in exactly one way.
#[tactic(auto, using(crate::proofs::Words::extending))]
pub fn add(
    gates: &mut Circuit,
    alloc: Global,
    one: Lit,
    a: &[Lit],
    b: &[Lit],
) -> Result<Vec<Lit>, Memory>
    requires room { gates.old.variables + 2 * length a.now ≤ 2 ^ 30 }
    requires one { IsOne gates.old one }
    requires a { IsBelow gates.old.variables a.now }
    requires b { IsBelow gates.old.variables b.now }
    requires size { length a.now ≡ length b.now }
    ensures ok { IfOk result (λ sum. MakesWord gates.old gates.new sum.items (length a.now) (2 * length a.now)
        (λ v. sum_at (length a.now) (number v a.now) (number v b.now))) }
    ensures extends { Extends gates.old gates.new }
{
    let mut sum = add_with_carry(gates, alloc, a, b, one.negate())?;
    sum.truncate(a.len());
    Ok(sum)
}

/// The difference of two words modulo 2 to their width, by adding the opposite bits and 1. It takes at most two variables for each bit.
///
/// # Errors
///
/// For want of memory. The clauses that the gates then have still extend the old ones in exactly one way.
#[tactic(auto, using(crate::proofs::Words::extending))]
pub fn subtract(
    gates: &mut Circuit,
    alloc: Global,
    one: Lit,
    a: &[Lit],
    b: &[Lit],
) -> Result<Vec<Lit>, Memory>
    requires room { gates.old.variables + 2 * length a.now ≤ 2 ^ 30 }
    requires one { IsOne gates.old one }
    requires a { IsBelow gates.old.variables a.now }
    requires b { IsBelow gates.old.variables b.now }
    requires size { length a.now ≡ length b.now }
    ensures ok { IfOk result (λ difference. MakesWord gates.old gates.new difference.items (length a.now) (2 * length a.now)
        (λ v. difference_at (length a.now) (number v a.now) (number v b.now))) }
    ensures extends { Extends gates.old gates.new }
{
    let flipped = complement(alloc, b)?;
    let mut difference = add_with_carry(gates, alloc, a, flipped.as_slice(), one)?;
    difference.truncate(a.len());
    Ok(difference)
}

/// The negative of a word modulo 2 to its width. It takes at most two variables for each bit.
///
/// # Errors
///
/// For want of memory. The clauses that the gates then have still extend the old ones in exactly one way.
#[tactic(auto, using(crate::proofs::Words::extending))]
pub fn negate(gates: &mut Circuit, alloc: Global, one: Lit, a: &[Lit]) -> Result<Vec<Lit>, Memory>
    requires room { gates.old.variables + 2 * length a.now ≤ 2 ^ 30 }
    requires one { IsOne gates.old one }
    requires a { IsBelow gates.old.variables a.now }
    ensures ok { IfOk result (λ negative. MakesWord gates.old gates.new negative.items (length a.now) (2 * length a.now)
        (λ v. negative_at (length a.now) (number v a.now))) }
    ensures extends { Extends gates.old gates.new }
{
    let zeros = repeated(alloc, one.negate(), a.len())?;
    let negative = subtract(gates, alloc, one, zeros.as_slice(), a)?;
    Ok(negative)
}

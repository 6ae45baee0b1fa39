// The orders of words.
ghost use Rattle.std.specs.Prelude.{◌≡◌, ◌<◌, ◌≤◌, ◌+◌, ◌-◌, ◌*◌, ◌^◌, ◌++◌, ◌∷◌, [], length, take, slice_index_or, nat_lt, nat_le, int_lt, int_le, IfOk};
ghost use Rattle.civl_bits.specs.Word.{signed_at};
ghost use Rattle.civl_cnf.specs.Literal.{opposite};
ghost use Rattle.civl_cnf.specs.ClauseSet.{IsBelow};
ghost use Rattle.civl_cnf.specs.Gates.{Extends};
ghost use Rattle.civl_circuits.specs.Circuits.{number, blank, IsOne, MakesBit};

use crate::{Circuit, add_with_carry, complement};
use civl_cnf::{Lit, Memory};
use std::alloc::Global;

/// Whether the first word is less: their difference has no carry. It takes at most two variables for each bit.
///
/// # Errors
///
/// For want of memory. The clauses that the gates then have still extend the old ones in exactly one way.
#[tactic(auto, using(crate::proofs::Words::extending))]
pub fn less(
    gates: &mut Circuit,
    alloc: Global,
    one: Lit,
    a: &[Lit],
    b: &[Lit],
) -> Result<Lit, Memory>
    requires room { gates.old.variables + 2 * length a.now ≤ 2 ^ 30 }
    requires one { IsOne gates.old one }
    requires a { IsBelow gates.old.variables a.now }
    requires b { IsBelow gates.old.variables b.now }
    requires size { length a.now ≡ length b.now }
    ensures ok { IfOk result (λ below. MakesBit gates.old gates.new below (2 * length a.now)
        (λ v. nat_lt (number v a.now) (number v b.now))) }
    ensures extends { Extends gates.old gates.new }
{
    let flipped = complement(alloc, b)?;
    let sum = add_with_carry(gates, alloc, a, flipped.as_slice(), one)?;
    let carry = sum[a.len()];
    Ok(carry.negate())
}

/// Whether the first word is less or the same. It takes at most two variables for each bit.
///
/// # Errors
///
/// For want of memory. The clauses that the gates then have still extend the old ones in exactly one way.
#[tactic(auto, using(crate::proofs::Words::extending))]
pub fn less_or_equal(
    gates: &mut Circuit,
    alloc: Global,
    one: Lit,
    a: &[Lit],
    b: &[Lit],
) -> Result<Lit, Memory>
    requires room { gates.old.variables + 2 * length a.now ≤ 2 ^ 30 }
    requires one { IsOne gates.old one }
    requires a { IsBelow gates.old.variables a.now }
    requires b { IsBelow gates.old.variables b.now }
    requires size { length a.now ≡ length b.now }
    ensures ok { IfOk result (λ within. MakesBit gates.old gates.new within (2 * length a.now)
        (λ v. nat_le (number v a.now) (number v b.now))) }
    ensures extends { Extends gates.old gates.new }
{
    let above = less(gates, alloc, one, b, a)?;
    Ok(above.negate())
}

/// The word with its top bit turned: on such words the unsigned order is the signed order of the words.
fn with_top_flipped(alloc: Global, a: &[Lit]) -> Result<Vec<Lit>, Memory>
    requires { 1 ≤ length a.now }
    ensures { IfOk result (λ word. word.items ≡ take (length a.now - 1) a.now ++ opposite (slice_index_or a.now (length a.now - 1) blank) ∷ []) }
{
    let top = a.len() - 1;
    let mut word = Vec::from_slice(alloc, &a[..top])?;
    let bit = a[top];
    word.push(bit.negate())?;
    Ok(word)
}

/// Whether the first word is less by two's complement. It takes at most two variables for each bit. The words have a bit at least.
///
/// # Errors
///
/// For want of memory. The clauses that the gates then have still extend the old ones in exactly one way.
#[tactic(auto, using(crate::proofs::Words::extending))]
pub fn signed_less(
    gates: &mut Circuit,
    alloc: Global,
    one: Lit,
    a: &[Lit],
    b: &[Lit],
) -> Result<Lit, Memory>
    requires room { gates.old.variables + 2 * length a.now ≤ 2 ^ 30 }
    requires one { IsOne gates.old one }
    requires a { IsBelow gates.old.variables a.now }
    requires b { IsBelow gates.old.variables b.now }
    requires narrow { 1 ≤ length a.now }
    requires size { length a.now ≡ length b.now }
    ensures ok { IfOk result (λ below. MakesBit gates.old gates.new below (2 * length a.now)
        (λ v. int_lt (signed_at (length a.now) (number v a.now)) (signed_at (length a.now) (number v b.now)))) }
    ensures extends { Extends gates.old gates.new }
{
    let first = with_top_flipped(alloc, a)?;
    let second = with_top_flipped(alloc, b)?;
    let below = less(gates, alloc, one, first.as_slice(), second.as_slice())?;
    Ok(below)
}

/// Whether the first word is less or the same by two's complement. It takes at most two variables for each bit. The words have a bit at least.
///
/// # Errors
///
/// For want of memory. The clauses that the gates then have still extend the old ones in exactly one way.
#[tactic(auto, using(crate::proofs::Words::extending))]
pub fn signed_less_or_equal(
    gates: &mut Circuit,
    alloc: Global,
    one: Lit,
    a: &[Lit],
    b: &[Lit],
) -> Result<Lit, Memory>
    requires room { gates.old.variables + 2 * length a.now ≤ 2 ^ 30 }
    requires one { IsOne gates.old one }
    requires a { IsBelow gates.old.variables a.now }
    requires b { IsBelow gates.old.variables b.now }
    requires narrow { 1 ≤ length a.now }
    requires size { length a.now ≡ length b.now }
    ensures ok { IfOk result (λ within. MakesBit gates.old gates.new within (2 * length a.now)
        (λ v. int_le (signed_at (length a.now) (number v a.now)) (signed_at (length a.now) (number v b.now)))) }
    ensures extends { Extends gates.old gates.new }
{
    let above = signed_less(gates, alloc, one, b, a)?;
    Ok(above.negate())
}

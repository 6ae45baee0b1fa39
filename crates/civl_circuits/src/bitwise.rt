// Operations on each bit of words.
ghost use Rattle.std.specs.Prelude.{◌≡◌, ◌<◌, ◌≤◌, ◌+◌, ◌^◌, length, map, ℕ, Bool, IfOk};
ghost use Rattle.civl_bits.specs.Word.{bitwise_and_at, bitwise_or_at, bitwise_xor_at, complement_at};
ghost use Rattle.civl_cnf.specs.Literal.{opposite};
ghost use Rattle.civl_cnf.specs.ClauseSet.{IsBelow};
ghost use Rattle.civl_cnf.specs.Gates.{Extends};
ghost use Rattle.civl_circuits.specs.Circuits.{number, MakesWord};

use crate::{Circuit, or};
use civl_cnf::{Lit, Memory};
use std::alloc::Global;

/// The word whose bits are 1 where both are. It takes at most as many variables as the words have bits.
///
/// # Errors
///
/// For want of memory. The clauses that the gates then have still extend the old ones in exactly one way.
#[tactic(auto, using(crate::proofs::Words::extending))]
pub fn bitwise_and(
    gates: &mut Circuit,
    alloc: Global,
    a: &[Lit],
    b: &[Lit],
) -> Result<Vec<Lit>, Memory>
    requires room { gates.old.variables + length a.now ≤ 2 ^ 30 }
    requires a { IsBelow gates.old.variables a.now }
    requires b { IsBelow gates.old.variables b.now }
    requires size { length a.now ≡ length b.now }
    ensures ok { IfOk result (λ word. MakesWord gates.old gates.new word.items (length a.now) (length a.now)
        (λ v. bitwise_and_at (length a.now) (number v a.now) (number v b.now))) }
    ensures extends { Extends gates.old gates.new }
{
    let mut word = Vec::new(alloc);
    for i in 0..a.len() {
        let bit = gates.and(a[i], b[i])?;
        word.push(bit)?;
    }
    Ok(word)
}

/// The word whose bits are 1 where one of them is. It takes at most as many variables as the words have bits.
///
/// # Errors
///
/// For want of memory. The clauses that the gates then have still extend the old ones in exactly one way.
#[tactic(auto, using(crate::proofs::Words::extending))]
pub fn bitwise_or(
    gates: &mut Circuit,
    alloc: Global,
    a: &[Lit],
    b: &[Lit],
) -> Result<Vec<Lit>, Memory>
    requires room { gates.old.variables + length a.now ≤ 2 ^ 30 }
    requires a { IsBelow gates.old.variables a.now }
    requires b { IsBelow gates.old.variables b.now }
    requires size { length a.now ≡ length b.now }
    ensures ok { IfOk result (λ word. MakesWord gates.old gates.new word.items (length a.now) (length a.now)
        (λ v. bitwise_or_at (length a.now) (number v a.now) (number v b.now))) }
    ensures extends { Extends gates.old gates.new }
{
    let mut word = Vec::new(alloc);
    for i in 0..a.len() {
        let bit = or(gates, a[i], b[i])?;
        word.push(bit)?;
    }
    Ok(word)
}

/// The word whose bits are 1 where exactly one of them is. It takes at most as many variables as the words have bits.
///
/// # Errors
///
/// For want of memory. The clauses that the gates then have still extend the old ones in exactly one way.
#[tactic(auto, using(crate::proofs::Words::extending))]
pub fn bitwise_xor(
    gates: &mut Circuit,
    alloc: Global,
    a: &[Lit],
    b: &[Lit],
) -> Result<Vec<Lit>, Memory>
    requires room { gates.old.variables + length a.now ≤ 2 ^ 30 }
    requires a { IsBelow gates.old.variables a.now }
    requires b { IsBelow gates.old.variables b.now }
    requires size { length a.now ≡ length b.now }
    ensures ok { IfOk result (λ word. MakesWord gates.old gates.new word.items (length a.now) (length a.now)
        (λ v. bitwise_xor_at (length a.now) (number v a.now) (number v b.now))) }
    ensures extends { Extends gates.old gates.new }
{
    let mut word = Vec::new(alloc);
    for i in 0..a.len() {
        let bit = gates.xor(a[i], b[i])?;
        word.push(bit)?;
    }
    Ok(word)
}

/// The word of the opposite bits: `not` of each literal, with no variable.
///
/// # Errors
///
/// For want of memory.
pub fn complement(alloc: Global, a: &[Lit]) -> Result<Vec<Lit>, Memory>
    ensures word { IfOk result (λ word. word.items ≡ map opposite a.now) }
    ensures value { IfOk result (λ word. (v : ℕ → Bool) → number v word.items ≡ complement_at (length a.now) (number v a.now)) }
{
    let mut word = Vec::new(alloc);
    for lit in a {
        word.push(lit.negate())?;
    }
    Ok(word)
}

// Equality of words.
ghost use Rattle.std.specs.Prelude.{◌≡◌, ◌<◌, ◌≤◌, ◌+◌, ◌*◌, ◌^◌, length, nat_eq, IfOk};
ghost use Rattle.civl_cnf.specs.ClauseSet.{IsBelow};
ghost use Rattle.civl_cnf.specs.Gates.{Extends};
ghost use Rattle.civl_circuits.specs.Circuits.{number, IsOne, MakesBit};

use crate::Circuit;
use civl_cnf::{Lit, Memory};

/// Whether two words are the same. It takes at most two variables for each bit.
///
/// # Errors
///
/// For want of memory. The clauses that the gates then have still extend the old ones in exactly one way.
#[tactic(auto, using(crate::proofs::Words::extending))]
pub fn equal(gates: &mut Circuit, one: Lit, a: &[Lit], b: &[Lit]) -> Result<Lit, Memory>
    requires room { gates.old.variables + 2 * length a.now ≤ 2 ^ 30 }
    requires one { IsOne gates.old one }
    requires a { IsBelow gates.old.variables a.now }
    requires b { IsBelow gates.old.variables b.now }
    requires size { length a.now ≡ length b.now }
    ensures ok { IfOk result (λ same. MakesBit gates.old gates.new same (2 * length a.now)
        (λ v. nat_eq (number v a.now) (number v b.now))) }
    ensures extends { Extends gates.old gates.new }
{
    let mut same = one;
    for i in 0..a.len() {
        let differ = gates.xor(a[i], b[i])?;
        same = gates.and(same, differ.negate())?;
    }
    Ok(same)
}

/// Whether a word is 0. It takes at most a variable for each bit.
///
/// # Errors
///
/// For want of memory. The clauses that the gates then have still extend the old ones in exactly one way.
#[tactic(auto, using(crate::proofs::Words::extending))]
pub fn is_zero(gates: &mut Circuit, one: Lit, a: &[Lit]) -> Result<Lit, Memory>
    requires room { gates.old.variables + length a.now ≤ 2 ^ 30 }
    requires one { IsOne gates.old one }
    requires a { IsBelow gates.old.variables a.now }
    ensures ok { IfOk result (λ zero. MakesBit gates.old gates.new zero (length a.now)
        (λ v. nat_eq (number v a.now) 0)) }
    ensures extends { Extends gates.old gates.new }
{
    let mut zero = one;
    for i in 0..a.len() {
        let bit = a[i];
        zero = gates.and(zero, bit.negate())?;
    }
    Ok(zero)
}

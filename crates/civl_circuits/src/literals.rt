// Operations on truth values, apart from those that are gates themselves.
ghost use Rattle.std.specs.Prelude.{◌≡◌, ◌<◌, ◌≤◌, ◌^◌, ◌||◌, not, IfOk, OnOk, OnErr};
ghost use Rattle.civl_cnf.specs.Literal.{truth_of};
ghost use Rattle.civl_cnf.specs.Gates.{Extends, xor};
ghost use Rattle.civl_circuits.specs.Circuits.{MakesBit};
ghost use Rattle.civl_circuits.specs.Hashing.{IsFolded};

use crate::Circuit;
use civl_cnf::{Lit, Memory};

/// A literal that is true where one of the two is. It takes at most one variable, and none where one of them is constant or they are equal or opposite.
///
/// # Errors
///
/// For want of memory. The clauses that the gates then have still extend the old ones in exactly one way.
pub fn or(gates: &mut Circuit, a: Lit, b: Lit) -> Result<Lit, Memory>
    requires room { gates.old.variables ≤ 2 ^ 30 }
    requires a { a.variable < gates.old.variables }
    requires b { b.variable < gates.old.variables }
    ensures ok { IfOk result (λ output. MakesBit gates.old gates.new output 1 (λ v. truth_of v a || truth_of v b)) }
    ensures folded { OnOk result (IsFolded gates.old a b → gates.new ≡ gates.old) }
    ensures err { OnErr result (gates.new ≡ gates.old) }
    ensures extends { Extends gates.old gates.new }
{
    let not_a = a.negate();
    let not_b = b.negate();
    let neither = gates.and(not_a, not_b)?;
    Ok(neither.negate())
}

/// A literal that is true where `a` is false or `b` is true. It takes at most one variable, and none where one of them is constant or they are equal or opposite.
///
/// # Errors
///
/// For want of memory. The clauses that the gates then have still extend the old ones in exactly one way.
pub fn implies(gates: &mut Circuit, a: Lit, b: Lit) -> Result<Lit, Memory>
    requires room { gates.old.variables ≤ 2 ^ 30 }
    requires a { a.variable < gates.old.variables }
    requires b { b.variable < gates.old.variables }
    ensures ok { IfOk result (λ output. MakesBit gates.old gates.new output 1 (λ v. not (truth_of v a) || truth_of v b)) }
    ensures folded { OnOk result (IsFolded gates.old a b → gates.new ≡ gates.old) }
    ensures err { OnErr result (gates.new ≡ gates.old) }
    ensures extends { Extends gates.old gates.new }
{
    let not_b = b.negate();
    let broken = gates.and(a, not_b)?;
    Ok(broken.negate())
}

/// A literal that is true where the two have one truth value. It takes at most one variable, and none where one of them is constant or they are equal or opposite.
///
/// # Errors
///
/// For want of memory. The clauses that the gates then have still extend the old ones in exactly one way.
pub fn iff(gates: &mut Circuit, a: Lit, b: Lit) -> Result<Lit, Memory>
    requires room { gates.old.variables ≤ 2 ^ 30 }
    requires a { a.variable < gates.old.variables }
    requires b { b.variable < gates.old.variables }
    ensures ok { IfOk result (λ output. MakesBit gates.old gates.new output 1 (λ v. not (xor (truth_of v a) (truth_of v b)))) }
    ensures folded { OnOk result (IsFolded gates.old a b → gates.new ≡ gates.old) }
    ensures err { OnErr result (gates.new ≡ gates.old) }
    ensures extends { Extends gates.old gates.new }
{
    let differ = gates.xor(a, b)?;
    Ok(differ.negate())
}

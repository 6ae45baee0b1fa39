// Gates over a clause set and the table of those that were built.
ghost use Rattle.std.specs.Prelude.{◌≡◌, ◌<◌, ◌≤◌, ◌^◌, ◌&&◌, if◌then◌else◌, IfOk, OnOk, OnErr};
ghost use Rattle.civl_cnf.specs.Literal.{truth_of};
ghost use Rattle.civl_cnf.specs.Gates.{Extends, xor};
ghost use Rattle.civl_circuits.specs.Circuits.{MakesBit};
ghost use Rattle.civl_circuits.specs.Hashing.{AreOutputs, IsHashed, IsFolded};
ghost use Rattle.civl_circuits.specs.inner.Folding.{MakesSum};

use crate::folding::{fold_and, fold_xor, ordered, ordered_three, signed};
use crate::gate::{Gate, Operand};
use crate::table::{find, keep};
use civl_cnf::{Gates, Lit, Memory};
use indexmap::IndexMap;

/// The conjunction of these two, which is found again.
#[tactic(auto, using(crate::proofs::Hashing::sharing))]
fn share_and(
    gates: &mut Gates,
    outputs: &mut IndexMap<Gate, Lit>,
    a: Lit,
    b: Lit,
) -> Result<Lit, Memory>
    requires room { gates.old.variables ≤ 2 ^ 30 }
    requires a { a.variable < gates.old.variables }
    requires b { b.variable < gates.old.variables }
    requires outputs { AreOutputs gates.old outputs.old.entries }
    ensures ok { IfOk result (λ output. MakesBit gates.old gates.new output 1 (λ v. truth_of v a && truth_of v b)) }
    ensures outputs { AreOutputs gates.new outputs.new.entries }
    ensures err { OnErr result (gates.new ≡ gates.old) }
    ensures extends { Extends gates.old gates.new }
{
    let gate = Gate::And(Operand::new(a), Operand::new(b));
    if let Some(output) = find(outputs, &gate) {
        return Ok(output);
    }
    outputs.reserve(1)?;
    let output = gates.and(a, b)?;
    keep(outputs, gate, output);
    Ok(output)
}

/// The exclusive disjunction of these two, which is found again.
#[tactic(auto, using(crate::proofs::Hashing::sharing))]
fn share_xor(
    gates: &mut Gates,
    outputs: &mut IndexMap<Gate, Lit>,
    a: Lit,
    b: Lit,
) -> Result<Lit, Memory>
    requires room { gates.old.variables ≤ 2 ^ 30 }
    requires a { a.variable < gates.old.variables }
    requires b { b.variable < gates.old.variables }
    requires outputs { AreOutputs gates.old outputs.old.entries }
    ensures ok { IfOk result (λ output. MakesBit gates.old gates.new output 1 (λ v. xor (truth_of v a) (truth_of v b))) }
    ensures outputs { AreOutputs gates.new outputs.new.entries }
    ensures err { OnErr result (gates.new ≡ gates.old) }
    ensures extends { Extends gates.old gates.new }
{
    let gate = Gate::Xor(Operand::new(a), Operand::new(b));
    if let Some(output) = find(outputs, &gate) {
        return Ok(output);
    }
    outputs.reserve(1)?;
    let output = gates.xor(a, b)?;
    keep(outputs, gate, output);
    Ok(output)
}

/// The choice by these three, which is found again.
#[tactic(auto, using(crate::proofs::Hashing::sharing))]
fn share_ite(
    gates: &mut Gates,
    outputs: &mut IndexMap<Gate, Lit>,
    c: Lit,
    a: Lit,
    b: Lit,
) -> Result<Lit, Memory>
    requires room { gates.old.variables ≤ 2 ^ 30 }
    requires c { c.variable < gates.old.variables }
    requires a { a.variable < gates.old.variables }
    requires b { b.variable < gates.old.variables }
    requires outputs { AreOutputs gates.old outputs.old.entries }
    ensures ok { IfOk result (λ output. MakesBit gates.old gates.new output 1 (λ v. if truth_of v c then truth_of v a else truth_of v b)) }
    ensures outputs { AreOutputs gates.new outputs.new.entries }
    ensures err { OnErr result (gates.new ≡ gates.old) }
    ensures extends { Extends gates.old gates.new }
{
    let gate = Gate::Ite(Operand::new(c), Operand::new(a), Operand::new(b));
    if let Some(output) = find(outputs, &gate) {
        return Ok(output);
    }
    outputs.reserve(1)?;
    let output = gates.ite(c, a, b)?;
    keep(outputs, gate, output);
    Ok(output)
}

/// The sum and the carry of these three, which are found again.
#[tactic(auto, using(crate::proofs::Hashing::sharing))]
fn share_sum(
    gates: &mut Gates,
    outputs: &mut IndexMap<Gate, Lit>,
    a: Lit,
    b: Lit,
    c: Lit,
) -> Result<(Lit, Lit), Memory>
    requires room { gates.old.variables ≤ 2 ^ 30 }
    requires a { a.variable < gates.old.variables }
    requires b { b.variable < gates.old.variables }
    requires c { c.variable < gates.old.variables }
    requires outputs { AreOutputs gates.old outputs.old.entries }
    ensures ok { IfOk result (λ made. MakesSum gates.old gates.new a b c made.0 made.1) }
    ensures outputs { AreOutputs gates.new outputs.new.entries }
    ensures err { OnErr result (gates.new ≡ gates.old) }
    ensures extends { Extends gates.old gates.new }
{
    let sum_gate = Gate::Sum(Operand::new(a), Operand::new(b), Operand::new(c));
    let carry_gate = Gate::Carry(Operand::new(a), Operand::new(b), Operand::new(c));
    if let Some(sum) = find(outputs, &sum_gate) {
        if let Some(carry) = find(outputs, &carry_gate) {
            return Ok((sum, carry));
        }
    }
    outputs.reserve(2)?;
    let (sum, carry) = gates.adder(a, b, c)?;
    keep(outputs, sum_gate, sum);
    keep(outputs, carry_gate, carry);
    Ok((sum, carry))
}

/// The conjunction: folded, or of operands in order.
pub(crate) fn and_of(
    gates: &mut Gates,
    outputs: &mut IndexMap<Gate, Lit>,
    one: Lit,
    a: Lit,
    b: Lit,
) -> Result<Lit, Memory>
    requires room { gates.old.variables ≤ 2 ^ 30 }
    requires a { a.variable < gates.old.variables }
    requires b { b.variable < gates.old.variables }
    requires hashed { IsHashed gates.old one outputs.old.entries }
    ensures ok { IfOk result (λ output. MakesBit gates.old gates.new output 1 (λ v. truth_of v a && truth_of v b)) }
    ensures folded { OnOk result (IsFolded gates.old a b → gates.new ≡ gates.old) }
    ensures hashed { IsHashed gates.new one outputs.new.entries }
    ensures err { OnErr result (gates.new ≡ gates.old) }
    ensures extends { Extends gates.old gates.new }
{
    if let Some(output) = fold_and(one, a, b) {
        return Ok(output);
    }
    let (first, second) = ordered(a, b);
    let output = share_and(gates, outputs, first, second)?;
    Ok(output)
}

/// The exclusive disjunction: folded, or of operands in order and without signs.
pub(crate) fn xor_of(
    gates: &mut Gates,
    outputs: &mut IndexMap<Gate, Lit>,
    one: Lit,
    a: Lit,
    b: Lit,
) -> Result<Lit, Memory>
    requires room { gates.old.variables ≤ 2 ^ 30 }
    requires a { a.variable < gates.old.variables }
    requires b { b.variable < gates.old.variables }
    requires hashed { IsHashed gates.old one outputs.old.entries }
    ensures ok { IfOk result (λ output. MakesBit gates.old gates.new output 1 (λ v. xor (truth_of v a) (truth_of v b))) }
    ensures folded { OnOk result (IsFolded gates.old a b → gates.new ≡ gates.old) }
    ensures hashed { IsHashed gates.new one outputs.new.entries }
    ensures err { OnErr result (gates.new ≡ gates.old) }
    ensures extends { Extends gates.old gates.new }
{
    if let Some(output) = fold_xor(one, a, b) {
        return Ok(output);
    }
    let (first, second) = ordered(a, b);
    let first_sign = first.positive();
    let second_sign = second.positive();
    let left = signed(first_sign, first);
    let right = signed(second_sign, second);
    let output = share_xor(gates, outputs, left, right)?;
    let turned = signed(first_sign, output);
    Ok(signed(second_sign, turned))
}

/// The choice by a condition without sign, the first branch of which has no sign.
pub(crate) fn choice_of(
    gates: &mut Gates,
    outputs: &mut IndexMap<Gate, Lit>,
    c: Lit,
    a: Lit,
    b: Lit,
) -> Result<Lit, Memory>
    requires room { gates.old.variables ≤ 2 ^ 30 }
    requires c { c.variable < gates.old.variables }
    requires a { a.variable < gates.old.variables }
    requires b { b.variable < gates.old.variables }
    requires outputs { AreOutputs gates.old outputs.old.entries }
    ensures ok { IfOk result (λ output. MakesBit gates.old gates.new output 1 (λ v. if truth_of v c then truth_of v a else truth_of v b)) }
    ensures outputs { AreOutputs gates.new outputs.new.entries }
    ensures err { OnErr result (gates.new ≡ gates.old) }
    ensures extends { Extends gates.old gates.new }
{
    if c.positive() {
        let sign = a.positive();
        let output = share_ite(gates, outputs, c, signed(sign, a), signed(sign, b))?;
        Ok(signed(sign, output))
    } else {
        let sign = b.positive();
        let output = share_ite(gates, outputs, c.negate(), signed(sign, b), signed(sign, a))?;
        Ok(signed(sign, output))
    }
}

/// The sum and the carry of three bits in order, the first of which has no sign.
pub(crate) fn sum_of(
    gates: &mut Gates,
    outputs: &mut IndexMap<Gate, Lit>,
    a: Lit,
    b: Lit,
    c: Lit,
) -> Result<(Lit, Lit), Memory>
    requires room { gates.old.variables ≤ 2 ^ 30 }
    requires a { a.variable < gates.old.variables }
    requires b { b.variable < gates.old.variables }
    requires c { c.variable < gates.old.variables }
    requires outputs { AreOutputs gates.old outputs.old.entries }
    ensures ok { IfOk result (λ made. MakesSum gates.old gates.new a b c made.0 made.1) }
    ensures outputs { AreOutputs gates.new outputs.new.entries }
    ensures err { OnErr result (gates.new ≡ gates.old) }
    ensures extends { Extends gates.old gates.new }
{
    let (first, second, third) = ordered_three(a, b, c);
    let sign = first.positive();
    let low = signed(sign, first);
    let middle = signed(sign, second);
    let high = signed(sign, third);
    let (sum, carry) = share_sum(gates, outputs, low, middle, high)?;
    Ok((signed(sign, sum), signed(sign, carry)))
}

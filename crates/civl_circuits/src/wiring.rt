// Words that take no gates.
ghost use Rattle.std.specs.Prelude.{◌≡◌, ◌<◌, ◌≤◌, ◌+◌, ◌-◌, ◌%◌, ◌^◌, ◌++◌, length, take, drop, replicate, nat_eq, if◌then◌else◌, ℕ, Bool, IfOk, IsTrue};
ghost use Rattle.civl_bits.specs.Word.{slice_of, concatenation_at};
ghost use Rattle.civl_cnf.specs.Literal.{opposite, truth_of};
ghost use Rattle.civl_circuits.specs.Circuits.{number, IsConstantWord};

use civl_cnf::{Lit, Memory};
use std::alloc::Global;

/// So many times one literal.
pub(crate) fn repeated(alloc: Global, lit: Lit, count: usize) -> Result<Vec<Lit>, Memory>
    ensures { IfOk result (λ word. word.items ≡ replicate count lit) }
{
    let mut word = Vec::new(alloc);
    for _ in 0..count {
        word.push(lit)?;
    }
    Ok(word)
}

/// The word of so many bits that is always this number, cut to the width. `one` is a literal that is always true.
///
/// # Errors
///
/// For want of memory.
pub fn constant(alloc: Global, one: Lit, width: u32, value: u32) -> Result<Vec<Lit>, Memory>
    ensures { IfOk result (λ word. IsConstantWord one word.items width (value % 2 ^ width)) }
{
    let zero = one.negate();
    let mut word = Vec::new(alloc);
    let mut rest = value;
    for _ in 0..width {
        word.push(digit(one, zero, rest))?;
        rest /= 2;
    }
    Ok(word)
}

/// The first literal where the number is odd, else the second.
fn digit(one: Lit, zero: Lit, number: u32) -> Lit
    ensures { result ≡ (if nat_eq (number % 2) 1 then one else zero) }
{
    if number % 2 == 1 { one } else { zero }
}

/// The bits `high` down to `low`, with no variable; `high` is below the width.
///
/// # Errors
///
/// For want of memory.
pub fn slice(alloc: Global, a: &[Lit], high: usize, low: usize) -> Result<Vec<Lit>, Memory>
    requires order { low ≤ high }
    requires within { high < length a.now }
    ensures word { IfOk result (λ word. word.items ≡ take (high - low + 1) (drop low a.now)) }
    ensures value { IfOk result (λ word. (v : ℕ → Bool) → number v word.items ≡ slice_of (number v a.now) high low) }
{
    let part = &a[low..high + 1];
    let word = Vec::from_slice(alloc, part)?;
    Ok(word)
}

/// The word with zeros above, up to `width` bits, with no variable. `one` is a literal that is always true.
///
/// # Errors
///
/// For want of memory.
pub fn widen(alloc: Global, one: Lit, a: &[Lit], width: usize) -> Result<Vec<Lit>, Memory>
    requires { length a.now ≤ width }
    ensures word { IfOk result (λ word. word.items ≡ a.now ++ replicate (width - length a.now) (opposite one)) }
    ensures value { IfOk result (λ word. (v : ℕ → Bool) → IsTrue (truth_of v one) → number v word.items ≡ number v a.now) }
{
    let zeros = repeated(alloc, one.negate(), width - a.len())?;
    let word = join(alloc, zeros.as_slice(), a)?;
    Ok(word)
}

/// The bits of the first word above those of the second, with no variable.
///
/// # Errors
///
/// For want of memory.
pub fn join(alloc: Global, high: &[Lit], low: &[Lit]) -> Result<Vec<Lit>, Memory>
    ensures word { IfOk result (λ word. word.items ≡ low.now ++ high.now) }
    ensures value { IfOk result (λ word. (v : ℕ → Bool) → number v word.items ≡ concatenation_at (length low.now) (number v high.now) (number v low.now)) }
{
    let mut word = Vec::from_slice(alloc, low)?;
    for lit in high {
        word.push(*lit)?;
    }
    Ok(word)
}

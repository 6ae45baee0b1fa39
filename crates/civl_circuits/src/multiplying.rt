// Products.
ghost use Rattle.std.specs.Prelude.{◌≡◌, ◌<◌, ◌≤◌, ◌+◌, ◌*◌, ◌^◌, length, IfOk};
ghost use Rattle.civl_bits.specs.Word.{sum_at, product_at, left_shift_at};
ghost use Rattle.civl_cnf.specs.Literal.{truth_of};
ghost use Rattle.civl_cnf.specs.ClauseSet.{IsBelow};
ghost use Rattle.civl_cnf.specs.Gates.{Extends, bit};
ghost use Rattle.civl_circuits.specs.Circuits.{number, IsOne, MakesWord};

use crate::shifting::{Direction, moved};
use crate::wiring::repeated;
use crate::{Circuit, add, mask};
use civl_cnf::{Lit, Memory};
use std::alloc::Global;

/// The sum of a word and, where a bit is true, another that is moved up. It takes at most three variables for each bit.
#[tactic(auto, using(crate::proofs::Words::extending))]
fn add_moved(
    gates: &mut Circuit,
    alloc: Global,
    one: Lit,
    sum: &[Lit],
    a: &[Lit],
    places: usize,
    c: Lit,
) -> Result<Vec<Lit>, Memory>
    requires room { gates.old.variables + 3 * length a.now ≤ 2 ^ 30 }
    requires one { IsOne gates.old one }
    requires sum { IsBelow gates.old.variables sum.now }
    requires a { IsBelow gates.old.variables a.now }
    requires c { c.variable < gates.old.variables }
    requires within { places ≤ length a.now }
    requires size { length sum.now ≡ length a.now }
    ensures ok { IfOk result (λ word. MakesWord gates.old gates.new word.items (length a.now) (3 * length a.now)
        (λ v. sum_at (length a.now) (number v sum.now) (bit (truth_of v c) * left_shift_at (length a.now) (number v a.now) places))) }
    ensures extends { Extends gates.old gates.new }
{
    let zero = one.negate();
    let away = moved(alloc, Direction::Up, zero, a, places)?;
    let part = mask(gates, alloc, c, away.as_slice())?;
    let word = add(gates, alloc, one, sum, part.as_slice())?;
    Ok(word)
}

/// The product of two words modulo 2 to their width, by shifts and sums. It takes at most three variables for each pair of bits.
///
/// # Errors
///
/// For want of memory. The clauses that the gates then have still extend the old ones in exactly one way.
#[tactic(auto, using(crate::proofs::Words::extending))]
pub fn multiply(
    gates: &mut Circuit,
    alloc: Global,
    one: Lit,
    a: &[Lit],
    b: &[Lit],
) -> Result<Vec<Lit>, Memory>
    requires room { gates.old.variables + 3 * length a.now * length a.now ≤ 2 ^ 30 }
    requires one { IsOne gates.old one }
    requires a { IsBelow gates.old.variables a.now }
    requires b { IsBelow gates.old.variables b.now }
    requires size { length a.now ≡ length b.now }
    ensures ok { IfOk result (λ product. MakesWord gates.old gates.new product.items (length a.now) (3 * length a.now * length a.now)
        (λ v. product_at (length a.now) (number v a.now) (number v b.now))) }
    ensures extends { Extends gates.old gates.new }
{
    let mut product = repeated(alloc, one.negate(), a.len())?;
    for i in 0..b.len() {
        product = add_moved(gates, alloc, one, product.as_slice(), a, i, b[i])?;
    }
    Ok(product)
}

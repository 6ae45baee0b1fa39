// Choices between words.
ghost use Rattle.std.specs.Prelude.{◌≡◌, ◌<◌, ◌≤◌, ◌+◌, ◌^◌, length, if◌then◌else◌, IfOk};
ghost use Rattle.civl_cnf.specs.Literal.{truth_of};
ghost use Rattle.civl_cnf.specs.ClauseSet.{IsBelow};
ghost use Rattle.civl_cnf.specs.Gates.{Extends};
ghost use Rattle.civl_circuits.specs.Circuits.{number, MakesWord};

use crate::Circuit;
use civl_cnf::{Lit, Memory};
use std::alloc::Global;

/// The first word where `c` is true, and the second elsewhere. It takes at most as many variables as the words have bits.
///
/// # Errors
///
/// For want of memory. The clauses that the gates then have still extend the old ones in exactly one way.
#[tactic(auto, using(crate::proofs::Words::extending))]
pub fn choose(
    gates: &mut Circuit,
    alloc: Global,
    c: Lit,
    a: &[Lit],
    b: &[Lit],
) -> Result<Vec<Lit>, Memory>
    requires room { gates.old.variables + length a.now ≤ 2 ^ 30 }
    requires c { c.variable < gates.old.variables }
    requires a { IsBelow gates.old.variables a.now }
    requires b { IsBelow gates.old.variables b.now }
    requires size { length a.now ≡ length b.now }
    ensures ok { IfOk result (λ word. MakesWord gates.old gates.new word.items (length a.now) (length a.now)
        (λ v. if truth_of v c then number v a.now else number v b.now)) }
    ensures extends { Extends gates.old gates.new }
{
    let mut word = Vec::new(alloc);
    for i in 0..a.len() {
        let bit = gates.ite(c, a[i], b[i])?;
        word.push(bit)?;
    }
    Ok(word)
}

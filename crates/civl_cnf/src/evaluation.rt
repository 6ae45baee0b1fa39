// The truth of a clause set under bits.
ghost use Rattle.std.specs.Prelude.{◌≡◌, ◌≤◌, ◌<◌, ◌↔◌, length, IsTrue};
ghost use Rattle.std.specs.List.{list_any, list_all};
ghost use Rattle.civl_cnf.specs.Literal.{truth_of};
ghost use Rattle.civl_cnf.specs.ClauseSet.{IsBelow, AreBelow, Satisfies, assignment};

use crate::{Bits, Clause, Cnf, Lit};

/// The literal's truth value under the bits.
fn is_true(bits: &Bits, lit: Lit) -> bool
    requires { lit.variable < length bits.now }
    ensures { result ≡ truth_of (assignment bits.now) lit }
{
    let value = bits.get(lit.variable());
    if lit.positive() { value } else { !value }
}

/// Whether some literal is true under the bits.
fn some_is_true(bits: &Bits, lits: &[Lit]) -> bool
    requires { IsBelow (length bits.now) lits.now }
    ensures { result ≡ list_any (truth_of (assignment bits.now)) lits.now }
{
    for lit in lits {
        if is_true(bits, *lit) {
            return true;
        }
    }
    false
}

/// Whether each clause has a true literal under the bits.
fn all_are_true(bits: &Bits, clauses: &[Clause]) -> bool
    requires { AreBelow (length bits.now) clauses.now }
    ensures { result ≡ list_all (list_any (truth_of (assignment bits.now))) clauses.now }
{
    for clause in clauses {
        if !some_is_true(bits, clause.lits()) {
            return false;
        }
    }
    true
}

/// Whether the bits make the clause set true: every clause has a true literal. The bits have to cover the set's variables.
pub fn truth(cnf: &Cnf, bits: &Bits) -> bool
    requires { cnf.now.variables ≤ length bits.now }
    ensures { IsTrue result ↔ Satisfies (assignment bits.now) cnf.now.clauses }
{
    all_are_true(bits, cnf.clauses())
}

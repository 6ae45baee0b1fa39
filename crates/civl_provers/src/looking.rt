// What propagation says of a branch.
ghost use Rattle.std.specs.Prelude.{◌≡◌, ◌≤◌, ◌^◌, All, length, IfOk};
ghost use Rattle.std.specs.List.{list_any, list_all};
ghost use Rattle.civl_cnf.specs.ClauseSet.{IsBelow, AreBelow};
ghost use Rattle.civl_units.specs.Marks.{marked, IsQuiet};
ghost use Rattle.civl_provers.specs.inner.Node.{HaveValuesFrom, LastOpen, JudgeSays};

use crate::memory::Memory;
use civl_cdcl::bits_of;
use civl_cnf::{Bits, Clause, Cnf, Lit};
use std::alloc::Global;

/// What is found at a branch that propagation doesn't refute: these bits make the clauses true, or this variable is the last without a value, or no choice may be made and the branch isn't true.
#[derive(Drop)]
pub enum Node {
    True(Bits),
    Open(u32),
    Stuck,
}

/// Whether a literal of the clause is true.
fn some_holds(marks: &[Option<bool>], lits: &[Lit]) -> bool
    requires { IsBelow (length marks.now) lits.now }
    ensures { result ≡ list_any (λ l. marked marks.now l.variable l.positive) lits.now }
{
    for lit in lits {
        match marks[lit.variable() as usize] {
            None => {}
            Some(value) => {
                if value == lit.positive() {
                    return true;
                }
            }
        }
    }
    false
}

/// Whether each clause has a true literal.
fn all_hold(marks: &[Option<bool>], clauses: &[Clause]) -> bool
    requires { AreBelow (length marks.now) clauses.now }
    ensures { result ≡ list_all (list_any (λ l. marked marks.now l.variable l.positive)) clauses.now }
{
    for clause in clauses {
        if !some_holds(marks, clause.lits()) {
            return false;
        }
    }
    true
}

/// The last variable without a value, of those before an end behind which all have one. The last variables of a clause set are those
/// of its outermost gates, so what is split on is what the formula says, and not one after the other the bits of its values.
fn last_open(marks: &[Option<bool>], end: usize) -> Option<u32>
    requires few { length marks.now ≤ 2 ^ 31 }
    requires within { end ≤ length marks.now }
    requires behind { HaveValuesFrom marks.now end }
    ensures { LastOpen marks.now result }
{
    let mut at = end;
    while at > 0 {
        at -= 1;
        match marks[at] {
            None => return Some(at as u32),
            Some(_) => {}
        }
    }
    None
}

/// What the marks of a complete propagation say. Where each variable has a value all clauses are true, so these are looked at only where no choice may be made.
pub fn judge(
    alloc: Global,
    marks: &[Option<bool>],
    cnf: &Cnf,
    end: usize,
    may_choose: bool,
) -> Result<Node, Memory>
    requires size { length marks.now ≡ cnf.now.variables }
    requires quiet { All (IsQuiet (marked marks.now)) cnf.now.clauses }
    requires within { end ≤ length marks.now }
    requires behind { HaveValuesFrom marks.now end }
    ensures { IfOk result (λ node. JudgeSays marks.now cnf.now may_choose node) }
{
    let variables = cnf.variables();
    match last_open(marks, end) {
        None => {
            let bits = bits_of(alloc, marks)?;
            Ok(Node::True(bits))
        }
        Some(variable) => {
            if may_choose {
                return Ok(Node::Open(variable));
            }
            if all_hold(marks, cnf.clauses()) {
                let bits = bits_of(alloc, marks)?;
                return Ok(Node::True(bits));
            }
            Ok(Node::Stuck)
        }
    }
}

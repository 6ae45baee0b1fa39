// Clause sets and logs, written as in DIMACS: 1 is the first variable, -1 its negation, and 0 ends a clause.
ghost use Rattle.std.specs.Prelude.{IsTrue};
ghost use Rattle.civl_cnf.specs.ClauseSet.{IsBelow};

use civl_cnf::{Clause, Cnf, Lit, Log};
use std::alloc::{AllocError, Global};
use std::process::Abort;

/// All four clauses over two variables, which no single unit settles.
pub(crate) const SQUARE: &str = "1 2 0 1 -2 0 -1 2 0 -1 -2 0";

/// Four pigeons in three holes: variable 3 p + h says that pigeon p, from 0, is in hole h, from 1.
pub(crate) const PIGEONS: &str = "1 2 3 0 4 5 6 0 7 8 9 0 10 11 12 0 \
    -1 -4 0 -1 -7 0 -1 -10 0 -4 -7 0 -4 -10 0 -7 -10 0 \
    -2 -5 0 -2 -8 0 -2 -11 0 -5 -8 0 -5 -11 0 -8 -11 0 \
    -3 -6 0 -3 -9 0 -3 -12 0 -6 -9 0 -6 -12 0 -9 -12 0";

/// Whether each literal is of the first variables.
fn is_below(variables: u32, lits: &[Lit]) -> bool
    ensures { IsTrue result → IsBelow variables lits.now }
{
    for lit in lits {
        if lit.variable() >= variables {
            return false;
        }
    }
    true
}

fn clause_of(alloc: Global, lits: &[Lit]) -> Result<Clause, AllocError> {
    match Clause::from_slice(alloc, lits) {
        Ok(clause) => Ok(clause),
        Err(_) => Err(AllocError),
    }
}

/// The clauses of a text.
fn clauses_of(rt: &impl Abort, alloc: Global, text: &str) -> Result<Vec<Clause>, AllocError> {
    let mut clauses = Vec::new(alloc);
    let mut lits: Vec<Lit> = Vec::new(alloc);
    for word in text.split_whitespace() {
        let number: i32 = word.parse().expect(rt, "a number");
        let variable = number.unsigned_abs();
        if variable == 0 {
            let clause = clause_of(alloc, &lits)?;
            clauses.push(clause)?;
            lits.clear();
        } else {
            assert!(rt; variable <= 1000);
            lits.push(Lit::new(variable - 1, number > 0))?;
        }
    }
    Ok(clauses)
}

/// The clause set of a text, over so many variables, up to 1000. A literal of another ends the test.
pub(crate) fn cnf_of(
    rt: &impl Abort,
    alloc: Global,
    variables: u32,
    text: &str,
) -> Result<Cnf, AllocError> {
    assert!(rt; variables <= 1000);
    let mut cnf = Cnf::new(alloc, variables);
    for clause in clauses_of(rt, alloc, text)? {
        let below = is_below(cnf.variables(), clause.lits());
        assert!(rt; below);
        if cnf.push(clause).is_err() {
            return Err(AllocError);
        }
    }
    Ok(cnf)
}

/// The log of a text.
pub(crate) fn log_of(rt: &impl Abort, alloc: Global, text: &str) -> Result<Log, AllocError> {
    let mut log = Log::new(alloc);
    for clause in clauses_of(rt, alloc, text)? {
        if log.push(clause).is_err() {
            return Err(AllocError);
        }
    }
    Ok(log)
}

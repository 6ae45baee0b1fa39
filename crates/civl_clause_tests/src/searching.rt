// Small clause sets, written as in DIMACS: 1 is the first variable, -1 its negation, and 0 ends a clause.
use crate::dimacs::{PIGEONS, SQUARE, cnf_of};
use civl_cdcl::{Outcome, solve};
use civl_cnf::{Cnf, Log, truth};
use civl_rup::{Replay, replay};
use std::alloc::{AllocError, Global};
use std::process::Abort;
use std::test::Fail;

/// What the replay of a log answers.
fn replayed(alloc: Global, cnf: &Cnf, log: &Log) -> Result<Replay, AllocError> {
    match replay(alloc, cnf, log) {
        Ok(found) => Ok(found),
        Err(_) => Err(AllocError),
    }
}

#[derive(Clone, Copy, Debug, PartialEq, Eq)]
enum Found {
    Sat,
    Unsat,
    Spent,
}

/// Which outcome a search has, whose certificate is tried.
fn outcome_of(rt: &impl Abort, alloc: Global, cnf: &Cnf, budget: u32) -> Result<Found, AllocError> {
    let Ok(outcome) = solve(alloc, cnf, budget) else {
        return Err(AllocError);
    };
    match outcome {
        Outcome::Sat(bits) => {
            assert_eq!(rt; bits.len(), cnf.variables());
            assert!(rt; truth(cnf, &bits));
            Ok(Found::Sat)
        }
        Outcome::Unsat(log) => {
            assert!(rt; log.len() <= budget as usize + 1);
            let answer = replayed(alloc, cnf, &log)?;
            assert_eq!(rt; answer, Replay::Refutes);
            Ok(Found::Unsat)
        }
        Outcome::Spent(log) => {
            assert_eq!(rt; log.len(), budget as usize);
            let answer = replayed(alloc, cnf, &log)?;
            assert_eq!(rt; answer, Replay::NoEmpty);
            Ok(Found::Spent)
        }
    }
}

/// The outcomes with the budgets 0, 1 and 10.
fn outcomes_of(
    rt: &impl Abort,
    alloc: Global,
    variables: u32,
    text: &str,
) -> Result<[Found; 3], AllocError> {
    let cnf = cnf_of(rt, alloc, variables, text)?;
    let none = outcome_of(rt, alloc, &cnf, 0)?;
    let one = outcome_of(rt, alloc, &cnf, 1)?;
    let ten = outcome_of(rt, alloc, &cnf, 10)?;
    Ok([none, one, ten])
}

#[test]
fn outcomes(rt: HostRuntime) -> Result<(), Fail> {
    use Found::{Sat, Spent, Unsat};
    let table = [
        // no clauses, and the empty clause
        (0, "", [Sat, Sat, Sat]),
        (3, "", [Sat, Sat, Sat]),
        (1, "0", [Unsat, Unsat, Unsat]),
        // units, which are propagated before anything is decided
        (1, "1 0 -1 0", [Unsat, Unsat, Unsat]),
        (4, "1 0 -1 2 0 -2 3 0 -3 4 0 -4 0", [Unsat, Unsat, Unsat]),
        (4, "-3 4 0 -2 3 0 -1 2 0 1 0", [Sat, Sat, Sat]),
        // a literal twice, and both signs
        (1, "1 1 0 -1 -1 0", [Unsat, Unsat, Unsat]),
        (2, "1 -1 0 1 2 0", [Sat, Sat, Sat]),
        // nothing follows by propagation alone
        (2, SQUARE, [Spent, Unsat, Unsat]),
        (12, PIGEONS, [Spent, Spent, Unsat]),
        // one conflict on the way to bits
        (2, "1 2 0 1 -2 0", [Spent, Sat, Sat]),
    ];
    for (variables, text, wanted) in table {
        let answers = outcomes_of(&rt, rt.alloc(), variables, text)?;
        assert_eq!(rt; answers, wanted, "{text}");
    }
    Ok(())
}

/// Gates that nothing else names: each variable from 13 to 1000 is the sum, without carry, of the two before it.
fn idle_gates(alloc: Global) -> Result<String, AllocError> {
    let mut text = String::new(alloc);
    for first in 11..999u32 {
        let second = first + 1;
        let gate = first + 2;
        let clauses = format!(in alloc;
            " -{gate} {first} {second} 0 -{gate} -{first} -{second} 0 {gate} -{first} {second} 0 {gate} {first} -{second} 0"
        )?;
        text.push_str(&clauses)?;
    }
    Ok(text)
}

/// A search doesn't spend its budget over gates that have no part in what is asked: there are clauses to be learned of them, more
/// than the budget allows.
#[test]
fn idle_gates_spend_no_budget(rt: HostRuntime) -> Result<(), Fail> {
    let alloc = rt.alloc();
    let gates = idle_gates(alloc)?;
    let text = format!(in alloc; "{PIGEONS}{gates}")?;
    let cnf = cnf_of(&rt, alloc, 1000, &text)?;
    let found = outcome_of(&rt, alloc, &cnf, 200_000)?;
    assert_eq!(rt; found, Found::Unsat);
    Ok(())
}

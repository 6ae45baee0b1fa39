// Small clause sets with logs that were worked out by hand, both written as in DIMACS: 1 is the first variable, -1 its negation, and 0 ends a clause.
use crate::dimacs::{PIGEONS, SQUARE, cnf_of, log_of};
use civl_rup::{Replay, replay};
use std::alloc::{AllocError, Global};
use std::process::Abort;
use std::test::Fail;

/// What the replay of a log over a clause set answers.
fn replayed(
    rt: &impl Abort,
    alloc: Global,
    variables: u32,
    clauses: &str,
    log: &str,
) -> Result<Replay, AllocError> {
    let cnf = cnf_of(rt, alloc, variables, clauses)?;
    let log = log_of(rt, alloc, log)?;
    match replay(alloc, &cnf, &log) {
        Ok(found) => Ok(found),
        Err(_) => Err(AllocError),
    }
}

#[test]
fn small_logs(rt: HostRuntime) -> Result<(), Fail> {
    let table = [
        // the empty log
        (2, "", "", Replay::NoEmpty),
        (2, SQUARE, "", Replay::NoEmpty),
        // the empty clause, where units give a conflict and where they don't
        (1, "1 0 -1 0", "0", Replay::Refutes),
        (0, "", "0", Replay::NotRup(0)),
        (2, SQUARE, "0", Replay::NotRup(0)),
        // the empty clause in the clause set
        (1, "0", "", Replay::NoEmpty),
        (1, "0", "0", Replay::Refutes),
        (1, "0", "1 0", Replay::NoEmpty),
        // a clause that is there already, a weaker one, and ones that don't follow
        (2, "1 2 0", "1 2 0", Replay::NoEmpty),
        (3, "1 2 0", "1 2 3 0", Replay::NoEmpty),
        (2, "1 2 0", "1 0", Replay::NotRup(0)),
        (2, "1 2 0", "-1 -2 0", Replay::NotRup(0)),
        // a clause that is false where the clauses are true, behind a good one
        (2, "1 2 0 1 -2 0", "1 0", Replay::NoEmpty),
        (2, "1 2 0 1 -2 0", "1 0 -1 0", Replay::NotRup(1)),
        // a refutation in two steps, and clauses after the empty one
        (2, SQUARE, "1 0 0", Replay::Refutes),
        (2, SQUARE, "1 0 2 0 0", Replay::Refutes),
        (2, SQUARE, "1 0", Replay::NoEmpty),
        (2, SQUARE, "1 0 0 -1 0", Replay::Refutes),
        (2, SQUARE, "1 0 0 3 0", Replay::NotRup(2)),
        // a clause that needs a later one
        (2, SQUARE, "0 1 0", Replay::NotRup(0)),
        // a variable that stands twice, with one sign and with both
        (2, SQUARE, "1 1 0 0", Replay::NotRup(0)),
        (2, SQUARE, "1 0 2 -2 0 0", Replay::NotRup(1)),
        // a variable that the clause set doesn't have
        (1, "1 0 -1 0", "2 0 0", Replay::NotRup(0)),
        (2, "1 0 -1 0", "2 0 0", Replay::Refutes),
        // clauses of the set are read as sets: a literal twice, and both signs
        (1, "1 1 0 -1 -1 0", "0", Replay::Refutes),
        (1, "1 -1 0", "0", Replay::NotRup(0)),
        (2, "1 -1 0 1 2 0", "2 1 0", Replay::NoEmpty),
        // a chain of units, forwards and backwards
        (4, "1 0 -1 2 0 -2 3 0 -3 4 0 -4 0", "0", Replay::Refutes),
        (4, "-4 0 -3 4 0 -2 3 0 -1 2 0 1 0", "0", Replay::Refutes),
        (4, "-3 4 0 -2 3 0 -1 2 0", "-1 4 0", Replay::NoEmpty),
        (4, "-3 4 0 -2 3 0 -1 2 0", "1 4 0", Replay::NotRup(0)),
    ];
    for (variables, clauses, log, answer) in table {
        let found = replayed(&rt, rt.alloc(), variables, clauses, log)?;
        assert_eq!(rt; found, answer, "{log} over {clauses}");
    }
    Ok(())
}

#[test]
fn pigeons(rt: HostRuntime) -> Result<(), Fail> {
    let table = [
        // pigeon 0 isn't in hole 1 or 2, then pigeon 1 isn't in hole 1
        ("-1 -5 0 -1 0 -2 -4 0 -2 0 -4 0 0", Replay::Refutes),
        ("-1 -5 0 -1 0 -2 -4 0 -2 0 -4 0", Replay::NoEmpty),
        ("-1 -5 0 -1 0 -2 -4 0 -2 0 0", Replay::NotRup(4)),
        ("-1 -5 0 -1 0 -2 0", Replay::NotRup(2)),
        ("-1 0", Replay::NotRup(0)),
    ];
    for (log, answer) in table {
        let found = replayed(&rt, rt.alloc(), 12, PIGEONS, log)?;
        assert_eq!(rt; found, answer, "{log}");
    }
    Ok(())
}

// Asking the provers in turn.
ghost use Rattle.std.specs.Prelude.{◌≡◌, List, Bool, IfOk, OnErr};
ghost use Rattle.civl_cnf.specs.Literal.{Literal};
ghost use Rattle.civl_rup.specs.Rup.{Refutes, Spends};
ghost use Rattle.civl_portfolio.specs.Attempt.{MakesTrue};
ghost use Rattle.civl_portfolio.specs.Asked.{IsRound, IsCutShort};
ghost use Rattle.civl_portfolio.specs.inner.Heard.{IsProved};

use crate::hearing::{Heard, ask_one};
use crate::{Memory, Prover};
use civl_cdcl::{Outcome, solve};
use civl_cnf::Cnf;
use civl_rup::{Replay, replay};
use std::alloc::Global;

/// What a round of asking found, and how many provers it dropped.
#[derive(Drop)]
pub struct Asked {
    /// The first certificate that stands, or what the search of the house found. Bits may be more than there are variables.
    pub outcome: Outcome,
    /// How many provers were taken out of the list, since their certificates were refused.
    pub retired: usize,
}

/// The search of the house, whose log is replayed as any other.
fn search(alloc: Global, cnf: &Cnf, budget: u32) -> Result<Outcome, Memory>
    ensures { IfOk result (IsProved cnf.now budget) }
{
    match solve(alloc, cnf, budget)? {
        Outcome::Sat(bits) => Ok(Outcome::Sat(bits)),
        Outcome::Spent(log) => Ok(Outcome::Spent(log)),
        Outcome::Unsat(log) => match replay(alloc, cnf, &log)? {
            Replay::Refutes => Ok(Outcome::Unsat(log)),
            Replay::NotRup(_) => unreachable!(),
            Replay::NoEmpty => unreachable!(),
        },
    }
}

/// Asks the provers in order. Those that give up or lack memory are passed over; one whose log doesn't refute the clause set, or whose bits don't make it true, is taken out of the list and dropped. The first certificate that stands is the outcome, and nobody behind it is asked. Where none does, the search of the house has the outcome, with a budget of so many clauses to learn.
///
/// A certificate is refused too where the bits are fewer than the set's variables, or a clause of the log names a variable that the set doesn't have.
///
/// An `Err` says that memory was wanting, for the replay of a log or for the search of the house. The provers that were dropped until then are gone, and the others stay in their order.
///
/// # Errors
///
/// For want of memory.
pub fn ask(
    alloc: Global,
    provers: &mut Vec<Box<dyn Prover>>,
    cnf: &Cnf,
    budget: u32,
) -> Result<Asked, Memory>
    ensures sat { IfOk result (λ asked. (bits : List Bool) → asked.outcome ≡ Outcome.Sat bits → MakesTrue cnf.now bits) }
    ensures unsat { IfOk result (λ asked. (log : List (List Literal)) → asked.outcome ≡ Outcome.Unsat log → Refutes cnf.now log) }
    ensures spent { IfOk result (λ asked. (log : List (List Literal)) → asked.outcome ≡ Outcome.Spent log → Spends cnf.now log budget) }
    ensures round { IfOk result (λ a. IsRound provers.old.items provers.new.items a.retired cnf.now budget a.outcome (record { asked = asked; lacks = lacks; honest = honest; plan = plan })) }
    ensures err { OnErr result (IsCutShort provers.old.items provers.new.items cnf.now budget (record { asked = asked; lacks = lacks; honest = honest; plan = plan })) }
{
    let mut at = 0;
    let mut retired = 0;
    while at < provers.len() {
        match ask_one(alloc, &mut provers[at], cnf, budget)? {
            Heard::Certified(outcome) => return Ok(Asked { outcome, retired }),
            Heard::Nothing => at += 1,
            Heard::Lied => {
                let _liar = provers.remove(at);
                retired += 1;
            }
        }
    }
    let outcome = search(alloc, cnf, budget)?;
    Ok(Asked { outcome, retired })
}

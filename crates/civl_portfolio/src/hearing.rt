// Asking one prover.
ghost use Rattle.std.specs.Prelude.{IfOk, OnErr};
ghost use Rattle.civl_portfolio.specs.inner.Heard.{HeardSays, WasAsked};

use crate::{Attempt, Memory, Prover};
use civl_cdcl::Outcome;
use civl_cnf::{Cnf, truth};
use civl_rup::{Replay, replay};
use std::alloc::Global;

/// What was heard of one prover: a certificate that stands, nothing, or a certificate that is refused.
#[derive(Drop)]
pub enum Heard {
    Certified(Outcome),
    Nothing,
    Lied,
}

/// Asks one prover, and looks at its certificate.
pub fn ask_one(
    alloc: Global,
    prover: &mut Box<dyn Prover>,
    cnf: &Cnf,
    budget: u32,
) -> Result<Heard, Memory>
    ensures ok { IfOk result (λ heard. HeardSays prover.old prover.new cnf.now budget (record { asked = asked; lacks = lacks; honest = honest; plan = plan }) heard) }
    ensures err { OnErr result (WasAsked prover.old prover.new (record { asked = asked; lacks = lacks; honest = honest; plan = plan })) }
{
    match prover.attempt(alloc, cnf, budget) {
        Attempt::Unsat(log) => match replay(alloc, cnf, &log)? {
            Replay::Refutes => Ok(Heard::Certified(Outcome::Unsat(log))),
            Replay::NotRup(_) => Ok(Heard::Lied),
            Replay::NoEmpty => Ok(Heard::Lied),
        },
        Attempt::Sat(bits) => {
            if cnf.variables() <= bits.len() && truth(cnf, &bits) {
                Ok(Heard::Certified(Outcome::Sat(bits)))
            } else {
                Ok(Heard::Lied)
            }
        }
        Attempt::GaveUp => Ok(Heard::Nothing),
        Attempt::Memory => Ok(Heard::Nothing),
    }
}

// What is learned of a branch that is refuted.
ghost use Rattle.std.specs.Prelude.{◌≡◌, ◌++◌, ◌∷◌, [], IfOk, OnOk, IsFalse};
ghost use Rattle.civl_cnf.specs.ClauseSet.{ClauseSet};
ghost use Rattle.civl_provers.specs.Splitter.{IsRefuted, AfterRefuted, FewerLeft};
ghost use Rattle.civl_provers.specs.inner.Standing.{Turns};

use crate::memory::Memory;
use civl_cnf::{Clause, Lit, Log};
use std::alloc::Global;

/// Adds the branch's clause to the log: one of its literals is true.
fn learn(alloc: Global, falses: &[Lit], log: &mut Log) -> Result<(), Memory>
    ensures { OnOk result (log.new ≡ log.old ++ falses.now ∷ []) }
{
    let clause = Clause::from_slice(alloc, falses)?;
    log.push(clause)?;
    Ok(())
}

/// Learns the clause of a branch that is refuted. From the last choice on, each choice that was turned is taken back, and the clause of what is left is learned too, since both sides are refuted. The first that wasn't turned is turned now. Whether there is none, and the log refutes the clause set.
pub fn refute(alloc: Global, falses: &mut Vec<Lit>, log: &mut Log) -> Result<bool, Memory>
    ensures after { IfOk result (λ done. (set : ClauseSet) → IsRefuted set falses.old.items log.old → AfterRefuted set falses.new.items log.new done) }
    ensures turned { IfOk result (λ done. IsFalse done → Turns falses.old.items falses.new.items) }
    ensures fewer { IfOk result (λ done. IsFalse done → FewerLeft falses.old.items falses.new.items) }
{
    loop {
        learn(alloc, falses.as_slice(), log)?;
        match falses.pop() {
            None => return Ok(true),
            Some(last) => {
                if last.positive() {
                    falses.push(last.negate())?;
                    return Ok(false);
                }
            }
        }
    }
}

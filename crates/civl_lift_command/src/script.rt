// What is found of a script.
ghost use Rattle.std.specs.Prelude.{◌+◌, ◌<◌, ◌^◌, length, IsTrue};
ghost use Rattle.civl_tree.specs.Numbered.{IsNumbered};
ghost use Rattle.civl_tree.specs.SpellingDomain.{allows_program};
ghost use Rattle.civl_verdicts.specs.Verdicts.{IsVerdict};
ghost use Rattle.civl_reduction.specs.simulation.Followed.{IsAccepted as IsSound};
ghost use Rattle.civl_frontend.specs.Rules.{IsLawful, IsTaken};
ghost use Rattle.civl_frontend.specs.Told.{IsJudged};
ghost use Rattle.civl_lift_command.specs.Lifting.{IsAccepted};
ghost use Rattle.civl_lift_command.specs.Outcome.{Lifts, telling};

use crate::judged::{decided, misfit, refuse, too_heavy};
use crate::schedule::judge_schedule;
use civl_frontend::{Judged, admitted};
use civl_layers::{Layered, program};
use civl_maker::Maker;
use civl_portfolio::Prover;
use civl_script::{Schedule, read_schedule};
use civl_tree::{Entry, List, Refused, Script, Told};
use civl_verdicts::Verdict;
use civl_verdicts::judging::verify;
use civl_weights::TooMuch;
use civl_yields::verify::{Admitted, locals_held, source};
use std::alloc::Global;

/// What is found of the entries and moves of a script whose program is accepted.
fn judge_accepted(
    alloc: Global,
    budget: u32,
    src: &Layered,
    store: &List<Entry>,
    moves: &List<Told>,
) -> Judged
    requires accepted { IsAccepted src.now }
    requires sound { IsSound src.now }
    requires few { length src.now.threads + length moves.now + 1 < 2 ^ 32 }
    ensures { IsJudged telling (Lifts budget (record { program = src.now; store = store.now; moves = moves.now })) result }
{
    match read_schedule(alloc, &program(src).globals, store, moves) {
        Ok(Schedule::Fits(store, moves)) => judge_schedule(alloc, src, &store, &moves),
        Ok(Schedule::Wrong(number)) => misfit(alloc, number),
        Err(_) => Judged::wanting(),
    }
}

/// What is found of a script by the verdict on its program.
fn judge_verdict(
    alloc: Global,
    budget: u32,
    src: &Layered,
    verdict: &Verdict,
    store: &List<Entry>,
    moves: &List<Told>,
) -> Judged
    requires taken { IsTaken src.now }
    requires verdict { IsVerdict src.now budget verdict.now }
    requires numbered { IsNumbered src.now }
    requires written { IsTrue (allows_program src.now) }
    requires few { length src.now.threads + length moves.now + 1 < 2 ^ 32 }
    ensures { IsJudged telling (Lifts budget (record { program = src.now; store = store.now; moves = moves.now })) result }
{
    match verdict {
        Verdict::Accepted(_) => judge_accepted(alloc, budget, src, store, moves),
        Verdict::Rejected(_) => decided(alloc, src, budget, verdict),
        Verdict::Undecided(_, _) => decided(alloc, src, budget, verdict),
        Verdict::NoInitial => decided(alloc, src, budget, verdict),
    }
}

/// What is found of a script whose program breaks no static rule. No provers are asked but the search.
fn judge_admitted(
    alloc: Global,
    budget: u32,
    admitted: &Admitted,
    store: &List<Entry>,
    moves: &List<Told>,
) -> Judged
    requires rules { IsLawful admitted.now }
    requires numbered { IsNumbered admitted.now }
    requires written { IsTrue (allows_program admitted.now) }
    requires few { length admitted.now.threads + length moves.now + 1 < 2 ^ 32 }
    ensures { IsJudged telling (Lifts budget (record { program = admitted.now; store = store.now; moves = moves.now })) result }
{
    let src = source(admitted);
    let mut provers: Vec<Box<dyn Prover>> = Vec::new(alloc);
    match verify(
        alloc,
        &Maker,
        src,
        locals_held(admitted),
        &mut provers,
        budget,
    ) {
        Ok(verdict) => judge_verdict(alloc, budget, src, &verdict, store, moves),
        Err(TooMuch::Weight(formula)) => too_heavy(alloc, src, formula),
        Err(TooMuch::Memory) => Judged::wanting(),
    }
}

/// What is found of a script. Its program has fewer than 2^32 items, and each procedure fewer than 2^32 statements; its threads and moves
/// together are fewer than 2^32 less one.
pub(crate) fn judge_script(alloc: Global, budget: u32, script: Script) -> Judged
    requires numbered { IsNumbered script.program }
    requires written { IsTrue (allows_program script.program) }
    requires few { length script.program.threads + length script.moves + 1 < 2 ^ 32 }
    ensures { IsJudged telling (Lifts budget script) result }
{
    let Script {
        program,
        store,
        moves,
    } = script;
    match admitted(alloc, program) {
        Ok(admitted) => judge_admitted(alloc, budget, &admitted, &store, &moves),
        Err(Refused::At(refusal)) => refuse(alloc, refusal),
        Err(Refused::Memory) => Judged::wanting(),
    }
}

// Certificates: one condition of a program, and the replay of a log.
ghost use Rattle.std.specs.Prelude.{◌≡◌, ◌≤◌, length, IsTrue};
ghost use Rattle.civl_tree.specs.SpellingDomain.{allows_program};
ghost use Rattle.civl_frontend.specs.Rules.{IsLawful};
ghost use Rattle.civl_frontend.specs.Texts.{IsReading, limit};
ghost use Rattle.civl_command.specs.Outcome.{Asked, Replayed, Asks, Finds, FindsReplayed, making_status, replaying_status, certificate_limit};
ghost use Rattle.civl_command.specs.Judge.{IsJudged};

use crate::admission::read_admitted;
use civl_certify::Certified;
use civl_certify::proof_reports::{
    Making, Replaying, make_proof, replay_text, report_making, report_replaying,
};
use civl_frontend::{Judged, Report, Status};
use civl_layers::Layered;
use civl_maker::Maker;
use civl_portfolio::Prover;
use civl_yields::verify::{Admitted, locals_held, source};
use std::alloc::Global;

/// The status of what is found of a condition.
fn making_status(making: &Making) -> Status
    ensures { result ≡ making_status making.now }
{
    match making {
        Making::Heavy(_) => Status::Refused,
        Making::Beyond(_) => Status::Refused,
        Making::Shown(_, Certified::NoInitial) => Status::Refused,
        Making::Shown(_, Certified::Answer(_, _)) => Status::Done,
    }
}

/// What is written of a condition.
fn asked(alloc: Global, src: &Layered, at: u32, budget: u32, making: &Making) -> Judged
    ensures { IsJudged (λ outcome. outcome ≡ Asked src.now at budget making.now) result }
{
    let Ok(report) = report_making(alloc, src, budget, at, making) else {
        return Judged::wanting();
    };
    Judged {
        status: making_status(making),
        report: Report::Made(report),
    }
}

/// What `proof make` finds of a program that breaks no static rule.
fn make_admitted(
    alloc: Global,
    at: u32,
    budget: u32,
    admitted: &Admitted,
    provers: &mut Vec<Box<dyn Prover>>,
) -> Judged
    requires rules { IsLawful admitted.now }
    requires written { IsTrue (allows_program admitted.now) }
    ensures { IsJudged (Asks at budget admitted.now) result }
{
    let src = source(admitted);
    match make_proof(
        alloc,
        &Maker,
        src,
        locals_held(admitted),
        provers,
        budget,
        at,
    ) {
        Ok(making) => asked(alloc, src, at, budget, &making),
        Err(_) => Judged::wanting(),
    }
}

/// What `proof make` finds of a text.
pub(crate) fn make_text(
    alloc: Global,
    at: u32,
    budget: u32,
    bytes: &[u8],
    provers: &mut Vec<Box<dyn Prover>>,
) -> Judged
    requires { length bytes.now ≤ limit }
    ensures { IsJudged (Finds IsReading (Asks at budget) bytes.now) result }
{
    match read_admitted(alloc, bytes) {
        Ok(admitted) => make_admitted(alloc, at, budget, &admitted, provers),
        Err(judged) => judged,
    }
}

/// The status of what is found of a certificate.
fn replaying_status(replaying: Replaying) -> Status
    ensures { result ≡ replaying_status replaying }
{
    match replaying {
        Replaying::Unread(_) => Status::Refused,
        Replaying::Read(_) => Status::Done,
    }
}

/// What is written of a certificate.
fn replayed(alloc: Global, replaying: Replaying) -> Judged
    ensures { IsJudged (λ outcome. outcome ≡ Replayed replaying) result }
{
    let Ok(report) = report_replaying(alloc, replaying) else {
        return Judged::wanting();
    };
    Judged {
        status: replaying_status(replaying),
        report: Report::Made(report),
    }
}

/// What `proof replay` finds of a text.
pub(crate) fn replay_bytes(alloc: Global, bytes: &[u8]) -> Judged
    requires { length bytes.now ≤ certificate_limit }
    ensures { IsJudged (FindsReplayed bytes.now) result }
{
    match replay_text(alloc, bytes) {
        Ok(replaying) => replayed(alloc, replaying),
        Err(_) => Judged::wanting(),
    }
}

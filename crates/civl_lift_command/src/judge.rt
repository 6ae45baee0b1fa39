// What the words and the input call for.
ghost use Rattle.std.specs.Prelude.{◌≡◌, ◌≤◌, ℕ, List, length, map, string_bytes};
ghost use Rattle.civl_frontend.specs.Report.{bytes_of};
ghost use Rattle.civl_frontend.specs.Streams.{reading};
ghost use Rattle.civl_frontend.specs.Texts.{limit};
ghost use Rattle.civl_frontend.specs.Told.{IsJudged};
ghost use Rattle.civl_lift_command.specs.Words.{AskToLift, AskToLiftSome};
ghost use Rattle.civl_lift_command.specs.Outcome.{FindsBy, telling};
ghost use Rattle.civl_lift_command.specs.Judge.{Judges};

use crate::judged::{judge_fault, too_long, usage};
use crate::script::judge_script;
use crate::words::budget_of;
use civl_frontend::{Judged, LIMIT, Report, Status, Text, read_script};
use civl_outside::{Source, Whole, read_whole};
use std::alloc::Global;

/// What is found of a text, which is no longer than an input may be.
fn judge_text(alloc: Global, budget: u32, bytes: &[u8]) -> Judged
    requires { length bytes.now ≤ limit }
    ensures { IsJudged telling (FindsBy budget bytes.now) result }
{
    match read_script(alloc, bytes) {
        Text::Spelled(script) => judge_script(alloc, budget, script),
        Text::Unread(fault) => judge_fault(alloc, fault),
        Text::Memory => Judged::wanting(),
    }
}

/// What is found of the input, which is read to its end or to one byte past the limit.
fn judge_input<S: Source>(alloc: Global, budget: u32, source: &mut S) -> Judged
    ensures { (words : List (List ℕ)) → AskToLift budget words → Judges words
        (reading (S.left source.old) (S.faults source.old))
        (reading (S.left source.new) (S.faults source.new))
        result.status (bytes_of result.report) }
{
    match read_whole(alloc, source, LIMIT) {
        Whole::Bytes(bytes) => judge_text(alloc, budget, bytes.as_slice()),
        Whole::Long => too_long(alloc, LIMIT),
        Whole::Failed => Judged {
            status: Status::ReadFault,
            report: Report::Fixed(b""),
        },
        Whole::Memory => Judged::wanting(),
    }
}

/// What the words and the input call for. The input is read where the words ask for lifting.
pub(crate) fn judge<S: Source>(alloc: Global, words: &Vec<String>, source: &mut S) -> Judged
    ensures judges { Judges (map string_bytes words.now.items)
        (reading (S.left source.old) (S.faults source.old))
        (reading (S.left source.new) (S.faults source.new))
        result.status (bytes_of result.report) }
    ensures unread { (AskToLiftSome (map string_bytes words.now.items) → ⊥) → source.new ≡ source.old }
{
    match budget_of(words) {
        Some(budget) => judge_input(alloc, budget, source),
        None => usage(),
    }
}

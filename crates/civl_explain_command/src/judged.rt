// What is written of an outcome.
ghost use Rattle.std.specs.Prelude.{◌≡◌, ◌≤◌, ◌++◌, ℕ, List, IfOk, length};
ghost use Rattle.civl_frontend.specs.Report.{bytes_of};
ghost use Rattle.civl_lines.specs.Tokens.{AreTokens};
ghost use Rattle.civl_explain_command.specs.Outcome.{TooLong, Unread};
ghost use Rattle.civl_explain_command.specs.Told.{IsTold};
ghost use Rattle.civl_explain_command.specs.Judge.{IsJudged, usage_text};
ghost use Rattle.civl_refusals.specs.Refusals.{expected_text};
ghost use Rattle.civl_explain_command.specs.inner.Read.{IsWithin};

use crate::manner::Manner;
use civl_expected::{Expected, TextKind, expected_at};
use civl_frontend::{Fault, Judged, Report, Status, report_fault, report_long};
use civl_lex::{Token, tokens};
use civl_lines::Text;
use civl_refusals::{put_at, put_expected, put_fault};
use civl_tree::Memory;
use std::alloc::Global;

/// An input that is read, its kind, and how stories are told of it.
#[derive(Clone, Copy)]
pub(crate) struct Input<'a> {
    pub kind: TextKind,
    pub manner: Manner,
    pub bytes: &'a [u8],
}

/// What is written where the words ask for nothing.
pub(crate) fn usage() -> Judged
    ensures status { result.status ≡ Status.Usage }
    ensures report { bytes_of result.report ≡ usage_text }
{
    Judged {
        status: Status::Usage,
        report: Report::Fixed(
            b"usage: civl_explain check|conditions|run|prove [--lines] [--assumed]\n",
        ),
    }
}

/// All tokens of bytes that have some.
pub(crate) fn all_tokens<'a>(alloc: Global, bytes: &'a [u8]) -> Result<Vec<Token<'a>>, Memory>
    ensures { IfOk result (λ found. AreTokens bytes.now found.items) }
{
    match tokens(alloc, bytes) {
        Ok(found) => Ok(found),
        Err(_) => Err(Memory),
    }
}

/// What is written of a report that was made.
pub(crate) fn refused(report: Vec<u8>) -> Judged
    ensures status { result.status ≡ Status.Refused }
    ensures report { bytes_of result.report ≡ report.items }
{
    Judged {
        status: Status::Refused,
        report: Report::Made(report),
    }
}

/// What is written of a text that is longer than it may be.
pub(crate) fn too_long(alloc: Global, kind: TextKind, manner: Manner, most: usize) -> Judged
    ensures { (input : List ℕ) → IsJudged kind manner input (λ outcome. outcome ≡ TooLong most) result }
{
    let Ok(report) = report_long(alloc, most) else {
        return Judged::wanting();
    };
    refused(report)
}

/// The report of a byte at which no token begins.
fn report_byte(alloc: Global, input: &Input<'_>, place: usize) -> Result<Vec<u8>, Memory>
    requires { place ≤ length input.now.bytes.now }
    ensures { IfOk result (λ out. IsTold input.now.kind input.now.manner input.now.bytes.now (Unread (Fault.NoToken place)) out.items) }
{
    let mut out = report_fault(alloc, Fault::NoToken(place))?;
    put_fault(
        &mut out,
        input.manner.form,
        input.bytes,
        place,
        b"no token begins here",
    )?;
    Ok(out)
}

/// What may stand at a place of a text.
fn expected_text(alloc: Global, expected: &Expected) -> Result<Vec<u8>, Memory>
    ensures { IfOk result (λ text. text.items ≡ expected_text expected.now) }
{
    let mut text = Vec::new(alloc);
    put_expected(&mut text, expected)?;
    Ok(text)
}

/// The report of a token that can't stand where it does, beside the text's tokens.
fn put_not_here(
    alloc: Global,
    input: &Input<'_>,
    text: &Text<'_>,
    place: usize,
) -> Result<Vec<u8>, Memory>
    requires bytes { text.now.bytes.now ≡ input.now.bytes.now }
    requires tokens { AreTokens text.now.bytes.now text.now.tokens.now }
    ensures { IfOk result (λ out. IsTold input.now.kind input.now.manner input.now.bytes.now (Unread (Fault.NotHere place)) out.items) }
{
    let behind = place.min(text.tokens.len());
    let expected = expected_at(alloc, text.tokens, behind, input.kind)?;
    let said = expected_text(alloc, &expected)?;
    let mut out = report_fault(alloc, Fault::NotHere(place))?;
    put_at(&mut out, input.manner.form, text, place, said.as_slice())?;
    Ok(out)
}

/// The report of a token that can't stand where it does.
fn report_not_here(alloc: Global, input: &Input<'_>, place: usize) -> Result<Vec<u8>, Memory>
    ensures { IfOk result (λ out. IsTold input.now.kind input.now.manner input.now.bytes.now (Unread (Fault.NotHere place)) out.items) }
{
    let found = all_tokens(alloc, input.bytes)?;
    let text = Text {
        bytes: input.bytes,
        tokens: found.as_slice(),
    };
    let out = put_not_here(alloc, input, &text, place)?;
    Ok(out)
}

/// The report of a token that opens one bracket too many.
fn report_deep(alloc: Global, input: &Input<'_>, place: usize) -> Result<Vec<u8>, Memory>
    ensures { IfOk result (λ out. IsTold input.now.kind input.now.manner input.now.bytes.now (Unread (Fault.Deep place)) out.items) }
{
    let found = all_tokens(alloc, input.bytes)?;
    let text = Text {
        bytes: input.bytes,
        tokens: found.as_slice(),
    };
    let mut out = report_fault(alloc, Fault::Deep(place))?;
    put_at(
        &mut out,
        input.manner.form,
        &text,
        place,
        b"this opens the 65th bracket",
    )?;
    Ok(out)
}

/// The report of the first fault of a text.
fn report_unread(alloc: Global, input: &Input<'_>, fault: Fault) -> Result<Vec<u8>, Memory>
    requires { IsWithin input.now.bytes.now fault }
    ensures { IfOk result (λ out. IsTold input.now.kind input.now.manner input.now.bytes.now (Unread fault) out.items) }
{
    match fault {
        Fault::NoToken(place) => report_byte(alloc, input, place),
        Fault::NotHere(place) => report_not_here(alloc, input, place),
        Fault::Deep(place) => report_deep(alloc, input, place),
    }
}

/// What is written of the first fault of a text.
pub(crate) fn judge_fault(alloc: Global, input: &Input<'_>, fault: Fault) -> Judged
    requires { IsWithin input.now.bytes.now fault }
    ensures { IsJudged input.now.kind input.now.manner input.now.bytes.now (λ outcome. outcome ≡ Unread fault) result }
{
    let Ok(report) = report_unread(alloc, input, fault) else {
        return Judged::wanting();
    };
    refused(report)
}

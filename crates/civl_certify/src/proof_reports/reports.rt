// The reports.
ghost use Rattle.std.specs.Prelude.{◌≡◌, ◌++◌, decimal, OnOk, IfOk};
ghost use Rattle.civl_verdicts.specs.reports.Lines.{line};
ghost use Rattle.civl_certify.specs.proof_reports.Reports.{beyond_text, certificate_text, fails_text, open_text, shown_text, making_text, replaying_text};

use crate::proof_reports::{Making, Memory, Replaying};
use crate::{Certified, Shown};
use civl_cnf::{Cnf, Log};
use civl_conditions::Condition;
use civl_layers::Layered;
use civl_proofs::certificate;
use civl_rup::Replay;
use civl_verdicts::Counter;
use civl_verdicts::reports::{
    put, put_formula, put_no_initial, put_number, put_values, report_heavy,
};
use std::alloc::Global;

/// A line that ends with a number.
fn put_counted(out: &mut Vec<u8>, text: &[u8], number: usize) -> Result<(), Memory>
    ensures { OnOk result (out.new.items ≡ out.old.items ++ line (text.now ++ decimal number)) }
{
    put(out, text)?;
    put_number(out, number)?;
    put(out, b"\n")?;
    Ok(())
}

/// That no condition has the number.
fn put_beyond(out: &mut Vec<u8>, at: u32, count: usize) -> Result<(), Memory>
    ensures { OnOk result (out.new.items ≡ out.old.items ++ beyond_text at count) }
{
    put(out, b"refused E81 at ")?;
    put_number(out, at as usize)?;
    put(out, b" of ")?;
    put_number(out, count)?;
    put(out, b"\n")?;
    Ok(())
}

/// The certificate of a condition that holds, behind a comment line with the condition's name.
fn put_certificate(
    alloc: Global,
    out: &mut Vec<u8>,
    src: &Layered,
    condition: Condition,
    cnf: &Cnf,
    log: &Log,
) -> Result<(), Memory>
    ensures { OnOk result (out.new.items ≡ out.old.items ++ certificate_text src.now condition cnf.now log.now) }
{
    let text = certificate(alloc, cnf, log)?;
    put(out, b"c ")?;
    put_formula(alloc, out, src, Some(condition))?;
    put(out, b"\n")?;
    put(out, text.as_slice())?;
    Ok(())
}

/// That a condition fails, and a line for each of its variables.
fn put_fails(
    alloc: Global,
    out: &mut Vec<u8>,
    src: &Layered,
    condition: Condition,
    counter: &Counter,
) -> Result<(), Memory>
    ensures { OnOk result (out.new.items ≡ out.old.items ++ fails_text src.now condition counter.now) }
{
    put_formula(alloc, out, src, Some(condition))?;
    put(out, b": fails\n")?;
    put_values(alloc, out, src, b"  ", &condition, &counter.values)?;
    Ok(())
}

/// That a condition is left open.
fn put_open(
    alloc: Global,
    out: &mut Vec<u8>,
    src: &Layered,
    budget: u32,
    condition: Condition,
) -> Result<(), Memory>
    ensures { OnOk result (out.new.items ≡ out.old.items ++ open_text src.now budget condition) }
{
    put_formula(alloc, out, src, Some(condition))?;
    put_counted(out, b": undecided after ", budget as usize)?;
    Ok(())
}

/// What is shown of a condition.
fn put_shown(
    alloc: Global,
    out: &mut Vec<u8>,
    src: &Layered,
    budget: u32,
    condition: Condition,
    shown: &Shown,
) -> Result<(), Memory>
    ensures { OnOk result (out.new.items ≡ out.old.items ++ shown_text src.now budget condition shown.now) }
{
    match shown {
        Shown::Holds(cnf, log) => put_certificate(alloc, out, src, condition, cnf, log),
        Shown::Fails(counter) => put_fails(alloc, out, src, condition, counter),
        Shown::Undecided(_) => put_open(alloc, out, src, budget, condition),
    }
}

/// What is found of a program and one of its conditions.
fn put_making(
    alloc: Global,
    out: &mut Vec<u8>,
    src: &Layered,
    budget: u32,
    at: u32,
    making: &Making,
) -> Result<(), Memory>
    ensures { OnOk result (out.new.items ≡ out.old.items ++ making_text src.now budget at making.now) }
{
    match making {
        Making::Heavy(first) => {
            let text = report_heavy(alloc, src, *first)?;
            put(out, text.as_slice())?;
            Ok(())
        }
        Making::Beyond(count) => put_beyond(out, at, *count),
        Making::Shown(_, Certified::NoInitial) => {
            put_no_initial(out, src)?;
            Ok(())
        }
        Making::Shown(condition, Certified::Answer(_, shown)) => {
            put_shown(alloc, out, src, budget, *condition, shown)
        }
    }
}

/// What is reported of a program and the condition with the number `at`: the refusal where a formula weighs too much, where there is no
/// such condition, or where no store is initial. Of a condition that holds, a comment line `c` with its name, and its certificate; of
/// one that fails, its name and under it a line for each of its variables; else that it is left open under the budget.
///
/// # Errors
///
/// For want of memory.
pub fn report_making(
    alloc: Global,
    src: &Layered,
    budget: u32,
    at: u32,
    making: &Making,
) -> Result<Vec<u8>, Memory>
    ensures { IfOk result (λ out. out.items ≡ making_text src.now budget at making.now) }
{
    let mut out = Vec::new(alloc);
    put_making(alloc, &mut out, src, budget, at, making)?;
    Ok(out)
}

/// What a replay finds.
fn put_replay(out: &mut Vec<u8>, found: Replay) -> Result<(), Memory>
    ensures { OnOk result (out.new.items ≡ out.old.items ++ replaying_text (Replaying.Read found)) }
{
    match found {
        Replay::Refutes => {
            put(out, b"refutes\n")?;
            Ok(())
        }
        Replay::NotRup(place) => put_counted(out, b"not rup ", place),
        Replay::NoEmpty => {
            put(out, b"no empty\n")?;
            Ok(())
        }
    }
}

/// What is found of a text that is to be a certificate.
fn put_replaying(out: &mut Vec<u8>, replaying: Replaying) -> Result<(), Memory>
    ensures { OnOk result (out.new.items ≡ out.old.items ++ replaying_text replaying) }
{
    match replaying {
        Replaying::Unread(place) => put_counted(out, b"refused E82 at byte ", place),
        Replaying::Read(found) => put_replay(out, found),
    }
}

/// What is reported of a text that is to be a certificate: the refusal with the place of its first fault, or what the replay of its log
/// finds.
///
/// # Errors
///
/// For want of memory.
pub fn report_replaying(alloc: Global, replaying: Replaying) -> Result<Vec<u8>, Memory>
    ensures { IfOk result (λ out. out.items ≡ replaying_text replaying) }
{
    let mut out = Vec::new(alloc);
    put_replaying(&mut out, replaying)?;
    Ok(out)
}

// The texts of what `run` and `trial` report.
ghost use Rattle.std.specs.Prelude.{◌≡◌, ◌++◌, OnOk, IfOk};
ghost use Rattle.civl_command.specs.Report.{store_lines, answer_text, stopped_text, run_text, trial_line};

use civl_bits::Value;
use civl_frontend::{put_failing, put_place};
use civl_meaning::Stepped;
use civl_script::replays::Trace;
use civl_tree::{Global as GlobalVar, List, Memory, Program};
use civl_verdicts::reports::{put, put_value};
use std::alloc::Global;

/// A line for each global, with its value in the store.
fn put_store(
    out: &mut Vec<u8>,
    globals: &List<GlobalVar>,
    values: &List<Value>,
) -> Result<(), Memory>
    ensures { OnOk result (out.new.items ≡ out.old.items ++ store_lines globals.now values.now) }
{
    for at in 0..globals.len().min(values.len()) {
        put_value(out, b"", &globals.get(at).name, values.get(at))?;
    }
    Ok(())
}

/// The word of an answer.
fn answer_name(answer: Stepped) -> &'static [u8]
    ensures { result.now ≡ answer_text answer }
{
    match answer {
        Stepped::Moved => b"moved",
        Stepped::Blocked => b"blocked",
        Stepped::NoThread => b"nothread",
        Stepped::Ended => b"ended",
        Stepped::Failing => b"failing",
        Stepped::BadChoices => b"badchoices",
    }
}

/// A line that says why a run stopped, if it did.
fn put_stopped(out: &mut Vec<u8>, stopped: Option<Stepped>) -> Result<(), Memory>
    ensures { OnOk result (out.new.items ≡ out.old.items ++ stopped_text stopped) }
{
    if let Some(answer) = stopped {
        put(out, b"stopped ")?;
        put(out, answer_name(answer))?;
        put(out, b"\n")?;
    }
    Ok(())
}

fn put_run(out: &mut Vec<u8>, program: &Program, trace: &Trace) -> Result<(), Memory>
    ensures { OnOk result (out.new.items ≡ out.old.items ++ run_text program.now trace.now) }
{
    put_place(out, b"moved ", trace.moved)?;
    put_stopped(out, trace.stopped)?;
    put_failing(out, trace.failing)?;
    put_store(out, &program.globals, &trace.end.values)?;
    Ok(())
}

/// What is reported of a schedule.
pub(crate) fn report_run(alloc: Global, program: &Program, trace: &Trace) -> Result<Vec<u8>, Memory>
    ensures { IfOk result (λ out. out.items ≡ run_text program.now trace.now) }
{
    let mut out = Vec::new(alloc);
    put_run(&mut out, program, trace)?;
    Ok(out)
}

/// The line of a trial, and the report on its text.
fn put_trial(out: &mut Vec<u8>, number: u32, report: &[u8]) -> Result<(), Memory>
    ensures { OnOk result (out.new.items ≡ out.old.items ++ (trial_line number ++ report.now)) }
{
    put_place(out, b"trial ", number as usize)?;
    put(out, report)?;
    Ok(())
}

/// What is reported of a trial, by the report on its text.
pub(crate) fn report_trial(alloc: Global, number: u32, report: &[u8]) -> Result<Vec<u8>, Memory>
    ensures { IfOk result (λ out. out.items ≡ trial_line number ++ report.now) }
{
    let mut out = Vec::new(alloc);
    put_trial(&mut out, number, report)?;
    Ok(out)
}

// The report of a run.
ghost use Rattle.std.specs.Prelude.{◌≡◌, ◌++◌, OnOk};
ghost use Rattle.civl_command.specs.Report.{answer_text, run_text, stopped_text, store_lines};

use civl_bits::Value;
use civl_frontend::{put_failing, put_place};
use civl_meaning::Stepped;
use civl_script::replays::Trace;
use civl_tree::{Global as GlobalVar, List, Memory, Program};
use civl_verdicts::reports::{put, put_value};

/// A line for each global, with its value in the store.
fn put_store(
    out: &mut Vec<u8>,
    globals: &List<GlobalVar>,
    values: &List<Value>,
) -> Result<(), Memory>
    ensures { OnOk result (out.new.items ≡ out.old.items ++ store_lines globals.now values.now) }
{
    for at in 0..globals.len().min(values.len()) {
        put_value(out, b"", &globals.get(at).name, values.get(at))?;
    }
    Ok(())
}

/// The word of an answer.
pub(crate) fn answer_name(answer: Stepped) -> &'static [u8]
    ensures { result.now ≡ answer_text answer }
{
    match answer {
        Stepped::Moved => b"moved",
        Stepped::Blocked => b"blocked",
        Stepped::NoThread => b"nothread",
        Stepped::Ended => b"ended",
        Stepped::Failing => b"failing",
        Stepped::BadChoices => b"badchoices",
    }
}

/// A line that says why a run stopped, if it did.
fn put_stopped(out: &mut Vec<u8>, stopped: Option<Stepped>) -> Result<(), Memory>
    ensures { OnOk result (out.new.items ≡ out.old.items ++ stopped_text stopped) }
{
    if let Some(answer) = stopped {
        put(out, b"stopped ")?;
        put(out, answer_name(answer))?;
        put(out, b"\n")?;
    }
    Ok(())
}

/// Puts what `civl` reports of a run behind what is there.
///
/// # Errors
///
/// For want of memory.
pub(crate) fn put_run(out: &mut Vec<u8>, program: &Program, trace: &Trace) -> Result<(), Memory>
    ensures { OnOk result (out.new.items ≡ out.old.items ++ run_text program.now trace.now) }
{
    put_place(out, b"moved ", trace.moved)?;
    put_stopped(out, trace.stopped)?;
    put_failing(out, trace.failing)?;
    put_store(out, &program.globals, &trace.end.values)
}

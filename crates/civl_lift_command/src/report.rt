// The text of a report.
ghost use Rattle.std.specs.Prelude.{◌≡◌, ◌++◌, OnOk, IfOk, map, codes};
ghost use Rattle.std.specs.List.{flat_map};
ghost use Rattle.civl_verdicts.specs.models.Text.{value_text, listed};
ghost use Rattle.civl_lift_command.specs.Report.{not_failing_text, move_line, lifted_text, spent_text};

use civl_bits::Value;
use civl_frontend::{put_failing, put_place};
use civl_meaning::Move;
use civl_tree::{List, Memory};
use civl_verdicts::models::put_value_text;
use civl_verdicts::reports::{put, put_number};
use std::alloc::Global;

/// A value behind others.
fn put_other(out: &mut Vec<u8>, value: &Value) -> Result<(), Memory>
    ensures { OnOk result (out.new.items ≡ out.old.items ++ (codes ", " ++ value_text value.now)) }
{
    put(out, b", ")?;
    put_value_text(out, value)?;
    Ok(())
}

/// Values, with a comma and a blank between them.
fn put_choices(out: &mut Vec<u8>, values: &[Value]) -> Result<(), Memory>
    ensures { OnOk result (out.new.items ≡ out.old.items ++ listed (map value_text values.now)) }
{
    if values.len() == 0 {
        return Ok(());
    }
    put_value_text(out, &values[0])?;
    for at in 1..values.len() {
        put_other(out, &values[at])?;
    }
    Ok(())
}

/// A line with a move.
fn put_move(out: &mut Vec<u8>, chosen: &Move) -> Result<(), Memory>
    ensures { OnOk result (out.new.items ≡ out.old.items ++ move_line chosen.now) }
{
    put(out, b"move ")?;
    put_number(out, chosen.thread as usize)?;
    put(out, b" (")?;
    put_choices(out, chosen.choices.as_slice())?;
    put(out, b");\n")?;
    Ok(())
}

/// A line for each move.
fn put_moves(out: &mut Vec<u8>, moves: &[Move]) -> Result<(), Memory>
    ensures { OnOk result (out.new.items ≡ out.old.items ++ flat_map move_line moves.now) }
{
    for chosen in moves {
        put_move(out, chosen)?;
    }
    Ok(())
}

fn put_lifted(out: &mut Vec<u8>, moves: &List<Move>, thread: u32) -> Result<(), Memory>
    ensures { OnOk result (out.new.items ≡ out.old.items ++ lifted_text moves.now thread) }
{
    put_place(out, b"lifted ", moves.len())?;
    put_moves(out, moves.as_slice())?;
    put_failing(out, Some(thread))?;
    Ok(())
}

/// What is reported of moves that were lifted, and of the least thread that fails at their end.
pub(crate) fn report_lifted(
    alloc: Global,
    moves: &List<Move>,
    thread: u32,
) -> Result<Vec<u8>, Memory>
    ensures { IfOk result (λ out. out.items ≡ lifted_text moves.now thread) }
{
    let mut out = Vec::new(alloc);
    put_lifted(&mut out, moves, thread)?;
    Ok(out)
}

fn put_spent(out: &mut Vec<u8>, step: u32, thread: u32) -> Result<(), Memory>
    ensures { OnOk result (out.new.items ≡ out.old.items ++ spent_text step thread) }
{
    put(out, b"spent step ")?;
    put_number(out, step as usize)?;
    put(out, b" thread ")?;
    put_number(out, thread as usize)?;
    put(out, b"\n")?;
    Ok(())
}

/// What is reported of a block that isn't ended: the step between layers, and the thread.
pub(crate) fn report_spent(alloc: Global, step: u32, thread: u32) -> Result<Vec<u8>, Memory>
    ensures { IfOk result (λ out. out.items ≡ spent_text step thread) }
{
    let mut out = Vec::new(alloc);
    put_spent(&mut out, step, thread)?;
    Ok(out)
}

/// What is reported of moves that don't run to a failing configuration, by how many are made.
pub(crate) fn report_not_failing(alloc: Global, moved: usize) -> Result<Vec<u8>, Memory>
    ensures { IfOk result (λ out. out.items ≡ not_failing_text moved) }
{
    let mut out = Vec::new(alloc);
    put_place(&mut out, b"refused E84 at move ", moved)?;
    Ok(out)
}

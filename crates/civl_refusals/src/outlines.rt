// Outlines that break a rule of outlines.
ghost use Rattle.std.specs.Prelude.{◌≡◌, ◌<◌, ◌^◌, ◌++◌, ◌-◌, option_copied, OnOk, IfOk, length, take};
ghost use Rattle.std.specs.List.{list_any};
ghost use Rattle.std.specs.Option.{option_map_or};
ghost use Rattle.civl_tree.specs.declared.stmt.Stmt.{out-Stmt};
ghost use Rattle.civl_tree.specs.Numbering.{statement_at, statements_of};
ghost use Rattle.civl_tree.specs.SpellingProgram.{spell_program};
ghost use Rattle.civl_outlines.specs.SpellingOutline.{spell_outline};
ghost use Rattle.civl_goals.specs.Rules.{same_place};
ghost use Rattle.civl_goal_stories.specs.Places.{note_at};
ghost use Rattle.civl_lines.specs.Tokens.{AreTokens};
ghost use Rattle.civl_refusals.specs.Outlines.{descending_text, descending_told, form_calls, is_call, note_in, note_text, proc_at, rule_start, unfit_text, unfit_told};

use crate::refusals::{place_spot, proc_of_item};
use crate::spot::{put_at, put_spot};
use civl_goal_stories::{hold_at, note_at};
use civl_lines::{Form, Text};
use civl_names::walks::statements;
use civl_outlines::{Note, Outline};
use civl_tree::{Memory, Proc, Program, Stmt};
use std::alloc::Global;

/// The procedure that an item is, if it is one.
fn proc_at(program: &Program, item: usize) -> Option<&Proc>
    ensures { option_copied result ≡ proc_at program.now item }
{
    let number = proc_of_item(program, item)?;
    program.procs.as_slice().get(number)
}

// ---- E90: a hold or a note

/// The token of a note.
fn note_start(outline: &Outline, place: usize) -> usize
    requires { length (spell_outline outline.now) < 2 ^ 64 }
    ensures { result ≡ option_map_or (λ part. part.token - 3) (note_at outline.now place) 0 }
{
    match note_at(outline, place) {
        Some(part) => part.token.saturating_sub(3),
        None => 0,
    }
}

/// The token of a hold or of a note, which are numbered together.
fn rule_start(outline: &Outline, number: usize) -> usize
    requires { length (spell_outline outline.now) < 2 ^ 64 }
    ensures { result ≡ rule_start outline.now number }
{
    match hold_at(outline, number) {
        Some(part) => part.token.saturating_sub(1),
        None => note_start(outline, number.saturating_sub(outline.holds.len())),
    }
}

/// Whether two notes stand before the same statement.
fn same_place(note: &Note, other: &Note) -> bool
    ensures { result ≡ same_place note.now other.now }
{
    note.item == other.item && note.statement == other.statement
}

/// Whether one of these notes stands before the same statement.
fn is_taken(earlier: &[Note], note: &Note) -> bool
    ensures { result ≡ list_any (same_place note.now) earlier.now }
{
    for other in earlier {
        if same_place(note, other) {
            return true;
        }
    }
    false
}

/// How many statements a procedure has.
fn statement_count(alloc: Global, proc: &Proc) -> Result<usize, Memory>
    ensures { IfOk result (λ count. count ≡ length (statements_of proc.now.body)) }
{
    let flat = statements(alloc, &proc.body)?;
    Ok(flat.len())
}

/// What is wrong with a note in a procedure.
fn note_in(
    alloc: Global,
    earlier: &[Note],
    note: &Note,
    proc: &Proc,
) -> Result<&'static [u8], Memory>
    ensures { IfOk result (λ text. text.now ≡ note_in earlier.now note.now proc.now) }
{
    let count = statement_count(alloc, proc)?;
    if (note.statement as usize) >= count {
        return Ok(b"the root has no statement with this number");
    }
    if is_taken(earlier, note) {
        return Ok(b"an earlier note stands before the same statement");
    }
    Ok(
        b"a note is a bool over the globals of the topmost program and the names of its root, in range, without done and old(..)",
    )
}

/// What is wrong with a note behind these.
fn note_text(
    alloc: Global,
    program: &Program,
    earlier: &[Note],
    note: &Note,
) -> Result<&'static [u8], Memory>
    ensures { IfOk result (λ text. text.now ≡ note_text program.now earlier.now note.now) }
{
    match proc_at(program, note.item as usize) {
        Some(proc) => match &proc.refines {
            None => note_in(alloc, earlier, note, proc),
            Some(_) => Ok(b"the item isn't a root"),
        },
        None => Ok(b"the item isn't a root"),
    }
}

/// The first of these notes, so many.
fn first_notes(notes: &[Note], count: usize) -> &[Note]
    requires { count < length notes.now }
    ensures { result.now ≡ take count notes.now }
{
    &notes[..count]
}

/// What is wrong with a hold, or with a note.
fn unfit_text(alloc: Global, outline: &Outline, number: usize) -> Result<&'static [u8], Memory>
    ensures { IfOk result (λ text. text.now ≡ unfit_text outline.now.program outline.now number) }
{
    let holds = outline.holds.len();
    if number < holds {
        return Ok(
            b"a hold is a bool over the globals of the topmost program, in range, without done and old(..)",
        );
    }
    let notes = outline.notes.as_slice();
    let place = number - holds;
    match notes.get(place) {
        Some(note) => note_text(alloc, &outline.program, first_notes(notes, place), note),
        None => Ok(
            b"a note is a bool over the globals of the topmost program and the names of its root, in range, without done and old(..)",
        ),
    }
}

/// Puts what is wrong with a hold or a note of an outline behind what is there, at its place. The number is that of the refusal E90.
///
/// # Errors
///
/// For want of memory.
pub fn put_unfit(
    alloc: Global,
    out: &mut Vec<u8>,
    form: Form,
    text: &Text<'_>,
    outline: &Outline,
    number: usize,
) -> Result<(), Memory>
    requires short { length (spell_outline outline.now) < 2 ^ 64 }
    requires tokens { AreTokens text.now.bytes.now text.now.tokens.now }
    ensures { OnOk result (out.new.items ≡ out.old.items
        ++ unfit_told form text.now.bytes.now text.now.tokens.now outline.now number) }
{
    let said = unfit_text(alloc, outline, number)?;
    put_at(out, form, text, rule_start(outline, number), said)
}

// ---- E91: what threads and roots call

/// Whether a statement is a call.
fn calls(stmt: &Stmt) -> bool
    ensures { result ≡ form_calls (out-Stmt stmt.now) }
{
    match stmt {
        Stmt::Call(_, _, _) => true,
        Stmt::Assign(_, _) | Stmt::Assert(_) | Stmt::If(_, _, _) | Stmt::While(_, _) => false,
        Stmt::YieldLoop(_, _, _) | Stmt::RankLoop(_, _, _, _) => false,
        Stmt::Yield(_) | Stmt::Commit | Stmt::Intro(_, _) | Stmt::Spawn(_, _) => false,
    }
}

/// The statement of a procedure that has this number.
fn statement(alloc: Global, proc: &Proc, number: usize) -> Result<Option<&Stmt>, Memory>
    ensures { IfOk result (λ stmt. option_copied stmt ≡ statement_at proc.now.body number) }
{
    let flat = statements(alloc, &proc.body)?;
    match flat.get(number) {
        Some(stmt) => Ok(Some(*stmt)),
        None => Ok(None),
    }
}

/// Whether a call stands there.
fn is_call(alloc: Global, program: &Program, item: usize, number: usize) -> Result<bool, Memory>
    ensures { IfOk result (λ call. call ≡ is_call program.now item number) }
{
    let Some(proc) = proc_at(program, item) else {
        return Ok(false);
    };
    match statement(alloc, proc, number)? {
        Some(stmt) => Ok(calls(stmt)),
        None => Ok(false),
    }
}

/// What is wrong with a call, a spawn or a declared thread.
fn descending_text(
    alloc: Global,
    program: &Program,
    item: usize,
    number: usize,
) -> Result<&'static [u8], Memory>
    ensures { IfOk result (λ text. text.now ≡ descending_text program.now item number) }
{
    if is_call(alloc, program, item, number)? {
        return Ok(b"a root calls a root");
    }
    Ok(b"a thread or a spawn goes to a procedure that refines an action")
}

/// Puts that a root calls a root, or that a thread or a spawn goes to a procedure that refines an action, behind what is there, at the
/// item and the statement that the refusal E91 names.
///
/// # Errors
///
/// For want of memory.
pub fn put_descending(
    alloc: Global,
    out: &mut Vec<u8>,
    form: Form,
    text: &Text<'_>,
    program: &Program,
    item: u32,
    statement: u32,
) -> Result<(), Memory>
    requires short { length (spell_program program.now) < 2 ^ 64 }
    requires tokens { AreTokens text.now.bytes.now text.now.tokens.now }
    ensures { OnOk result (out.new.items ≡ out.old.items
        ++ descending_told form text.now.bytes.now text.now.tokens.now program.now item statement) }
{
    let said = descending_text(alloc, program, item as usize, statement as usize)?;
    let spot = place_spot(program, item as usize, statement as usize);
    put_spot(alloc, out, form, text, program, spot, said)
}

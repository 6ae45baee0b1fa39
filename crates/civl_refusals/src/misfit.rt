// The first entry or move of a script that doesn't fit.
ghost use Rattle.std.specs.Prelude.{◌≡◌, ◌<◌, ◌^◌, ◌++◌, IfOk, OnOk, length};
ghost use Rattle.civl_tree.specs.SpellingScript.{spell_script};
ghost use Rattle.civl_lines.specs.Tokens.{AreTokens};
ghost use Rattle.civl_refusals.specs.Scripts.{beyond_text, due_text, misfit_text, misfit_told, sort_due, wanted_text};

use crate::scripts::part_start;
use crate::spot::put_at;
use civl_lines::{Form, Text};
use civl_subjects::put_sort;
use civl_tree::{Global, Memory, Script, Sort};
use civl_verdicts::reports::put;
use std::alloc::Global as Alloc;

/// That a value of a sort is due.
fn put_sort_due(out: &mut Vec<u8>, sort: Sort) -> Result<(), Memory>
    ensures { OnOk result (out.new.items ≡ out.old.items ++ sort_due sort) }
{
    put(out, b" is due here, a ")?;
    put_sort(out, sort)
}

/// What is due of a global.
fn put_wanted(out: &mut Vec<u8>, global: &Global) -> Result<(), Memory>
    ensures { OnOk result (out.new.items ≡ out.old.items ++ wanted_text global.now) }
{
    put(out, global.name.as_slice())?;
    put_sort_due(out, global.sort)
}

/// That the value of a global is due.
fn put_due(out: &mut Vec<u8>, global: &Global) -> Result<(), Memory>
    ensures { OnOk result (out.new.items ≡ out.old.items ++ due_text global.now) }
{
    put(out, b"the value of ")?;
    put_wanted(out, global)
}

/// What is wrong with an entry behind those of all globals, or with a move.
fn beyond_text(script: &Script, number: usize) -> &'static [u8]
    ensures { result.now ≡ beyond_text script.now number }
{
    if number < script.store.len() {
        return b"all globals have their values before this";
    }
    b"a choice here is no value"
}

/// What is wrong with the entry or the move that has this number.
fn put_misfit_text(out: &mut Vec<u8>, script: &Script, number: usize) -> Result<(), Memory>
    ensures { OnOk result (out.new.items ≡ out.old.items ++ misfit_text script.now number) }
{
    match script.program.globals.as_slice().get(number) {
        Some(global) => put_due(out, global),
        None => put(out, beyond_text(script, number)),
    }
}

/// The same by itself.
fn misfit_text(alloc: Alloc, script: &Script, number: usize) -> Result<Vec<u8>, Memory>
    ensures { IfOk result (λ said. said.items ≡ misfit_text script.now number) }
{
    let mut said = Vec::new(alloc);
    put_misfit_text(&mut said, script, number)?;
    Ok(said)
}

/// Puts what is wrong with the first entry or move of a script that doesn't fit behind what is there, at its place. The number is that of
/// the refusal E80: the moves are numbered behind the entries.
///
/// # Errors
///
/// For want of memory.
pub fn put_misfit(
    alloc: Alloc,
    out: &mut Vec<u8>,
    form: Form,
    text: &Text<'_>,
    script: &Script,
    number: usize,
) -> Result<(), Memory>
    requires short { length (spell_script script.now) < 2 ^ 64 }
    requires tokens { AreTokens text.now.bytes.now text.now.tokens.now }
    ensures { OnOk result (out.new.items ≡ out.old.items
        ++ misfit_told form text.now.bytes.now text.now.tokens.now script.now number) }
{
    let said = misfit_text(alloc, script, number)?;
    put_at(out, form, text, part_start(script, number), &said)
}

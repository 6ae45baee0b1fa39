// Lines at actions, and why gates and guards are false.
ghost use Rattle.std.specs.Prelude.{◌≡◌, ◌++◌, ◌<◌, ◌^◌, IfOk, OnOk, length, codes};
ghost use Rattle.civl_tree.specs.SpellingProgram.{spell_program};
ghost use Rattle.civl_firing.specs.Scope.{gate_values, guard_values};
ghost use Rattle.civl_firing.specs.Settings.{scope_in};
ghost use Rattle.civl_lines.specs.inner.Named.{told};
ghost use Rattle.civl_action_stories.specs.Actors.{at_item, called, gate_parts, goes_wrong, guard_parts, makes, remakes};
ghost use Rattle.civl_action_stories.specs.Actors.{named_parts_of, parts_of};
ghost use Rattle.civl_action_stories.specs.inner.Acting.{meant};

use crate::acting::Acting;
use crate::texts::{put_called, put_effect};
use civl_bits::Value;
use civl_clashes::Effect;
use civl_firing::Store;
use civl_firing::names::Names;
use civl_firing::setting::{Bindings, Setting};
use civl_lines::{Kind, Line, Naming, Shown, as_written, push_named_parts};
use civl_places::{Formula, InAction, formula_at};
use civl_tree::{Action, Global, List, Memory, Program};
use civl_verdicts::reports::put;
use std::alloc::Global as Alloc;

// ---- lines

/// A line at the item that begins at this token.
pub(crate) fn at_item(token: usize, kind: Kind, text: Vec<u8>) -> Line
    ensures { result ≡ at_item token kind text.items }
{
    Line {
        token,
        shown: Shown::Tokens(2),
        kind,
        text: List::from_vec(text),
    }
}

/// A word of the order, `NAME with ..` and the effect.
pub(crate) fn makes(
    alloc: Alloc,
    word: &[u8],
    program: &Program,
    x: &Acting<'_>,
    before: &Store,
    effect: &Effect,
) -> Result<Line, Memory>
    ensures { IfOk result (λ line. line ≡ makes word.now program.now (meant x.now) before.now effect.now) }
{
    let mut text = Vec::from_slice(alloc, word)?;
    put_called(alloc, &mut text, x)?;
    put(&mut text, b": ")?;
    put_effect(alloc, &mut text, program, x, before, effect)?;
    Ok(at_item(x.token, Kind::Info, text))
}

/// The same without the values.
pub(crate) fn remakes(
    alloc: Alloc,
    word: &[u8],
    program: &Program,
    x: &Acting<'_>,
    before: &Store,
    effect: &Effect,
) -> Result<Line, Memory>
    ensures { IfOk result (λ line. line ≡ remakes word.now program.now (meant x.now) before.now effect.now) }
{
    let mut text = Vec::from_slice(alloc, word)?;
    put(&mut text, x.action.name.as_slice())?;
    put(&mut text, b": ")?;
    put_effect(alloc, &mut text, program, x, before, effect)?;
    Ok(at_item(x.token, Kind::Info, text))
}

/// What goes wrong at an action, said with its name.
pub(crate) fn named_wrong(
    alloc: Alloc,
    before: &[u8],
    x: &Acting<'_>,
    behind: &[u8],
) -> Result<Line, Memory>
    ensures { IfOk result (λ line. line ≡ goes_wrong (meant x.now) (before.now ++ (x.now.action.now.name.bytes ++ behind.now))) }
{
    let mut text = Vec::from_slice(alloc, before)?;
    put(&mut text, x.action.name.as_slice())?;
    put(&mut text, behind)?;
    Ok(at_item(x.token, Kind::Error, text))
}

/// What goes wrong at an action, said with its name and its values.
pub(crate) fn called_wrong(
    alloc: Alloc,
    before: &[u8],
    x: &Acting<'_>,
    behind: &[u8],
) -> Result<Line, Memory>
    ensures { IfOk result (λ line. line ≡ goes_wrong (meant x.now) (before.now ++ (called (meant x.now) ++ behind.now))) }
{
    let mut text = Vec::from_slice(alloc, before)?;
    put_called(alloc, &mut text, x)?;
    put(&mut text, behind)?;
    Ok(at_item(x.token, Kind::Error, text))
}

// ---- false formulas

/// Why a formula of the program is false, behind the other lines, with its names told so.
pub(crate) fn push_named_parts_of<B: Bindings>(
    alloc: Alloc,
    lines: &mut Vec<Line>,
    program: &Program,
    naming: &Naming<'_>,
    formula: &Formula,
    bindings: &B,
) -> Result<(), Memory>
    requires { length (spell_program program.now) < 2 ^ 64 }
    ensures { OnOk result (lines.new.items ≡ lines.old.items
        ++ named_parts_of program.now (told naming.now) formula.now (B.scope bindings.now)) }
{
    match formula_at(program, formula) {
        Some(part) => push_named_parts(alloc, lines, naming, bindings, &part),
        None => Ok(()),
    }
}

/// The same with the names as they are.
pub(crate) fn push_parts_of<B: Bindings>(
    alloc: Alloc,
    lines: &mut Vec<Line>,
    program: &Program,
    formula: &Formula,
    bindings: &B,
) -> Result<(), Memory>
    requires { length (spell_program program.now) < 2 ^ 64 }
    ensures { OnOk result (lines.new.items ≡ lines.old.items ++ parts_of program.now formula.now (B.scope bindings.now)) }
{
    push_named_parts_of(alloc, lines, program, &as_written(), formula, bindings)
}

/// What an action's gate is about.
#[tactic(auto, using(civl_firing::proofs::Joining::appending))]
fn at_gate<'a>(globals: &'a [Global], store: &'a Store, x: &Acting<'a>) -> Setting<'a>
    ensures { scope_in result ≡ gate_values globals.now store.now x.now.action.now x.now.inputs.now }
{
    Setting {
        names: Names {
            globals,
            params: x.action.params.as_slice(),
            choices: &[],
            outs: x.action.outs.as_slice(),
            locals: &[],
            behind: &[],
        },
        store: store.values.as_slice(),
        inputs: x.inputs,
        chosen: &[],
        zeros: x.action.outs.as_slice(),
    }
}

/// What an action's guard is about.
#[tactic(auto, using(civl_firing::proofs::Joining::appending))]
fn at_guard<'a>(globals: &'a [Global], store: &'a Store, x: &Acting<'a>) -> Setting<'a>
    ensures { scope_in result ≡ guard_values globals.now store.now x.now.action.now x.now.inputs.now x.now.chosen.now }
{
    Setting {
        names: Names {
            globals,
            params: x.action.params.as_slice(),
            choices: x.action.choices.as_slice(),
            outs: x.action.outs.as_slice(),
            locals: &[],
            behind: &[],
        },
        store: store.values.as_slice(),
        inputs: x.inputs,
        chosen: x.chosen,
        zeros: x.action.outs.as_slice(),
    }
}

/// Why an action's gate is false in a store, behind the other lines.
pub(crate) fn push_gate(
    alloc: Alloc,
    lines: &mut Vec<Line>,
    program: &Program,
    x: &Acting<'_>,
    store: &Store,
) -> Result<(), Memory>
    requires { length (spell_program program.now) < 2 ^ 64 }
    ensures { OnOk result (lines.new.items ≡ lines.old.items ++ gate_parts program.now (meant x.now) store.now) }
{
    let setting = at_gate(program.globals.as_slice(), store, x);
    push_parts_of(
        alloc,
        lines,
        program,
        &Formula::Action(x.number as usize, InAction::Gate),
        &setting,
    )
}

/// Why an action's guard is false in a store, behind the other lines.
pub(crate) fn push_guard(
    alloc: Alloc,
    lines: &mut Vec<Line>,
    program: &Program,
    x: &Acting<'_>,
    store: &Store,
) -> Result<(), Memory>
    requires { length (spell_program program.now) < 2 ^ 64 }
    ensures { OnOk result (lines.new.items ≡ lines.old.items ++ guard_parts program.now (meant x.now) store.now) }
{
    let setting = at_guard(program.globals.as_slice(), store, x);
    push_parts_of(
        alloc,
        lines,
        program,
        &Formula::Action(x.number as usize, InAction::Guard),
        &setting,
    )
}

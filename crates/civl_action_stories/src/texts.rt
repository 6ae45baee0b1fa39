// What is said of an action: its name with its values, and what it leaves.
ghost use Rattle.std.specs.Prelude.{◌≡◌, ◌++◌, IfOk, OnOk, [], ◌∷◌, if◌then◌else◌, codes};
ghost use Rattle.std.specs.List.{flat_map};
ghost use Rattle.civl_bits.specs.Value.{same_value};
ghost use Rattle.civl_tree.specs.rules.Names.{param_names};
ghost use Rattle.civl_firing.specs.Scope.{choice_names};
ghost use Rattle.civl_verdicts.specs.models.Text.{listed};
ghost use Rattle.civl_lines.specs.Pieces.{equation, change_text};
ghost use Rattle.civl_action_stories.specs.Actors.{called, changes, effect_text, equations, or_nothing, with_text};
ghost use Rattle.civl_action_stories.specs.inner.Acting.{meant};

use crate::acting::Acting;
use civl_bits::Value;
use civl_clashes::Effect;
use civl_firing::Store;
use civl_lines::{put_change, put_equation};
use civl_tree::{Choice, Global, List, Memory, Name, Param, Program};
use civl_verdicts::reports::put;
use std::alloc::Global as Alloc;

/// Puts `, ` and a text behind what is there.
fn put_other(out: &mut Vec<u8>, text: &[u8]) -> Result<(), Memory>
    ensures { OnOk result (out.new.items ≡ out.old.items ++ (codes ", " ++ text.now)) }
{
    put(out, b", ")?;
    put(out, text)
}

/// The same with each of these texts.
fn put_others(out: &mut Vec<u8>, texts: &[List<u8>]) -> Result<(), Memory>
    ensures { OnOk result (out.new.items ≡ out.old.items ++ flat_map (λ text. codes ", " ++ text) texts.now) }
{
    for text in texts {
        put_other(out, text.as_slice())?;
    }
    Ok(())
}

/// Puts texts behind what is there, with `, ` between them.
///
/// # Errors
///
/// For want of memory.
#[tactic(auto, using(crate::proofs::Past::listed_is))]
pub fn put_listed(out: &mut Vec<u8>, texts: &[List<u8>]) -> Result<(), Memory>
    ensures { OnOk result (out.new.items ≡ out.old.items ++ listed texts.now) }
{
    if texts.is_empty() {
        return Ok(());
    }
    put(out, texts[0].as_slice())?;
    put_others(out, &texts[1..])
}

// ---- values of names

/// `name = value`, behind the other texts.
fn push_equation(
    alloc: Alloc,
    texts: &mut Vec<List<u8>>,
    name: &Name,
    value: &Value,
) -> Result<(), Memory>
    ensures { OnOk result (texts.new.items ≡ texts.old.items ++ (equation name.now value.now ∷ [])) }
{
    let mut text = Vec::new(alloc);
    put_equation(&mut text, name, value)?;
    texts.push(List::from_vec(text))?;
    Ok(())
}

/// The same of each parameter or output.
fn push_params(
    alloc: Alloc,
    texts: &mut Vec<List<u8>>,
    params: &[Param],
    values: &[Value],
) -> Result<(), Memory>
    ensures { OnOk result (texts.new.items ≡ texts.old.items ++ equations (param_names params.now) values.now) }
{
    for at in 0..params.len().min(values.len()) {
        push_equation(alloc, texts, &params[at].name, &values[at])?;
    }
    Ok(())
}

/// The same of each choice.
fn push_choices(
    alloc: Alloc,
    texts: &mut Vec<List<u8>>,
    choices: &[Choice],
    values: &[Value],
) -> Result<(), Memory>
    ensures { OnOk result (texts.new.items ≡ texts.old.items ++ equations (choice_names choices.now) values.now) }
{
    for at in 0..choices.len().min(values.len()) {
        push_equation(alloc, texts, &choices[at].name, &values[at])?;
    }
    Ok(())
}

// ---- the action

/// The values of an action's inputs and choices, as equations.
fn given(alloc: Alloc, x: &Acting<'_>) -> Result<Vec<List<u8>>, Memory>
    ensures { IfOk result (λ texts. texts.items ≡ equations (param_names x.now.action.now.params) x.now.inputs.now
        ++ equations (choice_names x.now.action.now.choices) x.now.chosen.now) }
{
    let mut texts = Vec::new(alloc);
    push_params(alloc, &mut texts, x.action.params.as_slice(), x.inputs)?;
    push_choices(alloc, &mut texts, x.action.choices.as_slice(), x.chosen)?;
    Ok(texts)
}

/// Puts ` with ` and the texts joined by `, ` behind what is there, or nothing where there are none.
///
/// # Errors
///
/// For want of memory.
pub fn put_with(out: &mut Vec<u8>, texts: &[List<u8>]) -> Result<(), Memory>
    ensures { OnOk result (out.new.items ≡ out.old.items ++ with_text texts.now) }
{
    if texts.is_empty() {
        return Ok(());
    }
    put(out, b" with ")?;
    put_listed(out, texts)
}

/// `NAME with p = v, ..`
pub(crate) fn put_called(alloc: Alloc, out: &mut Vec<u8>, x: &Acting<'_>) -> Result<(), Memory>
    ensures { OnOk result (out.new.items ≡ out.old.items ++ called (meant x.now)) }
{
    let texts = given(alloc, x)?;
    put(out, x.action.name.as_slice())?;
    put_with(out, texts.as_slice())
}

// ---- what it leaves

/// `name: before -> after`, behind the other texts, if the value changes.
fn push_change(
    alloc: Alloc,
    texts: &mut Vec<List<u8>>,
    name: &Name,
    before: &Value,
    after: &Value,
) -> Result<(), Memory>
    ensures { OnOk result (texts.new.items ≡ texts.old.items ++ (if same_value before.now after.now then []
        else change_text name.now before.now after.now ∷ [])) }
{
    if before.same(after) {
        return Ok(());
    }
    let mut text = Vec::new(alloc);
    put_change(&mut text, name, before, after)?;
    texts.push(List::from_vec(text))?;
    Ok(())
}

/// The same of each global.
fn push_changes(
    alloc: Alloc,
    texts: &mut Vec<List<u8>>,
    globals: &[Global],
    before: &[Value],
    after: &[Value],
) -> Result<(), Memory>
    ensures { OnOk result (texts.new.items ≡ texts.old.items ++ changes globals.now before.now after.now) }
{
    for at in 0..globals.len().min(before.len()).min(after.len()) {
        push_change(alloc, texts, &globals[at].name, &before[at], &after[at])?;
    }
    Ok(())
}

/// What an action made of a store, as texts.
fn changed(
    alloc: Alloc,
    program: &Program,
    x: &Acting<'_>,
    before: &Store,
    effect: &Effect,
) -> Result<Vec<List<u8>>, Memory>
    ensures { IfOk result (λ texts. texts.items ≡ changes program.now.globals before.now.values effect.now.store.values
        ++ equations (param_names x.now.action.now.outs) effect.now.outs) }
{
    let mut texts = Vec::new(alloc);
    push_changes(
        alloc,
        &mut texts,
        program.globals.as_slice(),
        before.values.as_slice(),
        effect.store.values.as_slice(),
    )?;
    push_params(
        alloc,
        &mut texts,
        x.action.outs.as_slice(),
        effect.outs.as_slice(),
    )?;
    Ok(texts)
}

/// The texts joined by `, `, or that there are none.
fn put_or_nothing(out: &mut Vec<u8>, texts: &[List<u8>]) -> Result<(), Memory>
    ensures { OnOk result (out.new.items ≡ out.old.items ++ or_nothing texts.now) }
{
    if texts.is_empty() {
        return put(out, b"changes nothing");
    }
    put_listed(out, texts)
}

/// What an action made of a store.
pub(crate) fn put_effect(
    alloc: Alloc,
    out: &mut Vec<u8>,
    program: &Program,
    x: &Acting<'_>,
    before: &Store,
    effect: &Effect,
) -> Result<(), Memory>
    ensures { OnOk result (out.new.items ≡ out.old.items ++ effect_text program.now (meant x.now) before.now effect.now) }
{
    let texts = changed(alloc, program, x, before, effect)?;
    put_or_nothing(out, texts.as_slice())
}

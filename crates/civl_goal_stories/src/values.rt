// The values of a frame, and what a statement changes, as texts.
ghost use Rattle.std.specs.Prelude.{◌≡◌, ◌+◌, ◌<◌, ◌^◌, ◌++◌, ◌∷◌, [], length, IfOk, OnOk};
ghost use Rattle.civl_firing.specs.Names.{names_of};
ghost use Rattle.civl_lines.specs.Pieces.{change_text, equation};
ghost use Rattle.civl_path_stories.specs.Paths.{name_at};
ghost use Rattle.civl_goal_stories.specs.Frames.{change_at, change_texts, changes, frame_texts, value_texts};

use civl_bits::Value;
use civl_firing::names::Names;
use civl_goal_losses::Moment;
use civl_path_stories::naming::{name_at, noted};
use civl_tree::{List, Memory, Proc, Program};
use civl_verdicts::models::put_value_text;
use civl_verdicts::reports::put;
use std::alloc::Global;

/// `name = value`, of the name at a place.
fn value_text(
    alloc: Global,
    names: &Names<'_>,
    place: usize,
    value: &Value,
) -> Result<List<u8>, Memory>
    ensures { IfOk result (λ text. text ≡ equation (name_at (names_of names.now) place) value.now) }
{
    let mut text = Vec::new(alloc);
    put(&mut text, name_at(names, place))?;
    put(&mut text, b" = ")?;
    put_value_text(&mut text, value)?;
    Ok(List::from_vec(text))
}

/// The same of each of these values, whose names stand from this place on, behind the other texts.
fn push_values(
    alloc: Global,
    texts: &mut Vec<List<u8>>,
    names: &Names<'_>,
    first: usize,
    values: &[Value],
) -> Result<(), Memory>
    requires { first + length values.now < 2 ^ 64 }
    ensures { OnOk result (texts.new.items ≡ texts.old.items ++ value_texts (names_of names.now) first values.now) }
{
    for at in 0..values.len() {
        texts.push(value_text(alloc, names, first + at, &values[at])?)?;
    }
    Ok(())
}

/// The values of a frame of a procedure.
pub(crate) fn frame_texts(
    alloc: Global,
    program: &Program,
    proc: &Proc,
    locals: &[Value],
) -> Result<Vec<List<u8>>, Memory>
    ensures { IfOk result (λ texts. texts.items ≡ frame_texts program.now proc.now locals.now) }
{
    let names = noted(program.globals.as_slice(), proc);
    let mut texts = Vec::new(alloc);
    push_values(alloc, &mut texts, &names, program.globals.len(), locals)?;
    Ok(texts)
}

/// `name: before -> after`, of the name at a place.
fn change_text(
    alloc: Global,
    names: &Names<'_>,
    place: usize,
    before: &Value,
    after: &Value,
) -> Result<List<u8>, Memory>
    ensures { IfOk result (λ text. text ≡ change_text (name_at (names_of names.now) place) before.now after.now) }
{
    let mut text = Vec::new(alloc);
    put(&mut text, name_at(names, place))?;
    put(&mut text, b": ")?;
    put_value_text(&mut text, before)?;
    put(&mut text, b" -> ")?;
    put_value_text(&mut text, after)?;
    Ok(List::from_vec(text))
}

/// The same, if the value changes, behind the other texts.
fn push_change(
    alloc: Global,
    texts: &mut Vec<List<u8>>,
    names: &Names<'_>,
    place: usize,
    before: &Value,
    after: &Value,
) -> Result<(), Memory>
    ensures { OnOk result (texts.new.items ≡ texts.old.items ++ change_at (names_of names.now) place before.now after.now) }
{
    if before.same(after) {
        return Ok(());
    }
    texts.push(change_text(alloc, names, place, before, after)?)?;
    Ok(())
}

/// The same of all of these, whose names stand from this place on.
fn push_changes(
    alloc: Global,
    texts: &mut Vec<List<u8>>,
    names: &Names<'_>,
    first: usize,
    before: &[Value],
    after: &[Value],
) -> Result<(), Memory>
    requires { first + length before.now < 2 ^ 64 }
    ensures { OnOk result (texts.new.items ≡ texts.old.items ++ changes (names_of names.now) first before.now after.now) }
{
    for at in 0..before.len().min(after.len()) {
        push_change(alloc, texts, names, first + at, &before[at], &after[at])?;
    }
    Ok(())
}

/// What changes of the globals and of a frame of this procedure.
pub(crate) fn change_texts(
    alloc: Global,
    program: &Program,
    proc: &Proc,
    here: &Moment,
    there: &Moment,
) -> Result<Vec<List<u8>>, Memory>
    ensures { IfOk result (λ texts. texts.items ≡ change_texts program.now proc.now here.now there.now) }
{
    let names = noted(program.globals.as_slice(), proc);
    let mut texts = Vec::new(alloc);
    push_changes(
        alloc,
        &mut texts,
        &names,
        0,
        here.store.values.as_slice(),
        there.store.values.as_slice(),
    )?;
    push_changes(
        alloc,
        &mut texts,
        &names,
        program.globals.len(),
        here.frame.locals.as_slice(),
        there.frame.locals.as_slice(),
    )?;
    Ok(texts)
}

// K3 and K5: two actions that can't be exchanged.
ghost use Rattle.std.specs.Prelude.{◌≡◌, ◌++◌, ◌∷◌, [], ◌<◌, ◌^◌, IfOk, OnOk, length, map, codes};
ghost use Rattle.civl_tree.specs.SpellingProgram.{spell_program};
ghost use Rattle.civl_verdicts.specs.models.Text.{listed, value_text};
ghost use Rattle.civl_action_stories.specs.Actors.{goes_wrong, guard_parts, makes, remakes};
ghost use Rattle.civl_action_stories.specs.Clashes.{clash_story, difference_text, exchanged_story, is_y_first};
ghost use Rattle.civl_action_stories.specs.Clashes.{letter, output_name, place_name};
ghost use Rattle.civl_action_stories.specs.inner.Acting.{meant};

use crate::acting::Acting;
use crate::lines::{at_item, makes, named_wrong, push_guard, remakes};
use crate::losses::{global_name, param_name};
use crate::texts::put_listed;
use civl_bits::Value;
use civl_clashes::{Clash, Difference, Effect, Exchanged, Order, Place, Which};
use civl_conditions::Condition;
use civl_firing::Store;
use civl_lines::{Kind, Line};
use civl_tree::{List, Memory, Param, Program};
use civl_verdicts::models::put_value_text;
use civl_verdicts::reports::put;
use std::alloc::Global;

// ---- differences

/// Whether the first action of a condition's pair is its Y.
pub(crate) fn is_y_first(condition: &Condition) -> bool
    ensures { result ≡ is_y_first condition.now }
{
    match condition {
        Condition::Pair(number, _, _, _) => *number == 5,
        Condition::Start(_, _) => false,
        Condition::Keep(_, _) => false,
        Condition::Fire(_, _) => false,
        Condition::Act(_, _, _) => false,
        Condition::Path(_, _, _, _) => false,
        Condition::Block(_, _, _, _) => false,
    }
}

/// With what the report's names of an action's values begin.
fn letter(y_first: bool, which: Which) -> &'static [u8]
    ensures { result.now ≡ letter y_first which }
{
    match which {
        Which::First => { if y_first { b"Y." } else { b"X." } }
        Which::Second => { if y_first { b"X." } else { b"Y." } }
    }
}

/// Puts the name of an output behind what is there.
fn put_output(out: &mut Vec<u8>, front: &[u8], outs: &[Param], at: usize) -> Result<(), Memory>
    ensures { OnOk result (out.new.items ≡ out.old.items ++ (front.now ++ output_name outs.now at)) }
{
    put(out, front)?;
    put(out, param_name(outs, at))
}

/// Puts the name of a place behind what is there.
fn put_place(
    out: &mut Vec<u8>,
    program: &Program,
    y_first: bool,
    x: &Acting<'_>,
    y: &Acting<'_>,
    place: &Place,
) -> Result<(), Memory>
    ensures { OnOk result (out.new.items ≡ out.old.items
        ++ place_name program.now y_first (meant x.now) (meant y.now) place.now) }
{
    match place {
        Place::Global(at) => put(out, global_name(program.globals.as_slice(), *at)),
        Place::Output(which, at) => match which {
            Which::First => put_output(
                out,
                letter(y_first, Which::First),
                x.action.outs.as_slice(),
                *at,
            ),
            Which::Second => put_output(
                out,
                letter(y_first, Which::Second),
                y.action.outs.as_slice(),
                *at,
            ),
        },
    }
}

/// ` is kept`
fn put_kept(out: &mut Vec<u8>, kept: &Value) -> Result<(), Memory>
    ensures { OnOk result (out.new.items ≡ out.old.items ++ (codes " is " ++ value_text kept.now)) }
{
    put(out, b" is ")?;
    put_value_text(out, kept)
}

/// `, and exchanged in the exchanged order`
fn put_changed(out: &mut Vec<u8>, exchanged: &Value) -> Result<(), Memory>
    ensures { OnOk result (out.new.items ≡ out.old.items
        ++ (codes ", and " ++ (value_text exchanged.now ++ codes " in the exchanged order"))) }
{
    put(out, b", and ")?;
    put_value_text(out, exchanged)?;
    put(out, b" in the exchanged order")
}

/// Both of a difference.
fn put_difference(
    out: &mut Vec<u8>,
    program: &Program,
    y_first: bool,
    x: &Acting<'_>,
    y: &Acting<'_>,
    difference: &Difference,
) -> Result<(), Memory>
    ensures { OnOk result (out.new.items ≡ out.old.items
        ++ difference_text program.now y_first (meant x.now) (meant y.now) difference.now) }
{
    put_place(out, program, y_first, x, y, &difference.place)?;
    put_kept(out, &difference.kept)?;
    put_changed(out, &difference.exchanged)
}

/// The same as a text.
fn difference_text(
    alloc: Global,
    program: &Program,
    y_first: bool,
    x: &Acting<'_>,
    y: &Acting<'_>,
    difference: &Difference,
) -> Result<List<u8>, Memory>
    ensures { IfOk result (λ text. text ≡ difference_text program.now y_first (meant x.now) (meant y.now) difference.now) }
{
    let mut text = Vec::new(alloc);
    put_difference(&mut text, program, y_first, x, y, difference)?;
    Ok(List::from_vec(text))
}

/// The texts of all differences.
fn difference_texts(
    alloc: Global,
    program: &Program,
    y_first: bool,
    x: &Acting<'_>,
    y: &Acting<'_>,
    differences: &[Difference],
) -> Result<Vec<List<u8>>, Memory>
    ensures { IfOk result (λ texts. texts.items
        ≡ map (difference_text program.now y_first (meant x.now) (meant y.now)) differences.now) }
{
    let mut texts = Vec::new(alloc);
    for difference in differences {
        texts.push(difference_text(alloc, program, y_first, x, y, difference)?)?;
    }
    Ok(texts)
}

/// The line of the differences.
fn differs(
    alloc: Global,
    program: &Program,
    y_first: bool,
    x: &Acting<'_>,
    y: &Acting<'_>,
    differences: &[Difference],
) -> Result<Line, Memory>
    ensures { IfOk result (λ line. line ≡ goes_wrong (meant y.now)
        (listed (map (difference_text program.now y_first (meant x.now) (meant y.now)) differences.now))) }
{
    let texts = difference_texts(alloc, program, y_first, x, y, differences)?;
    let mut text = Vec::new(alloc);
    put_listed(&mut text, texts.as_slice())?;
    Ok(at_item(y.token, Kind::Error, text))
}

// ---- the exchanged order of x and y: y and then x

/// That an action waits, and why its guard is false in a store, behind the other lines.
fn push_waits(
    alloc: Global,
    lines: &mut Vec<Line>,
    program: &Program,
    before: &[u8],
    x: &Acting<'_>,
    behind: &[u8],
    store: &Store,
) -> Result<(), Memory>
    requires { length (spell_program program.now) < 2 ^ 64 }
    ensures { OnOk result (lines.new.items ≡ lines.old.items
        ++ (goes_wrong (meant x.now) (before.now ++ (x.now.action.now.name.bytes ++ behind.now))
        ∷ guard_parts program.now (meant x.now) store.now)) }
{
    lines.push(named_wrong(alloc, before, x, behind)?)?;
    push_guard(alloc, lines, program, x, store)
}

/// y is made, and then x waits.
fn push_waits_behind(
    alloc: Global,
    lines: &mut Vec<Line>,
    program: &Program,
    store: &Store,
    x: &Acting<'_>,
    y: &Acting<'_>,
    effect: &Effect,
) -> Result<(), Memory>
    requires { length (spell_program program.now) < 2 ^ 64 }
    ensures { OnOk result (lines.new.items ≡ lines.old.items
        ++ (remakes (codes "exchanged, ") program.now (meant y.now) store.now effect.now
        ∷ goes_wrong (meant x.now) (codes "then " ++ (x.now.action.now.name.bytes ++ codes " waits"))
        ∷ guard_parts program.now (meant x.now) effect.now.store)) }
{
    lines.push(remakes(alloc, b"exchanged, ", program, y, store, effect)?)?;
    push_waits(alloc, lines, program, b"then ", x, b" waits", &effect.store)
}

/// y and then x.
fn push_remade(
    alloc: Global,
    lines: &mut Vec<Line>,
    program: &Program,
    store: &Store,
    x: &Acting<'_>,
    y: &Acting<'_>,
    order: &Order,
) -> Result<(), Memory>
    ensures { OnOk result (lines.new.items ≡ lines.old.items
        ++ (remakes (codes "exchanged, ") program.now (meant y.now) store.now order.now.first
        ∷ remakes (codes "then ") program.now (meant x.now) order.now.first.store order.now.second ∷ [])) }
{
    lines.push(remakes(alloc, b"exchanged, ", program, y, store, &order.first)?)?;
    lines.push(remakes(
        alloc,
        b"then ",
        program,
        x,
        &order.first.store,
        &order.second,
    )?)?;
    Ok(())
}

/// Both are made, and come to something else.
fn push_ends(
    alloc: Global,
    lines: &mut Vec<Line>,
    program: &Program,
    store: &Store,
    y_first: bool,
    x: &Acting<'_>,
    y: &Acting<'_>,
    order: &Order,
    differences: &[Difference],
) -> Result<(), Memory>
    ensures { OnOk result (lines.new.items ≡ lines.old.items
        ++ exchanged_story program.now store.now y_first (meant x.now) (meant y.now) (Exchanged.Ends order.now differences.now)) }
{
    push_remade(alloc, lines, program, store, x, y, order)?;
    lines.push(differs(alloc, program, y_first, x, y, differences)?)?;
    Ok(())
}

/// The exchanged order, behind the other lines.
fn push_exchanged(
    alloc: Global,
    lines: &mut Vec<Line>,
    program: &Program,
    store: &Store,
    y_first: bool,
    x: &Acting<'_>,
    y: &Acting<'_>,
    exchanged: &Exchanged,
) -> Result<(), Memory>
    requires { length (spell_program program.now) < 2 ^ 64 }
    ensures { OnOk result (lines.new.items ≡ lines.old.items
        ++ exchanged_story program.now store.now y_first (meant x.now) (meant y.now) exchanged.now) }
{
    match exchanged {
        Exchanged::WaitsAtOnce => push_waits(
            alloc,
            lines,
            program,
            b"exchanged, ",
            y,
            b" waits at once",
            store,
        ),
        Exchanged::WaitsBehind(effect) => {
            push_waits_behind(alloc, lines, program, store, x, y, effect)
        }
        Exchanged::Ends(order, differences) => push_ends(
            alloc,
            lines,
            program,
            store,
            y_first,
            x,
            y,
            order,
            differences.as_slice(),
        ),
    }
}

/// The order of x and then y, behind the other lines.
fn push_order(
    alloc: Global,
    lines: &mut Vec<Line>,
    program: &Program,
    store: &Store,
    order: &Order,
    x: &Acting<'_>,
    y: &Acting<'_>,
) -> Result<(), Memory>
    ensures { OnOk result (lines.new.items ≡ lines.old.items
        ++ (makes (codes "first ") program.now (meant x.now) store.now order.now.first
        ∷ makes (codes "then ") program.now (meant y.now) order.now.first.store order.now.second ∷ [])) }
{
    lines.push(makes(alloc, b"first ", program, x, store, &order.first)?)?;
    lines.push(makes(
        alloc,
        b"then ",
        program,
        y,
        &order.first.store,
        &order.second,
    )?)?;
    Ok(())
}

/// The story of K3 and K5, behind the other lines.
pub(crate) fn push_clash(
    alloc: Global,
    lines: &mut Vec<Line>,
    program: &Program,
    store: &Store,
    y_first: bool,
    clash: &Clash,
    x: &Acting<'_>,
    y: &Acting<'_>,
) -> Result<(), Memory>
    requires { length (spell_program program.now) < 2 ^ 64 }
    ensures { OnOk result (lines.new.items ≡ lines.old.items
        ++ clash_story program.now store.now y_first clash.now (meant x.now) (meant y.now)) }
{
    push_order(alloc, lines, program, store, &clash.kept, x, y)?;
    push_exchanged(
        alloc,
        lines,
        program,
        store,
        y_first,
        x,
        y,
        &clash.exchanged,
    )
}

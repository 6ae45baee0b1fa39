// K2: a permission that an action doubles or makes.
ghost use Rattle.std.specs.Prelude.{◌≡◌, ◌++◌, IfOk, OnOk, [], slice_get, codes, decimal};
ghost use Rattle.std.specs.Option.{option_map_or};
ghost use Rattle.civl_action_stories.specs.Actors.{goes_wrong};
ghost use Rattle.civl_action_stories.specs.Losses.{carrier_name, loss_story, loss_text};
ghost use Rattle.civl_action_stories.specs.inner.Acting.{meant};

use crate::acting::Acting;
use crate::lines::{at_item, makes};
use civl_clashes::{Carrier, Effect, Loss};
use civl_firing::Store;
use civl_lines::{Kind, Line};
use civl_tree::{Global, Memory, Param, Program};
use civl_verdicts::reports::{put, put_number};
use std::alloc::Global as Alloc;

/// The name of the global at a place.
pub(crate) fn global_name(globals: &[Global], at: usize) -> &[u8]
    ensures { result.now ≡ option_map_or (λ g. g.name.bytes) (slice_get globals.now at) [] }
{
    match globals.get(at) {
        Some(global) => global.name.as_slice(),
        None => &[],
    }
}

/// The name of the parameter or the output at a place.
pub(crate) fn param_name(params: &[Param], at: usize) -> &[u8]
    ensures { result.now ≡ option_map_or (λ p. p.name.bytes) (slice_get params.now at) [] }
{
    match params.get(at) {
        Some(param) => param.name.as_slice(),
        None => &[],
    }
}

/// The name of what carries a permission.
fn carrier_name<'a>(program: &'a Program, x: &Acting<'a>, carrier: &Carrier) -> &'a [u8]
    ensures { result.now ≡ carrier_name program.now (meant x.now) carrier.now }
{
    match carrier {
        Carrier::Global(at) => global_name(program.globals.as_slice(), *at),
        Carrier::Param(at) => param_name(x.action.params.as_slice(), *at),
        Carrier::Out(at) => param_name(x.action.outs.as_slice(), *at),
    }
}

/// What carries a permission out twice.
fn put_both(out: &mut Vec<u8>, one: &[u8], other: &[u8]) -> Result<(), Memory>
    ensures { OnOk result (out.new.items ≡ out.old.items ++ (one.now ++ (codes " and " ++ other.now))) }
{
    put(out, one)?;
    put(out, b" and ")?;
    put(out, other)
}

/// What is said of a permission that comes out twice.
fn put_twice(out: &mut Vec<u8>, permission: u32, one: &[u8], other: &[u8]) -> Result<(), Memory>
    ensures { OnOk result (out.new.items ≡ out.old.items ++ (codes "permission " ++ (decimal permission ++ (codes " comes out twice: "
        ++ (one.now ++ (codes " and " ++ other.now)))))) }
{
    put(out, b"permission ")?;
    put_number(out, permission as usize)?;
    put(out, b" comes out twice: ")?;
    put_both(out, one, other)?;
    Ok(())
}

/// What is said of a permission that comes out from nowhere.
fn put_nowhere(out: &mut Vec<u8>, permission: u32, name: &[u8]) -> Result<(), Memory>
    ensures { OnOk result (out.new.items ≡ out.old.items
        ++ (codes "permission " ++ (decimal permission ++ (codes " comes out from nowhere: " ++ name.now)))) }
{
    put(out, b"permission ")?;
    put_number(out, permission as usize)?;
    put(out, b" comes out from nowhere: ")?;
    put(out, name)?;
    Ok(())
}

/// What is said of a loss.
fn put_loss(out: &mut Vec<u8>, program: &Program, x: &Acting<'_>, loss: &Loss) -> Result<(), Memory>
    ensures { OnOk result (out.new.items ≡ out.old.items ++ loss_text program.now (meant x.now) loss.now) }
{
    match loss {
        Loss::Twice(permission, one, other) => put_twice(
            out,
            *permission,
            carrier_name(program, x, one),
            carrier_name(program, x, other),
        ),
        Loss::Nowhere(permission, carrier) => {
            put_nowhere(out, *permission, carrier_name(program, x, carrier))
        }
    }
}

/// The line of a loss.
fn loss_line(alloc: Alloc, program: &Program, x: &Acting<'_>, loss: &Loss) -> Result<Line, Memory>
    ensures { IfOk result (λ line. line ≡ goes_wrong (meant x.now) (loss_text program.now (meant x.now) loss.now)) }
{
    let mut text = Vec::new(alloc);
    put_loss(&mut text, program, x, loss)?;
    Ok(at_item(x.token, Kind::Error, text))
}

/// The story of K2, behind the other lines.
pub(crate) fn push_loss(
    alloc: Alloc,
    lines: &mut Vec<Line>,
    program: &Program,
    store: &Store,
    effect: &Effect,
    loss: &Loss,
    x: &Acting<'_>,
) -> Result<(), Memory>
    ensures { OnOk result (lines.new.items ≡ lines.old.items ++ loss_story program.now store.now effect.now loss.now (meant x.now)) }
{
    lines.push(makes(alloc, b"", program, x, store, effect)?)?;
    lines.push(loss_line(alloc, program, x, loss)?)?;
    Ok(())
}

// Changes of values, told.
ghost use Rattle.std.specs.Prelude.{◌≡◌, ◌++◌, OnOk, codes};
ghost use Rattle.std.specs.List.{flat_map};
ghost use Rattle.civl_firing.specs.Names.{names_of};
ghost use Rattle.civl_lines.specs.Pieces.{change_text};
ghost use Rattle.civl_verdicts.specs.models.Text.{listed};
ghost use Rattle.civl_path_stories.specs.Paths.{change_texts, gift_text, given_text, name_at};

use crate::naming::name_at;
use civl_firing::names::Names;
use civl_traces::Changed;
use civl_tree::Memory;
use civl_verdicts::models::put_value_text;
use civl_verdicts::reports::put;

/// Puts `name: before -> after` behind what is there.
fn put_change(out: &mut Vec<u8>, names: &Names<'_>, change: &Changed) -> Result<(), Memory>
    ensures { OnOk result (out.new.items ≡ out.old.items
        ++ change_text (name_at (names_of names.now) change.now.place) change.now.before change.now.after) }
{
    put(out, name_at(names, change.place))?;
    put(out, b": ")?;
    put_value_text(out, &change.before)?;
    put(out, b" -> ")?;
    put_value_text(out, &change.after)
}

/// The same of each of these, with `, ` in front of each.
pub(crate) fn put_more_changes(
    out: &mut Vec<u8>,
    names: &Names<'_>,
    changes: &[Changed],
) -> Result<(), Memory>
    ensures { OnOk result (out.new.items ≡ out.old.items
        ++ flat_map (λ text. codes ", " ++ text) (change_texts (names_of names.now) changes.now)) }
{
    for change in changes {
        put(out, b", ")?;
        put_change(out, names, change)?;
    }
    Ok(())
}

/// The same of each of these, joined by `, `.
pub(crate) fn put_changes(
    out: &mut Vec<u8>,
    names: &Names<'_>,
    changes: &[Changed],
) -> Result<(), Memory>
    ensures { OnOk result (out.new.items ≡ out.old.items ++ listed (change_texts (names_of names.now) changes.now)) }
{
    match changes.split_first() {
        Some((first, others)) => {
            put_change(out, names, first)?;
            put_more_changes(out, names, others)
        }
        None => Ok(()),
    }
}

/// Puts `, name = given where the block has value` behind what is there.
fn put_gift(out: &mut Vec<u8>, names: &Names<'_>, change: &Changed) -> Result<(), Memory>
    ensures { OnOk result (out.new.items ≡ out.old.items ++ gift_text (names_of names.now) change.now) }
{
    put(out, b", ")?;
    put(out, name_at(names, change.place))?;
    put(out, b" = ")?;
    put_value_text(out, &change.before)?;
    put(out, b" where the block has ")?;
    put_value_text(out, &change.after)
}

/// The same of each of these.
pub(crate) fn put_given(
    out: &mut Vec<u8>,
    names: &Names<'_>,
    changes: &[Changed],
) -> Result<(), Memory>
    ensures { OnOk result (out.new.items ≡ out.old.items ++ given_text (names_of names.now) changes.now) }
{
    for change in changes {
        put_gift(out, names, change)?;
    }
    Ok(())
}

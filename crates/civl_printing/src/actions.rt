// Actions, and what actions and procedures share.
ghost use Rattle.std.specs.Prelude.{◌≡◌, ◌∷◌, ◌++◌, OnOk};
ghost use Rattle.civl_tree.specs.Spelling.{colon, name_token, spell_sort};
ghost use Rattle.civl_tree.specs.SpellingProgram.{mode_token, mover_token, spell_param, spell_choice, spell_update, spell_action};
ghost use Rattle.civl_printing.specs.Written.{written, written_token};
ghost use Rattle.civl_printing.specs.inner.Parts.{signature, choices_of, layers_of, conditions, updates_of};

use crate::expressions::{put_expr, put_sort};
use crate::phrases::{Phrase, put_each, put_list};
use crate::statements::put_assignment;
use crate::tokens::{put_name, put_number, put_sign, put_word};
use civl_tree::{Action, Choice, Expr, List, Memory, Mode, Mover, Name, Param, Sort, Update};

/// `val | lend | take | give`
fn put_mode(out: &mut Vec<u8>, mode: Mode) -> Result<(), Memory>
    ensures { OnOk result (out.new.items ≡ out.old.items ++ written_token (mode_token mode)) }
{
    match mode {
        Mode::Val => put_word(out, b"val"),
        Mode::Lend => put_word(out, b"lend"),
        Mode::Take => put_word(out, b"take"),
        Mode::Give => put_word(out, b"give"),
    }
}

/// `name : sort`
#[tactic(auto, using(crate::proofs::Writing::joins))]
pub(crate) fn put_typed(out: &mut Vec<u8>, name: &Name, sort: Sort) -> Result<(), Memory>
    ensures { OnOk result (out.new.items ≡ out.old.items ++ written (name_token name.now ∷ colon ∷ spell_sort sort)) }
{
    put_name(out, name)?;
    put_sign(out, b":")?;
    put_sort(out, sort)
}

/// A parameter. An output is spelled as a parameter is: `mode name : sort`.
impl Phrase for Param {
    ghost spell = { spell_param };

    #[tactic(auto, using(crate::proofs::Writing::joins))]
    fn put(&self, out: &mut Vec<u8>) -> Result<(), Memory> {
        put_mode(out, self.mode)?;
        put_typed(out, &self.name, self.sort)
    }
}

/// `name : sort = expr`
impl Phrase for Choice {
    ghost spell = { spell_choice };

    #[tactic(auto, using(crate::proofs::Writing::joins))]
    fn put(&self, out: &mut Vec<u8>) -> Result<(), Memory> {
        put_typed(out, &self.name, self.sort)?;
        put_sign(out, b"=")?;
        put_expr(out, &self.offer)
    }
}

/// `atomic | right | left | both`
fn put_mover(out: &mut Vec<u8>, mover: Mover) -> Result<(), Memory>
    ensures { OnOk result (out.new.items ≡ out.old.items ++ written_token (mover_token mover)) }
{
    match mover {
        Mover::Atomic => put_word(out, b"atomic"),
        Mover::Right => put_word(out, b"right"),
        Mover::Left => put_word(out, b"left"),
        Mover::Both => put_word(out, b"both"),
    }
}

/// `name := expr ;`
impl Phrase for Update {
    ghost spell = { spell_update };

    fn put(&self, out: &mut Vec<u8>) -> Result<(), Memory> {
        put_assignment(out, &self.target, &self.expr)
    }
}

/// `name ( list(param) ) -> ( list(out) )`
#[tactic(auto, using(crate::proofs::Writing::joins), unfolding(crate::specs::inner::Parts::signature))]
pub(crate) fn put_signature(
    out: &mut Vec<u8>,
    name: &Name,
    params: &List<Param>,
    outs: &List<Param>,
) -> Result<(), Memory>
    ensures { OnOk result (out.new.items ≡ out.old.items ++ written (signature name.now params.now outs.now)) }
{
    put_name(out, name)?;
    put_list(out, params)?;
    put_sign(out, b"->")?;
    put_list(out, outs)
}

/// `layers number to number`
#[tactic(auto, using(crate::proofs::Writing::joins), unfolding(crate::specs::inner::Parts::layers_of))]
pub(crate) fn put_layers(out: &mut Vec<u8>, first: u32, last: u32) -> Result<(), Memory>
    ensures { OnOk result (out.new.items ≡ out.old.items ++ written (layers_of first last)) }
{
    put_word(out, b"layers")?;
    put_number(out, first)?;
    put_word(out, b"to")?;
    put_number(out, last)
}

/// `gate expr guard expr`
#[tactic(auto, using(crate::proofs::Writing::joins), unfolding(crate::specs::inner::Parts::conditions))]
fn put_conditions(out: &mut Vec<u8>, gate: &Expr, guard: &Expr) -> Result<(), Memory>
    ensures { OnOk result (out.new.items ≡ out.old.items ++ written (conditions gate.now guard.now)) }
{
    put_word(out, b"gate")?;
    put_expr(out, gate)?;
    put_word(out, b"guard")?;
    put_expr(out, guard)
}

/// `choose ( list(choice) )`
#[tactic(auto, using(crate::proofs::Writing::joins), unfolding(crate::specs::inner::Parts::choices_of))]
fn put_choices(out: &mut Vec<u8>, choices: &List<Choice>) -> Result<(), Memory>
    ensures { OnOk result (out.new.items ≡ out.old.items ++ written (choices_of choices.now)) }
{
    put_word(out, b"choose")?;
    put_list(out, choices)
}

/// `{ update* }`
#[tactic(auto, using(crate::proofs::Writing::joins), unfolding(crate::specs::inner::Parts::updates_of))]
fn put_updates(out: &mut Vec<u8>, updates: &List<Update>) -> Result<(), Memory>
    ensures { OnOk result (out.new.items ≡ out.old.items ++ written (updates_of updates.now)) }
{
    put_sign(out, b"{")?;
    put_each(out, updates)?;
    put_sign(out, b"}")
}

/// An action.
impl Phrase for Action {
    ghost spell = { spell_action };

    fn put(&self, out: &mut Vec<u8>) -> Result<(), Memory> {
        put_word(out, b"action")?;
        put_signature(out, &self.name, &self.params, &self.outs)?;
        put_choices(out, &self.choices)?;
        put_layers(out, self.first, self.last)?;
        put_mover(out, self.mover)?;
        put_conditions(out, &self.gate, &self.guard)?;
        put_updates(out, &self.updates)?;
        Ok(())
    }
}

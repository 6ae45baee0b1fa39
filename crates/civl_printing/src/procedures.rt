// Procedures.
ghost use Rattle.std.specs.Prelude.{◌≡◌, ◌++◌, OnOk, Some};
ghost use Rattle.civl_tree.specs.SpellingProgram.{local_token, spell_rank_of, spell_local, spell_proc};
ghost use Rattle.civl_printing.specs.Written.{written, written_token};
ghost use Rattle.civl_printing.specs.inner.Parts.{body_of};

use crate::actions::{put_signature, put_typed};
use crate::phrases::{Phrase, put_each, put_list};
use crate::statements::put_stmts;
use crate::tokens::{put_name, put_number, put_sign, put_word};
use civl_tree::{List, Local, Memory, Proc, Refines, Stmt};

/// `refines name with ( list(expr) ) layer number`
#[tactic(auto, using(crate::proofs::Writing::joins))]
fn put_refines(out: &mut Vec<u8>, refines: &Refines) -> Result<(), Memory>
    ensures { OnOk result (out.new.items ≡ out.old.items ++ written (spell_rank_of (Some refines.now))) }
{
    put_word(out, b"refines")?;
    put_name(out, &refines.action)?;
    put_word(out, b"with")?;
    put_list(out, &refines.with)?;
    put_word(out, b"layer")?;
    put_number(out, refines.layer)
}

/// `root`, or what is refined
#[tactic(auto, using(crate::proofs::Writing::joins))]
fn put_rank_of(out: &mut Vec<u8>, refines: &Option<Refines>) -> Result<(), Memory>
    ensures { OnOk result (out.new.items ≡ out.old.items ++ written (spell_rank_of refines.now)) }
{
    match refines {
        None => put_word(out, b"root"),
        Some(refines) => put_refines(out, refines),
    }
}

/// `linear | var`
fn put_kind(out: &mut Vec<u8>, linear: bool) -> Result<(), Memory>
    ensures { OnOk result (out.new.items ≡ out.old.items ++ written_token (local_token linear)) }
{
    if linear {
        put_word(out, b"linear")
    } else {
        put_word(out, b"var")
    }
}

/// `var name : sort ; | linear name : sort ;`
impl Phrase for Local {
    ghost spell = { spell_local };

    #[tactic(auto, using(crate::proofs::Writing::joins))]
    fn put(&self, out: &mut Vec<u8>) -> Result<(), Memory> {
        put_kind(out, self.linear)?;
        put_typed(out, &self.name, self.sort)?;
        put_sign(out, b";")
    }
}

/// `{ local* stmt* }`
#[tactic(auto, using(crate::proofs::Writing::joins), unfolding(crate::specs::inner::Parts::body_of))]
fn put_body(out: &mut Vec<u8>, locals: &List<Local>, body: &List<Stmt>) -> Result<(), Memory>
    ensures { OnOk result (out.new.items ≡ out.old.items ++ written (body_of locals.now body.now)) }
{
    put_sign(out, b"{")?;
    put_each(out, locals)?;
    put_stmts(out, body)?;
    put_sign(out, b"}")
}

/// A procedure.
impl Phrase for Proc {
    ghost spell = { spell_proc };

    fn put(&self, out: &mut Vec<u8>) -> Result<(), Memory> {
        put_word(out, b"proc")?;
        put_signature(out, &self.name, &self.params, &self.outs)?;
        put_rank_of(out, &self.refines)?;
        put_body(out, &self.locals, &self.body)?;
        Ok(())
    }
}

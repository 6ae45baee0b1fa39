// Globals, `init`, invariants and threads.
ghost use Rattle.std.specs.Prelude.{◌≡◌, ◌++◌, OnOk};
ghost use Rattle.civl_tree.specs.SpellingProgram.{spell_global, spell_init, spell_invariant, spell_thread};
ghost use Rattle.civl_printing.specs.Written.{written};
ghost use Rattle.civl_printing.specs.inner.Parts.{linear_of};

use crate::actions::{put_layers, put_typed};
use crate::expressions::put_expr;
use crate::phrases::Phrase;
use crate::statements::{put_fact, put_start};
use crate::tokens::{put_number, put_sign, put_word};
use civl_tree::{Expr, Global as GlobalVar, Invariant, Memory, Thread};

/// `[linear]`
#[tactic(auto, using(crate::proofs::Writing::joins))]
fn put_linear(out: &mut Vec<u8>, linear: bool) -> Result<(), Memory>
    ensures { OnOk result (out.new.items ≡ out.old.items ++ written (linear_of linear)) }
{
    if linear {
        put_word(out, b"linear")?;
    }
    Ok(())
}

/// `global [linear] name : sort layers number to number ;`
impl Phrase for GlobalVar {
    ghost spell = { spell_global };

    fn put(&self, out: &mut Vec<u8>) -> Result<(), Memory> {
        put_word(out, b"global")?;
        put_linear(out, self.linear)?;
        put_typed(out, &self.name, self.sort)?;
        put_layers(out, self.first, self.last)?;
        put_sign(out, b";")?;
        Ok(())
    }
}

/// `init expr ;`
///
/// # Errors
///
/// For want of memory.
pub fn put_init(out: &mut Vec<u8>, init: &Expr) -> Result<(), Memory>
    ensures { OnOk result (out.new.items ≡ out.old.items ++ written (spell_init init.now)) }
{
    put_fact(out, b"init", init)
}

/// `invariant number expr ;`
impl Phrase for Invariant {
    ghost spell = { spell_invariant };

    fn put(&self, out: &mut Vec<u8>) -> Result<(), Memory> {
        put_word(out, b"invariant")?;
        put_number(out, self.step)?;
        put_expr(out, &self.expr)?;
        put_sign(out, b";")?;
        Ok(())
    }
}

/// `thread name ( list(expr) ) ;`
impl Phrase for Thread {
    ghost spell = { spell_thread };

    fn put(&self, out: &mut Vec<u8>) -> Result<(), Memory> {
        put_start(out, b"thread", &self.callee, &self.args)
    }
}

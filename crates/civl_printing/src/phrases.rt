// Phrases, and lists of them.
ghost use Rattle.std.specs.Prelude.{◌≡◌, ◌∷◌, ◌++◌, map, OnOk, List as ListOf};
ghost use Rattle.civl_tree.specs.Token.{Token};
ghost use Rattle.civl_tree.specs.Spelling.{comma, joined, separated, enclosed};
ghost use Rattle.civl_printing.specs.Written.{written};

use crate::tokens::put_sign;
use civl_tree::{List, Memory};

/// A value that a phrase of the grammar spells.
pub trait Phrase {
    /// Its tokens.
    ghost spell: { Self → ListOf Token };

    /// Writes its tokens.
    fn put(&self, out: &mut Vec<u8>) -> Result<(), Memory>
        ensures { OnOk result (out.new.items ≡ out.old.items ++ written (spell self.now)) };
}

/// `X*`
///
/// # Errors
///
/// For want of memory.
#[tactic(auto, using(crate::proofs::Writing::joins))]
pub fn put_each<P: Phrase>(out: &mut Vec<u8>, phrases: &List<P>) -> Result<(), Memory>
    ensures { OnOk result (out.new.items ≡ out.old.items ++ written (joined (map P.spell phrases.now))) }
{
    for phrase in phrases.as_slice() {
        phrase.put(out)?;
    }
    Ok(())
}

/// `, X`, any number of times
#[tactic(auto, using(crate::proofs::Writing::joins))]
fn put_others<P: Phrase>(out: &mut Vec<u8>, phrases: &[P]) -> Result<(), Memory>
    ensures { OnOk result (out.new.items ≡ out.old.items ++ written (joined (map (λ x. comma ∷ P.spell x) phrases.now))) }
{
    for phrase in phrases {
        put_sign(out, b",")?;
        phrase.put(out)?;
    }
    Ok(())
}

/// `list(X)`
#[tactic(auto, using(crate::proofs::Writing::joins))]
fn put_separated<P: Phrase>(out: &mut Vec<u8>, phrases: &[P]) -> Result<(), Memory>
    ensures { OnOk result (out.new.items ≡ out.old.items ++ written (separated P.spell phrases.now)) }
{
    match phrases.split_first() {
        None => Ok(()),
        Some((first, others)) => {
            first.put(out)?;
            put_others(out, others)
        }
    }
}

/// `( list(X) )`
#[tactic(auto, using(crate::proofs::Writing::joins))]
pub(crate) fn put_list<P: Phrase>(out: &mut Vec<u8>, phrases: &List<P>) -> Result<(), Memory>
    ensures { OnOk result (out.new.items ≡ out.old.items ++ written (enclosed P.spell phrases.now)) }
{
    put_sign(out, b"(")?;
    put_separated(out, phrases.as_slice())?;
    put_sign(out, b")")
}

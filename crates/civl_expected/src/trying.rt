// Whether a candidate may stand behind some tokens.
ghost use Rattle.std.specs.Prelude.{◌≡◌, [], ◌∷◌, ◌++◌, ◌↔◌, IsTrue, IfOk, OnOk, List as ListOf, map};
ghost use Rattle.civl_tree.specs.Token.{Token as Spelling};
ghost use Rattle.civl_lex.specs.Spelled.{spelled};
ghost use Rattle.civl_expected.specs.Expected.{MayStand, MayEnd, token_of, AreThose};
ghost use Rattle.civl_expected.specs.inner.Growing.{GrowsBy};

use crate::candidate::Candidate;
use crate::text::Text;
use civl_lex::Token;
use civl_parser::ParseFault;
use civl_tree::{List, Memory};
use std::alloc::Global;

/// Whether the last of the tokens may stand behind the others.
///
/// # Errors
///
/// For want of memory.
pub(crate) fn may_stand<T: Text>(alloc: Global, tokens: &[Token<'_>]) -> Result<bool, Memory>
    ensures { (front : ListOf Spelling) (token : Spelling) → spelled tokens.now ≡ front ++ token ∷ []
        → IfOk result (λ may. IsTrue may ↔ MayStand T.spell T.fits front token) }
{
    match T::read(alloc, tokens) {
        Ok(_) => Ok(true),
        Err(ParseFault::NotHere(place)) => Ok(place == tokens.len()),
        Err(ParseFault::Deep(place)) => Ok(place + 1 == tokens.len()),
        Err(ParseFault::Memory) => Err(Memory),
    }
}

/// Whether the tokens may be all.
///
/// # Errors
///
/// For want of memory.
pub(crate) fn may_end<T: Text>(alloc: Global, tokens: &[Token<'_>]) -> Result<bool, Memory>
    ensures { IfOk result (λ may. IsTrue may ↔ MayEnd T.spell T.fits (spelled tokens.now)) }
{
    match T::read(alloc, tokens) {
        Ok(_) => Ok(true),
        Err(ParseFault::NotHere(_)) => Ok(false),
        Err(ParseFault::Deep(_)) => Ok(false),
        Err(ParseFault::Memory) => Err(Memory),
    }
}

/// Whether the candidate's token may stand behind these tokens, which stay.
///
/// # Errors
///
/// For want of memory.
fn may_follow<T: Text>(
    alloc: Global,
    front: &mut Vec<Token<'_>>,
    candidate: Candidate,
) -> Result<bool, Memory>
    ensures may { IfOk result (λ may. IsTrue may ↔ MayStand T.spell T.fits (spelled front.old.items) (token_of candidate)) }
    ensures stays { OnOk result (front.new.items ≡ front.old.items) }
{
    front.push(candidate.token())?;
    let may = may_stand::<T>(alloc, front.as_slice())?;
    front.pop();
    Ok(may)
}

/// Puts the candidate behind those that were found, if its token may stand behind these tokens, which stay.
///
/// # Errors
///
/// For want of memory.
fn try_one<T: Text>(
    alloc: Global,
    front: &mut Vec<Token<'_>>,
    candidate: Candidate,
    found: &mut List<Candidate>,
) -> Result<(), Memory>
    ensures { OnOk result ((front.new.items ≡ front.old.items)
        × GrowsBy (MayStand T.spell T.fits (spelled front.old.items)) (token_of candidate)
        (map token_of found.old) (map token_of found.new)) }
{
    if may_follow::<T>(alloc, front, candidate)? {
        found.push(candidate)?;
    }
    Ok(())
}

/// Those of the candidates that may stand behind these tokens, in their order.
///
/// # Errors
///
/// For want of memory.
pub(crate) fn may_follow_of<T: Text>(
    alloc: Global,
    front: &mut Vec<Token<'_>>,
    candidates: &[Candidate],
) -> Result<List<Candidate>, Memory>
    ensures { IfOk result (λ found.
        AreThose (MayStand T.spell T.fits (spelled front.old.items)) (map token_of candidates.now) (map token_of found)) }
{
    let mut found = List::new(alloc);
    for candidate in candidates {
        try_one::<T>(alloc, front, *candidate, &mut found)?;
    }
    Ok(found)
}

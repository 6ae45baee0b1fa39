// What may stand at a place of a text.
ghost use Rattle.std.specs.Prelude.{◌≤◌, ◌↔◌, IsTrue, IfOk, length, map, take};
ghost use Rattle.civl_lex.specs.Spelled.{spelled};
ghost use Rattle.civl_expected.specs.Expected.{MayStand, MayEnd, MayStandIn, MayEndIn, token_of, tried_tokens, AreThose};

use crate::candidate::{Candidate, all_candidates};
use crate::kind::TextKind;
use crate::text::Text;
use crate::trying::{may_end, may_follow_of};
use civl_lex::Token;
use civl_outlines::Outline;
use civl_tree::{List, Memory, Program, Script};
use std::alloc::Global;

/// What may stand at a place.
#[derive(Debug, Drop)]
pub struct Expected {
    /// Whether the text may end there.
    pub end: bool,
    /// The tokens that may stand there: signs, reserved words, a name, a number, in this order.
    pub candidates: List<Candidate>,
}

/// What may stand behind these tokens in one kind of text.
fn expected_behind<T: Text>(alloc: Global, tokens: &[Token<'_>]) -> Result<Expected, Memory>
    ensures listed { IfOk result (λ expected.
        AreThose (MayStand T.spell T.fits (spelled tokens.now)) tried_tokens (map token_of expected.candidates)) }
    ensures end { IfOk result (λ expected. IsTrue expected.end ↔ MayEnd T.spell T.fits (spelled tokens.now)) }
{
    let end = may_end::<T>(alloc, tokens)?;
    let mut front = Vec::from_slice(alloc, tokens)?;
    let candidates = may_follow_of::<T>(alloc, &mut front, all_candidates())?;
    Ok(Expected { end, candidates })
}

/// What may stand at a place of a text: behind the tokens before the place, of which there are `place`. A token may
/// stand there exactly where the tokens before the place, with it behind them, begin the spelling of some program,
/// script or outline; the text may end there exactly where they are the spelling of one. Nothing is expected where the
/// tokens before the place have more than 64 brackets open somewhere.
///
/// Each sign and each reserved word is tried as it is. For names the name `x` is tried, and for numbers the number 1.
/// The text is parsed once for each of them.
///
/// The viable prefixes are those of A. Aho, M. Lam, R. Sethi and J. Ullman, "Compilers" (2nd edition, 4.1.3).
///
/// # Errors
///
/// For want of memory alone.
pub fn expected_at(
    alloc: Global,
    tokens: &[Token<'_>],
    place: usize,
    text: TextKind,
) -> Result<Expected, Memory>
    requires { place ≤ length tokens.now }
    ensures listed { IfOk result (λ expected.
        AreThose (MayStandIn text (take place (spelled tokens.now))) tried_tokens (map token_of expected.candidates)) }
    ensures end { IfOk result (λ expected. IsTrue expected.end ↔ MayEndIn text (take place (spelled tokens.now))) }
{
    let front = &tokens[..place];
    match text {
        TextKind::Program => expected_behind::<Program>(alloc, front),
        TextKind::Script => expected_behind::<Script>(alloc, front),
        TextKind::Outline => expected_behind::<Outline>(alloc, front),
    }
}

// Names and numbers.
ghost use Rattle.civl_lex.specs.Spelled.{spelled};
ghost use Rattle.civl_phrases.specs.Reader.{Gives};
ghost use Rattle.civl_phrases.specs.Leaf.{a_name, a_number};

use crate::halt::Halt;
use crate::take::not_here;
use civl_lex::{Kind, Token};
use civl_tree::Name;
use std::alloc::Global;

/// A name, and the tokens behind it.
///
/// # Errors
///
/// - `NotHere` exactly where another token is next, or none.
/// - `Memory` where memory is wanting.
#[tactic(auto, unfolding(crate::specs::Leaf::a_name, crate::specs::Reader::leaf))]
pub fn name<'t, 'a>(alloc: Global, tokens: &'t [Token<'a>]) -> Result<(Name, &'t [Token<'a>]), Halt>
    ensures { Gives (λ x. (x.0, spelled x.1.now)) result (a_name (spelled tokens.now)) }
{
    match tokens {
        [next, rest @ ..] => match next.kind {
            Kind::Name => Ok((Name::from_slice(alloc, next.text)?, rest)),
            Kind::Number(_) | Kind::Word | Kind::Sign => Err(not_here(tokens)),
        },
        [] => Err(not_here(tokens)),
    }
}

/// A number, and the tokens behind it.
///
/// # Errors
///
/// `NotHere` exactly where another token is next, or none.
#[tactic(auto, unfolding(crate::specs::Leaf::a_number, crate::specs::Reader::leaf))]
pub fn number<'t, 'a>(tokens: &'t [Token<'a>]) -> Result<(u32, &'t [Token<'a>]), Halt>
    ensures { Gives (λ x. (x.0, spelled x.1.now)) result (a_number (spelled tokens.now)) }
{
    match tokens {
        [next, rest @ ..] => match next.kind {
            Kind::Number(value) => Ok((value, rest)),
            Kind::Name | Kind::Word | Kind::Sign => Err(not_here(tokens)),
        },
        [] => Err(not_here(tokens)),
    }
}

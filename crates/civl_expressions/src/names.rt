// Names.
ghost use Rattle.civl_lex.specs.Spelled.{spelled};
ghost use Rattle.civl_phrases.specs.Reader.{Gives};
ghost use Rattle.civl_expressions.specs.readers.Names.{name_at};

use civl_lex::{Kind, Token, is_name};
use civl_phrases::{Halt, Phrase, not_here};
use civl_tree::Name;
use std::alloc::Global;

/// A name, and the tokens behind it.
///
/// # Errors
///
/// `NotHere` exactly where another token is next, or none. A token that says it is a name, and has the text of none,
/// is another token.
#[tactic(auto, unfolding(crate::specs::readers::Names::name_at, civl_phrases::specs::Reader::leaf))]
pub fn name<'t, 'a>(alloc: Global, tokens: &'t [Token<'a>]) -> Result<(Name, &'t [Token<'a>]), Halt>
    ensures { Gives (λ x. (x.0, spelled x.1.now)) result (name_at (spelled tokens.now)) }
{
    match tokens {
        [next, rest @ ..] => match next.kind {
            Kind::Name => {
                if is_name(next.text) {
                    Ok((Name::from_slice(alloc, next.text)?, rest))
                } else {
                    Err(not_here(tokens))
                }
            }
            Kind::Number(_) | Kind::Word | Kind::Sign => Err(not_here(tokens)),
        },
        [] => Err(not_here(tokens)),
    }
}

/// Names.
#[derive(Drop)]
pub struct NamePhrase;

impl Phrase for NamePhrase {
    type Item = Name;

    ghost reader = { λ _. name_at };

    fn read<'t, 'a>(
        &self,
        alloc: Global,
        tokens: &'t [Token<'a>],
    ) -> Result<(Name, &'t [Token<'a>]), Halt> {
        name(alloc, tokens)
    }
}

// Operators.
ghost use Rattle.std.specs.Prelude.{◌≡◌};
ghost use Rattle.civl_tree.specs.SpellingDomain.{allows_op};
ghost use Rattle.civl_lex.specs.Spelled.{spelled, spelled_token};
ghost use Rattle.civl_phrases.specs.Reader.{Gives};
ghost use Rattle.civl_phrases.specs.Table.{lookup};
ghost use Rattle.civl_expressions.specs.readers.Exprs.{one_table, one_at, word_table, bool_table, two_table, two_at};

use civl_lex::Token;
use civl_phrases::{Halt, is_sign, is_word, not_here};
use civl_tree::{One, Two};

fn one_of(token: &Token<'_>) -> Option<One>
    ensures { result ≡ lookup one_table (spelled_token token.now) }
{
    if is_sign(token, b"!") {
        Some(One::Not)
    } else if is_sign(token, b"~") {
        Some(One::Flip)
    } else if is_sign(token, b"-") {
        Some(One::Minus)
    } else {
        None
    }
}

/// An operator with one operand, and the tokens behind it.
#[tactic(auto, unfolding(crate::specs::readers::Exprs::one_at, civl_phrases::specs::Reader::leaf))]
pub fn one_op<'t, 'a>(tokens: &'t [Token<'a>]) -> Result<(One, &'t [Token<'a>]), Halt>
    ensures { Gives (λ x. (x.0, spelled x.1.now)) result (one_at (spelled tokens.now)) }
{
    match tokens {
        [next, rest @ ..] => match one_of(next) {
            Some(op) => Ok((op, rest)),
            None => Err(not_here(tokens)),
        },
        [] => Err(not_here(tokens)),
    }
}

// The operators that version 2 alone has.
fn word_op(token: &Token<'_>) -> Option<Two>
    ensures { result ≡ lookup word_table (spelled_token token.now) }
{
    if is_word(token, b"udiv") {
        Some(Two::Udiv)
    } else if is_word(token, b"urem") {
        Some(Two::Urem)
    } else if is_word(token, b"slt") {
        Some(Two::Slt)
    } else if is_word(token, b"sle") {
        Some(Two::Sle)
    } else if is_word(token, b"sar") {
        Some(Two::Sar)
    } else {
        None
    }
}

fn two_of(token: &Token<'_>) -> Option<Two>
    ensures { result ≡ lookup two_table (spelled_token token.now) }
{
    if is_sign(token, b"+") {
        Some(Two::Add)
    } else if is_sign(token, b"-") {
        Some(Two::Sub)
    } else if is_sign(token, b"*") {
        Some(Two::Mul)
    } else if is_sign(token, b"&") {
        Some(Two::BitAnd)
    } else if is_sign(token, b"|") {
        Some(Two::BitOr)
    } else if is_sign(token, b"^") {
        Some(Two::BitXor)
    } else if is_sign(token, b"<<") {
        Some(Two::Shl)
    } else if is_sign(token, b">>") {
        Some(Two::Shr)
    } else {
        bool_op(token)
    }
}

// The operators that give a bool, and those of version 2.
fn bool_op(token: &Token<'_>) -> Option<Two>
    ensures { result ≡ lookup bool_table (spelled_token token.now) }
{
    if is_sign(token, b"<") {
        Some(Two::Lt)
    } else if is_sign(token, b"<=") {
        Some(Two::Le)
    } else if is_sign(token, b"==") {
        Some(Two::Eq)
    } else if is_sign(token, b"!=") {
        Some(Two::Ne)
    } else if is_sign(token, b"&&") {
        Some(Two::And)
    } else if is_sign(token, b"||") {
        Some(Two::Or)
    } else if is_sign(token, b"=>") {
        Some(Two::Implies)
    } else {
        word_op(token)
    }
}

/// Whether the version has the operator, where `new` says that it is version 2.
fn has_op(new: bool, op: Two) -> bool
    ensures { result ≡ allows_op new op }
{
    match op {
        Two::Udiv | Two::Urem | Two::Slt | Two::Sle | Two::Sar => new,
        Two::Add
        | Two::Sub
        | Two::Mul
        | Two::BitAnd
        | Two::BitOr
        | Two::BitXor
        | Two::Shl
        | Two::Shr
        | Two::Lt
        | Two::Le
        | Two::Eq
        | Two::Ne
        | Two::And
        | Two::Or
        | Two::Implies => true,
    }
}

/// An operator with two operands that the version has, and the tokens behind it. `new` says that the version is 2.
///
/// # Errors
///
/// `NotHere` exactly where another token is next, or none.
#[tactic(auto, unfolding(crate::specs::readers::Exprs::two_at, civl_phrases::specs::Reader::leaf))]
pub fn two_op<'t, 'a>(new: bool, tokens: &'t [Token<'a>]) -> Result<(Two, &'t [Token<'a>]), Halt>
    ensures { Gives (λ x. (x.0, spelled x.1.now)) result (two_at new (spelled tokens.now)) }
{
    match tokens {
        [next, rest @ ..] => match two_of(next) {
            Some(op) => {
                if has_op(new, op) {
                    Ok((op, rest))
                } else {
                    Err(not_here(tokens))
                }
            }
            None => Err(not_here(tokens)),
        },
        [] => Err(not_here(tokens)),
    }
}

// Expressions.
ghost use Rattle.std.specs.Prelude.{◌≡◌, ◌<◌, IfOk, codes};
ghost use Rattle.civl_tree.specs.Token.{Reserved, Sign};
ghost use Rattle.civl_tree.specs.Spelling.{close_paren, comma, colon, semicolon};
ghost use Rattle.civl_lex.specs.Spelled.{spelled, spelled_token};
ghost use Rattle.civl_tree.specs.declared.expr.Expr.TheVariants as expr;
ghost use Rattle.civl_phrases.specs.Reader.{Gives, lookahead, mapped, after, both, then_token};
ghost use Rattle.civl_expressions.specs.readers.Names.{name_at};
ghost use Rattle.civl_phrases.specs.Table.{lookup};
ghost use Rattle.civl_expressions.specs.readers.Exprs.{expr_table, word_forms, expr_form_of, expr_form, expr_next, with_tail, of_old, pick_at, binary_at, tail_at, paren_at, one_at, two_at, exprs_at, literal_at, constant_at, olden_at, old_at, pair_at, get_at, join_at, set_at, fill_at, slice_at, widen_at, expr_at, inner_expr, args_at};

use crate::brackets::{last_number, last_numbers, open_bracket};
use crate::forms::ExprForm;
use crate::names::name;
use crate::operators::{one_op, two_op};
use civl_lex::{Kind, Token};
use civl_phrases::{
    Halt, Phrase, commas, is_sign, is_word, not_here, number, sign, sign_next, word, word_next,
};
use civl_tree::{Boxed, Expr, List, Memory, Name, Two, beside, both, three};
use std::alloc::Global;

// ---- how an expression begins

fn work_form(token: &Token<'_>) -> Option<ExprForm>
    ensures { result ≡ lookup word_forms (spelled_token token.now) }
{
    if is_word(token, b"get") {
        Some(ExprForm::Get)
    } else if is_word(token, b"set") {
        Some(ExprForm::Set)
    } else if is_word(token, b"fill") {
        Some(ExprForm::Fill)
    } else if is_word(token, b"slice") {
        Some(ExprForm::Slice)
    } else if is_word(token, b"widen") {
        Some(ExprForm::Widen)
    } else if is_word(token, b"join") {
        Some(ExprForm::Join)
    } else {
        None
    }
}

fn table_form(token: &Token<'_>) -> Option<ExprForm>
    ensures { result ≡ lookup expr_table (spelled_token token.now) }
{
    if is_word(token, b"true") {
        Some(ExprForm::True)
    } else if is_word(token, b"false") {
        Some(ExprForm::False)
    } else if is_word(token, b"done") {
        Some(ExprForm::Done)
    } else if is_word(token, b"old") {
        Some(ExprForm::Old)
    } else if is_sign(token, b"(") {
        Some(ExprForm::Paren)
    } else {
        work_form(token)
    }
}

fn form_of(token: &Token<'_>) -> Option<ExprForm>
    ensures { result ≡ expr_form_of (spelled_token token.now) }
{
    match token.kind {
        Kind::Name => Some(ExprForm::Name),
        Kind::Number(_) => Some(ExprForm::Literal),
        Kind::Word | Kind::Sign => table_form(token),
    }
}

fn next_form(tokens: &[Token<'_>]) -> Option<ExprForm>
    ensures { result ≡ expr_form (lookahead (spelled tokens.now)) }
{
    match tokens {
        [next, ..] => form_of(next),
        [] => None,
    }
}

fn is_expr_next(tokens: &[Token<'_>]) -> bool
    ensures { result ≡ expr_next (lookahead (spelled tokens.now)) }
{
    match next_form(tokens) {
        Some(_) => true,
        None => false,
    }
}

// ---- forms without parts

#[tactic(auto, unfolding(civl_phrases::specs::Reader::mapped))]
fn name_expr<'t, 'a>(
    alloc: Global,
    tokens: &'t [Token<'a>],
) -> Result<(Expr, &'t [Token<'a>]), Halt>
    ensures { Gives (λ x. (x.0, spelled x.1.now)) result (mapped (λ name. expr.Name name) name_at (spelled tokens.now)) }
{
    let (name, rest) = name(alloc, tokens)?;
    Ok((Expr::Name(name), rest))
}

#[tactic(auto, unfolding(crate::specs::readers::Exprs::literal_at, civl_phrases::specs::Reader::mapped, civl_phrases::specs::Reader::both, civl_phrases::specs::Reader::after))]
fn literal<'t, 'a>(tokens: &'t [Token<'a>]) -> Result<(Expr, &'t [Token<'a>]), Halt>
    ensures { Gives (λ x. (x.0, spelled x.1.now)) result (literal_at (spelled tokens.now)) }
{
    let (value, rest) = number(tokens)?;
    let rest = sign(rest, b":")?;
    let (width, rest) = number(rest)?;
    Ok((Expr::Literal(value, width), rest))
}

#[tactic(auto, unfolding(crate::specs::readers::Exprs::constant_at, civl_phrases::specs::Reader::mapped, civl_phrases::specs::Reader::after, civl_phrases::specs::Reader::done))]
fn constant<'t, 'a>(
    text: &[u8],
    value: Expr,
    tokens: &'t [Token<'a>],
) -> Result<(Expr, &'t [Token<'a>]), Halt>
    ensures { Gives (λ x. (x.0, spelled x.1.now)) result (constant_at (Reserved text.now) value (spelled tokens.now)) }
{
    beside(value, word(tokens, text))
}

/// A name, or `done`.
#[tactic(auto, unfolding(crate::specs::readers::Exprs::olden_at, civl_phrases::specs::Reader::chosen, civl_phrases::specs::Reader::mapped, civl_phrases::specs::Reader::after, civl_phrases::specs::Reader::done))]
fn olden<'t, 'a>(
    alloc: Global,
    tokens: &'t [Token<'a>],
) -> Result<(Option<Name>, &'t [Token<'a>]), Halt>
    ensures { Gives (λ x. (x.0, spelled x.1.now)) result (olden_at (spelled tokens.now)) }
{
    if word_next(tokens, b"done") {
        let rest = word(tokens, b"done")?;
        Ok((None, rest))
    } else {
        let (name, rest) = name(alloc, tokens)?;
        Ok((Some(name), rest))
    }
}

fn of_old(old: Option<Name>) -> Expr
    ensures { result ≡ of_old old }
{
    match old {
        None => Expr::OldDone,
        Some(name) => Expr::Old(name),
    }
}

#[tactic(auto, unfolding(crate::specs::readers::Exprs::old_at, civl_phrases::specs::Reader::mapped, civl_phrases::specs::Reader::opened, civl_phrases::specs::Reader::after, civl_phrases::specs::Reader::then_token, civl_phrases::specs::Reader::both, civl_phrases::specs::Reader::done))]
fn old<'t, 'a>(
    alloc: Global,
    most: usize,
    tokens: &'t [Token<'a>],
) -> Result<(Expr, &'t [Token<'a>]), Halt>
    ensures { Gives (λ x. (x.0, spelled x.1.now)) result (old_at most (spelled tokens.now)) }
{
    let rest = word(tokens, b"old")?;
    let rest = open_bracket(rest, b"(", most)?;
    let (old, rest) = olden(alloc, rest)?;
    let rest = sign(rest, b")")?;
    Ok((of_old(old), rest))
}

// ---- boxes

fn two_boxes(alloc: Global, first: Expr, second: Expr) -> Result<(Boxed<Expr>, Boxed<Expr>), Memory>
    ensures { IfOk result (λ boxes. boxes ≡ (first, second)) }
{
    both(Boxed::new(alloc, first), Boxed::new(alloc, second))
}

fn three_boxes(
    alloc: Global,
    first: Expr,
    second: Expr,
    third: Expr,
) -> Result<(Boxed<Expr>, Boxed<Expr>, Boxed<Expr>), Memory>
    ensures { IfOk result (λ boxes. boxes ≡ (first, second, third)) }
{
    three(
        Boxed::new(alloc, first),
        Boxed::new(alloc, second),
        Boxed::new(alloc, third),
    )
}

// ---- forms with parts

/// An expression, where `most` more brackets may be open, and the tokens behind it. `new` says that the version is 2.
///
/// # Errors
///
/// - `NotHere` at the first token with which no expression goes on.
/// - `Deep` at a bracket that may stand there and may not be opened.
#[cycle(expr)]
#[tactic(auto, unfolding(crate::specs::readers::Exprs::expr_at, crate::specs::readers::Exprs::expr_by, civl_phrases::specs::Reader::by_form))]
pub fn expr<'t, 'a>(
    alloc: Global,
    new: bool,
    most: usize,
    tokens: &'t [Token<'a>],
) -> Result<(Expr, &'t [Token<'a>]), Halt>
    ensures { Gives (λ x. (x.0, spelled x.1.now)) result (expr_at new most (spelled tokens.now)) }
{
    match next_form(tokens) {
        Some(ExprForm::Name) => name_expr(alloc, tokens),
        Some(ExprForm::Literal) => literal(tokens),
        Some(ExprForm::True) => constant(b"true", Expr::True, tokens),
        Some(ExprForm::False) => constant(b"false", Expr::False, tokens),
        Some(ExprForm::Done) => constant(b"done", Expr::Done, tokens),
        Some(ExprForm::Old) => old(alloc, most, tokens),
        Some(ExprForm::Paren) => paren(alloc, new, most, tokens),
        Some(ExprForm::Get) => get(alloc, new, most, tokens),
        Some(ExprForm::Set) => set(alloc, new, most, tokens),
        Some(ExprForm::Fill) => fill(alloc, new, most, tokens),
        Some(ExprForm::Slice) => slice(alloc, new, most, tokens),
        Some(ExprForm::Widen) => widen(alloc, new, most, tokens),
        Some(ExprForm::Join) => join(alloc, new, most, tokens),
        None => Err(not_here(tokens)),
    }
}

#[cycle(expr)]
#[tactic(auto, unfolding(crate::specs::readers::Exprs::paren_at, crate::specs::readers::Exprs::inside_at, civl_phrases::specs::Reader::mapped, civl_phrases::specs::Reader::opened, civl_phrases::specs::Reader::chosen, civl_phrases::specs::Reader::both))]
fn paren<'t, 'a>(
    alloc: Global,
    new: bool,
    most: usize,
    tokens: &'t [Token<'a>],
) -> Result<(Expr, &'t [Token<'a>]), Halt>
    ensures { Gives (λ x. (x.0, spelled x.1.now)) result (paren_at new most (inner_expr new most) (spelled tokens.now)) }
{
    let rest = open_bracket(tokens, b"(", most)?;
    if is_expr_next(rest) {
        let (first, rest) = inner(alloc, new, most, rest)?;
        tail(alloc, new, most, first, rest)
    } else {
        one(alloc, new, most, rest)
    }
}

/// An operator with one operand, the operand and the closing bracket.
#[cycle(expr)]
#[tactic(auto, unfolding(civl_phrases::specs::Reader::mapped, civl_phrases::specs::Reader::both))]
fn one<'t, 'a>(
    alloc: Global,
    new: bool,
    most: usize,
    tokens: &'t [Token<'a>],
) -> Result<(Expr, &'t [Token<'a>]), Halt>
    requires { 0 < most }
    ensures { Gives (λ x. (x.0, spelled x.1.now)) result (mapped (λ p. expr.One p.0 p.1) (both one_at (λ _. then_token close_paren (inner_expr new most))) (spelled tokens.now)) }
{
    let (op, rest) = one_op(tokens)?;
    let (operand, rest) = closed(alloc, new, most, rest)?;
    Ok((Expr::One(op, Boxed::new(alloc, operand)?), rest))
}

/// What stands behind the first expression in parentheses, up to the closing bracket.
#[cycle(expr)]
#[tactic(auto, unfolding(crate::specs::readers::Exprs::tail_at, civl_phrases::specs::Reader::mapped, civl_phrases::specs::Reader::chosen))]
fn tail<'t, 'a>(
    alloc: Global,
    new: bool,
    most: usize,
    first: Expr,
    tokens: &'t [Token<'a>],
) -> Result<(Expr, &'t [Token<'a>]), Halt>
    requires { 0 < most }
    ensures { Gives (λ x. (x.0, spelled x.1.now)) result (mapped (with_tail first) (tail_at new (inner_expr new most)) (spelled tokens.now)) }
{
    if sign_next(tokens, b"?") {
        pick(alloc, new, most, first, tokens)
    } else {
        two(alloc, new, most, first, tokens)
    }
}

/// `?`, two expressions and the closing bracket.
#[cycle(expr)]
#[tactic(auto, unfolding(civl_phrases::specs::Reader::after))]
fn picked<'t, 'a>(
    alloc: Global,
    new: bool,
    most: usize,
    tokens: &'t [Token<'a>],
) -> Result<((Expr, Expr), &'t [Token<'a>]), Halt>
    requires { 0 < most }
    ensures { Gives (λ x. (x.0, spelled x.1.now)) result (after (Sign (codes "?")) (both (inner_expr new most) (λ _. after colon (then_token close_paren (inner_expr new most)))) (spelled tokens.now)) }
{
    let rest = sign(tokens, b"?")?;
    two_exprs(alloc, new, most, b":", rest)
}

/// `?`, two expressions and the closing bracket, behind a test.
#[cycle(expr)]
#[tactic(auto, unfolding(crate::specs::readers::Exprs::pick_at, civl_phrases::specs::Reader::mapped))]
fn pick<'t, 'a>(
    alloc: Global,
    new: bool,
    most: usize,
    test: Expr,
    tokens: &'t [Token<'a>],
) -> Result<(Expr, &'t [Token<'a>]), Halt>
    requires { 0 < most }
    ensures { Gives (λ x. (x.0, spelled x.1.now)) result (mapped (with_tail test) (pick_at (inner_expr new most)) (spelled tokens.now)) }
{
    let (test, ((first, second), rest)) = beside(test, picked(alloc, new, most, tokens))?;
    let (test, first, second) = three_boxes(alloc, test, first, second)?;
    Ok((Expr::Pick(test, first, second), rest))
}

/// An operator, an expression and the closing bracket.
#[cycle(expr)]
#[tactic(auto, unfolding(civl_phrases::specs::Reader::both))]
fn operand<'t, 'a>(
    alloc: Global,
    new: bool,
    most: usize,
    tokens: &'t [Token<'a>],
) -> Result<((Two, Expr), &'t [Token<'a>]), Halt>
    requires { 0 < most }
    ensures { Gives (λ x. (x.0, spelled x.1.now)) result (both (two_at new) (λ _. then_token close_paren (inner_expr new most)) (spelled tokens.now)) }
{
    let (op, rest) = two_op(new, tokens)?;
    let (operand, rest) = closed(alloc, new, most, rest)?;
    Ok(((op, operand), rest))
}

/// An operator, an expression and the closing bracket, behind the first operand.
#[cycle(expr)]
#[tactic(auto, unfolding(crate::specs::readers::Exprs::binary_at, civl_phrases::specs::Reader::mapped))]
fn two<'t, 'a>(
    alloc: Global,
    new: bool,
    most: usize,
    first: Expr,
    tokens: &'t [Token<'a>],
) -> Result<(Expr, &'t [Token<'a>]), Halt>
    requires { 0 < most }
    ensures { Gives (λ x. (x.0, spelled x.1.now)) result (mapped (with_tail first) (binary_at new (inner_expr new most)) (spelled tokens.now)) }
{
    let (first, ((op, second), rest)) = beside(first, operand(alloc, new, most, tokens))?;
    let (first, second) = two_boxes(alloc, first, second)?;
    Ok((Expr::Two(op, first, second), rest))
}

/// Two expressions with the sign between, and the closing bracket.
#[cycle(expr)]
#[tactic(auto, unfolding(civl_phrases::specs::Reader::both))]
fn two_exprs<'t, 'a>(
    alloc: Global,
    new: bool,
    most: usize,
    text: &[u8],
    tokens: &'t [Token<'a>],
) -> Result<((Expr, Expr), &'t [Token<'a>]), Halt>
    requires { 0 < most }
    ensures { Gives (λ x. (x.0, spelled x.1.now)) result (both (inner_expr new most) (λ _. after (Sign text.now) (then_token close_paren (inner_expr new most))) (spelled tokens.now)) }
{
    let (first, rest) = inner(alloc, new, most, tokens)?;
    let (first, (second, rest)) = beside(first, last(alloc, new, most, text, rest))?;
    Ok(((first, second), rest))
}

/// A word, and two expressions in parentheses.
#[cycle(expr)]
#[tactic(auto, unfolding(crate::specs::readers::Exprs::pair_at, civl_phrases::specs::Reader::opened, civl_phrases::specs::Reader::after))]
fn pair<'t, 'a>(
    alloc: Global,
    new: bool,
    most: usize,
    text: &[u8],
    tokens: &'t [Token<'a>],
) -> Result<((Expr, Expr), &'t [Token<'a>]), Halt>
    ensures { Gives (λ x. (x.0, spelled x.1.now)) result (pair_at (Reserved text.now) most (inner_expr new most) (spelled tokens.now)) }
{
    let rest = word(tokens, text)?;
    let rest = open_bracket(rest, b"(", most)?;
    two_exprs(alloc, new, most, b",", rest)
}

#[cycle(expr)]
#[tactic(auto, unfolding(crate::specs::readers::Exprs::get_at, civl_phrases::specs::Reader::mapped))]
fn get<'t, 'a>(
    alloc: Global,
    new: bool,
    most: usize,
    tokens: &'t [Token<'a>],
) -> Result<(Expr, &'t [Token<'a>]), Halt>
    ensures { Gives (λ x. (x.0, spelled x.1.now)) result (get_at most (inner_expr new most) (spelled tokens.now)) }
{
    let ((row, at), rest) = pair(alloc, new, most, b"get", tokens)?;
    let (row, at) = two_boxes(alloc, row, at)?;
    Ok((Expr::Get(row, at), rest))
}

#[cycle(expr)]
#[tactic(auto, unfolding(crate::specs::readers::Exprs::join_at, civl_phrases::specs::Reader::mapped))]
fn join<'t, 'a>(
    alloc: Global,
    new: bool,
    most: usize,
    tokens: &'t [Token<'a>],
) -> Result<(Expr, &'t [Token<'a>]), Halt>
    ensures { Gives (λ x. (x.0, spelled x.1.now)) result (join_at most (inner_expr new most) (spelled tokens.now)) }
{
    let ((high, low), rest) = pair(alloc, new, most, b"join", tokens)?;
    let (high, low) = two_boxes(alloc, high, low)?;
    Ok((Expr::Join(high, low), rest))
}

/// Two expressions with a comma between.
#[cycle(expr)]
#[tactic(auto, unfolding(crate::specs::readers::Exprs::exprs_at, civl_phrases::specs::Reader::after, civl_phrases::specs::Reader::both))]
fn exprs<'t, 'a>(
    alloc: Global,
    new: bool,
    most: usize,
    tokens: &'t [Token<'a>],
) -> Result<((Expr, Expr), &'t [Token<'a>]), Halt>
    requires { 0 < most }
    ensures { Gives (λ x. (x.0, spelled x.1.now)) result (exprs_at (inner_expr new most) (spelled tokens.now)) }
{
    let (first, rest) = inner(alloc, new, most, tokens)?;
    let (first, rest) = beside(first, sign(rest, b","))?;
    let (first, (second, rest)) = beside(first, inner(alloc, new, most, rest))?;
    Ok(((first, second), rest))
}

#[cycle(expr)]
#[tactic(auto, unfolding(crate::specs::readers::Exprs::set_at, civl_phrases::specs::Reader::mapped, civl_phrases::specs::Reader::opened, civl_phrases::specs::Reader::after, civl_phrases::specs::Reader::both))]
fn set<'t, 'a>(
    alloc: Global,
    new: bool,
    most: usize,
    tokens: &'t [Token<'a>],
) -> Result<(Expr, &'t [Token<'a>]), Halt>
    ensures { Gives (λ x. (x.0, spelled x.1.now)) result (set_at most (inner_expr new most) (spelled tokens.now)) }
{
    let rest = word(tokens, b"set")?;
    let rest = open_bracket(rest, b"(", most)?;
    let (place, rest) = exprs(alloc, new, most, rest)?;
    let ((row, at), (cell, rest)) = beside(place, last(alloc, new, most, b",", rest))?;
    let (row, at, cell) = three_boxes(alloc, row, at, cell)?;
    Ok((Expr::Set(row, at, cell), rest))
}

#[cycle(expr)]
#[tactic(auto, unfolding(crate::specs::readers::Exprs::fill_at, civl_phrases::specs::Reader::mapped, civl_phrases::specs::Reader::opened, civl_phrases::specs::Reader::after, civl_phrases::specs::Reader::both))]
fn fill<'t, 'a>(
    alloc: Global,
    new: bool,
    most: usize,
    tokens: &'t [Token<'a>],
) -> Result<(Expr, &'t [Token<'a>]), Halt>
    ensures { Gives (λ x. (x.0, spelled x.1.now)) result (fill_at most (inner_expr new most) (spelled tokens.now)) }
{
    let rest = word(tokens, b"fill")?;
    let rest = open_bracket(rest, b"(", most)?;
    let (index, rest) = number(rest)?;
    let (cell, rest) = last(alloc, new, most, b",", rest)?;
    Ok((Expr::Fill(index, Boxed::new(alloc, cell)?), rest))
}

#[cycle(expr)]
#[tactic(auto, unfolding(crate::specs::readers::Exprs::slice_at, civl_phrases::specs::Reader::mapped, civl_phrases::specs::Reader::opened, civl_phrases::specs::Reader::after, civl_phrases::specs::Reader::both))]
fn slice<'t, 'a>(
    alloc: Global,
    new: bool,
    most: usize,
    tokens: &'t [Token<'a>],
) -> Result<(Expr, &'t [Token<'a>]), Halt>
    ensures { Gives (λ x. (x.0, spelled x.1.now)) result (slice_at most (inner_expr new most) (spelled tokens.now)) }
{
    let rest = word(tokens, b"slice")?;
    let rest = open_bracket(rest, b"(", most)?;
    let (operand, rest) = inner(alloc, new, most, rest)?;
    let (operand, ((high, low), rest)) = beside(operand, last_numbers(rest))?;
    Ok((Expr::Slice(Boxed::new(alloc, operand)?, high, low), rest))
}

#[cycle(expr)]
#[tactic(auto, unfolding(crate::specs::readers::Exprs::widen_at, civl_phrases::specs::Reader::mapped, civl_phrases::specs::Reader::opened, civl_phrases::specs::Reader::after, civl_phrases::specs::Reader::both))]
fn widen<'t, 'a>(
    alloc: Global,
    new: bool,
    most: usize,
    tokens: &'t [Token<'a>],
) -> Result<(Expr, &'t [Token<'a>]), Halt>
    ensures { Gives (λ x. (x.0, spelled x.1.now)) result (widen_at most (inner_expr new most) (spelled tokens.now)) }
{
    let rest = word(tokens, b"widen")?;
    let rest = open_bracket(rest, b"(", most)?;
    let (operand, rest) = inner(alloc, new, most, rest)?;
    let (operand, (width, rest)) = beside(operand, last_number(rest))?;
    Ok((Expr::Widen(Boxed::new(alloc, operand)?, width), rest))
}

/// An expression within the next bracket, and the closing bracket.
#[cycle(expr)]
#[tactic(auto, unfolding(civl_phrases::specs::Reader::then_token, civl_phrases::specs::Reader::mapped, civl_phrases::specs::Reader::both, civl_phrases::specs::Reader::after, civl_phrases::specs::Reader::done))]
fn closed<'t, 'a>(
    alloc: Global,
    new: bool,
    most: usize,
    tokens: &'t [Token<'a>],
) -> Result<(Expr, &'t [Token<'a>]), Halt>
    requires { 0 < most }
    ensures { Gives (λ x. (x.0, spelled x.1.now)) result (then_token close_paren (inner_expr new most) (spelled tokens.now)) }
{
    let (expr, rest) = inner(alloc, new, most, tokens)?;
    beside(expr, sign(rest, b")"))
}

/// The sign, an expression within the next bracket, and the closing bracket.
#[cycle(expr)]
#[tactic(auto, unfolding(civl_phrases::specs::Reader::after))]
fn last<'t, 'a>(
    alloc: Global,
    new: bool,
    most: usize,
    text: &[u8],
    tokens: &'t [Token<'a>],
) -> Result<(Expr, &'t [Token<'a>]), Halt>
    requires { 0 < most }
    ensures { Gives (λ x. (x.0, spelled x.1.now)) result (after (Sign text.now) (then_token close_paren (inner_expr new most)) (spelled tokens.now)) }
{
    let rest = sign(tokens, text)?;
    closed(alloc, new, most, rest)
}

/// An expression within the next bracket.
#[cycle(expr)]
fn inner<'t, 'a>(
    alloc: Global,
    new: bool,
    most: usize,
    tokens: &'t [Token<'a>],
) -> Result<(Expr, &'t [Token<'a>]), Halt>
    requires { 0 < most }
    ensures { Gives (λ x. (x.0, spelled x.1.now)) result (inner_expr new most (spelled tokens.now)) }
{
    expr(alloc, new, most - 1, tokens)
}

/// Expressions, where `most` more brackets may be open. `new` says that the version is 2.
#[derive(Drop)]
pub struct ExprPhrase {
    pub new: bool,
    pub most: usize,
}

impl Phrase for ExprPhrase {
    type Item = Expr;

    ghost reader = { λ phrase. expr_at phrase.new phrase.most };

    fn read<'t, 'a>(
        &self,
        alloc: Global,
        tokens: &'t [Token<'a>],
    ) -> Result<(Expr, &'t [Token<'a>]), Halt> {
        expr(alloc, self.new, self.most, tokens)
    }
}

// ---- expressions in other phrases

/// Arguments in parentheses, and the tokens behind them.
///
/// # Errors
///
/// - `NotHere` at the first token with which no list of arguments goes on.
/// - `Deep` at a bracket that may stand there and may not be opened.
#[tactic(auto, unfolding(crate::specs::readers::Exprs::args_at, civl_phrases::specs::Reader::opened))]
pub fn args<'t, 'a>(
    alloc: Global,
    new: bool,
    most: usize,
    tokens: &'t [Token<'a>],
) -> Result<(List<Expr>, &'t [Token<'a>]), Halt>
    ensures { Gives (λ x. (x.0, spelled x.1.now)) result (args_at new most (spelled tokens.now)) }
{
    let rest = open_bracket(tokens, b"(", most)?;
    commas(
        alloc,
        &ExprPhrase {
            new,
            most: most - 1,
        },
        b")",
        rest,
    )
}

/// An expression and a semicolon, and the tokens behind them.
///
/// # Errors
///
/// Where the text is at fault, with the place, and for want of memory.
#[tactic(auto, unfolding(civl_phrases::specs::Reader::then_token, civl_phrases::specs::Reader::mapped, civl_phrases::specs::Reader::both, civl_phrases::specs::Reader::after, civl_phrases::specs::Reader::done))]
pub fn ended_expr<'t, 'a>(
    alloc: Global,
    new: bool,
    most: usize,
    tokens: &'t [Token<'a>],
) -> Result<(Expr, &'t [Token<'a>]), Halt>
    ensures { Gives (λ x. (x.0, spelled x.1.now)) result (then_token semicolon (expr_at new most) (spelled tokens.now)) }
{
    let (expr, rest) = expr(alloc, new, most, tokens)?;
    beside(expr, sign(rest, b";"))
}

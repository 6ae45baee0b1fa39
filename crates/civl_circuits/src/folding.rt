// Gates that fewer operands do for, and operands in a normal order.
ghost use Rattle.std.specs.Prelude.{◌≡◌, ◌&&◌, IfSome, IfNone};
ghost use Rattle.civl_cnf.specs.Gates.{xor};
ghost use Rattle.civl_circuits.specs.inner.Folding.{Folds, AreApart, ReducesChoice, ReducesAddition, IsPair, IsTriple, signed};

use civl_cnf::Lit;

/// What a choice comes to.
#[derive(Clone, Copy)]
pub(crate) enum Choice {
    Is(Lit),
    And(Lit, Lit),
    Or(Lit, Lit),
    Xor(Lit, Lit),
    Open,
}

/// What an addition of three bits comes to: its sum and carry, the addition of two bits, or of these and 1.
#[derive(Clone, Copy)]
pub(crate) enum Addition {
    Is(Lit, Lit),
    Half(Lit, Lit),
    HalfAndOne(Lit, Lit),
    Open,
}

/// The literal that is true where both are, if no gate is needed for it.
#[tactic(auto, using(crate::proofs::Folds::and_folds))]
pub(crate) fn fold_and(one: Lit, a: Lit, b: Lit) -> Option<Lit>
    ensures folds { IfSome result (λ output. Folds one a b output (λ x y. x && y)) }
    ensures apart { IfNone result (AreApart one a b) }
{
    let zero = one.negate();
    if a == one {
        return Some(b);
    }
    if a == zero {
        return Some(a);
    }
    if b == one {
        return Some(a);
    }
    if b == zero {
        return Some(b);
    }
    if a == b {
        return Some(a);
    }
    if a == b.negate() {
        return Some(zero);
    }
    None
}

/// The literal that is true where exactly one of them is, if no gate is needed for it.
#[tactic(auto, using(crate::proofs::Folds::xor_folds))]
pub(crate) fn fold_xor(one: Lit, a: Lit, b: Lit) -> Option<Lit>
    ensures folds { IfSome result (λ output. Folds one a b output xor) }
    ensures apart { IfNone result (AreApart one a b) }
{
    let zero = one.negate();
    if a == one {
        return Some(b.negate());
    }
    if a == zero {
        return Some(b);
    }
    if b == one {
        return Some(a.negate());
    }
    if b == zero {
        return Some(a);
    }
    if a == b {
        return Some(zero);
    }
    if a == b.negate() {
        return Some(one);
    }
    None
}

/// The choice where its branches and its condition tell it apart from no simpler gate.
#[tactic(auto, using(crate::proofs::Folds::choice_reductions))]
fn reduce_branches(one: Lit, c: Lit, a: Lit, b: Lit) -> Choice
    ensures { ReducesChoice one c a b result }
{
    let zero = one.negate();
    let not_c = c.negate();
    if a == one {
        return Choice::Or(c, b);
    }
    if a == zero {
        return Choice::And(not_c, b);
    }
    if b == one {
        return Choice::Or(not_c, a);
    }
    if b == zero {
        return Choice::And(c, a);
    }
    if a == c {
        return Choice::Or(c, b);
    }
    if a == not_c {
        return Choice::And(not_c, b);
    }
    if b == c {
        return Choice::And(c, a);
    }
    if b == not_c {
        return Choice::Or(not_c, a);
    }
    Choice::Open
}

/// What the choice of `a` where `c` is true, and of `b` elsewhere, comes to.
#[tactic(auto, using(crate::proofs::Folds::choice_reductions))]
pub(crate) fn reduce_choice(one: Lit, c: Lit, a: Lit, b: Lit) -> Choice
    ensures { ReducesChoice one c a b result }
{
    if c == one {
        return Choice::Is(a);
    }
    if c == one.negate() {
        return Choice::Is(b);
    }
    if a == b {
        return Choice::Is(a);
    }
    if a == b.negate() {
        return Choice::Xor(c, b);
    }
    reduce_branches(one, c, a, b)
}

/// The addition where one of its bits is constant.
#[tactic(auto, using(crate::proofs::Folds::addition_reductions))]
fn reduce_constants(one: Lit, a: Lit, b: Lit, c: Lit) -> Addition
    ensures { ReducesAddition one a b c result }
{
    let zero = one.negate();
    if a == zero {
        return Addition::Half(b, c);
    }
    if b == zero {
        return Addition::Half(a, c);
    }
    if c == zero {
        return Addition::Half(a, b);
    }
    if a == one {
        return Addition::HalfAndOne(b, c);
    }
    if b == one {
        return Addition::HalfAndOne(a, c);
    }
    if c == one {
        return Addition::HalfAndOne(a, b);
    }
    Addition::Open
}

/// What the addition of three bits comes to.
#[tactic(auto, using(crate::proofs::Folds::addition_reductions))]
pub(crate) fn reduce_addition(one: Lit, a: Lit, b: Lit, c: Lit) -> Addition
    ensures { ReducesAddition one a b c result }
{
    if a == b {
        return Addition::Is(c, a);
    }
    if a == c {
        return Addition::Is(b, a);
    }
    if b == c {
        return Addition::Is(a, b);
    }
    if a == b.negate() {
        return Addition::Is(c.negate(), c);
    }
    if a == c.negate() {
        return Addition::Is(b.negate(), b);
    }
    if b == c.negate() {
        return Addition::Is(a.negate(), a);
    }
    reduce_constants(one, a, b, c)
}

/// The literal, or its opposite where it isn't to be kept.
pub(crate) fn signed(keep: bool, lit: Lit) -> Lit
    ensures { result ≡ signed keep lit }
{
    if keep { lit } else { lit.negate() }
}

/// The two by the numbers of their variables.
#[tactic(auto, using(crate::proofs::Folds::pairs))]
pub(crate) fn ordered(a: Lit, b: Lit) -> (Lit, Lit)
    ensures { IsPair result.0 result.1 a b }
{
    if a.variable() <= b.variable() {
        (a, b)
    } else {
        (b, a)
    }
}

/// The three by the numbers of their variables.
pub(crate) fn ordered_three(a: Lit, b: Lit, c: Lit) -> (Lit, Lit, Lit)
    ensures { IsTriple result.0 result.1 result.2 a b c }
{
    let (low, high) = ordered(a, b);
    let (middle, third) = ordered(high, c);
    let (first, second) = ordered(low, middle);
    (first, second, third)
}

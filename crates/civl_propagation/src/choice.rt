// Which two literals of a clause are watched.
ghost use Rattle.std.specs.Prelude.{◌≡◌, ◌<◌, ◌↔◌, ◌++◌, ◌∷◌, [], List, IsTrue, IfSome, not, length};
ghost use Rattle.civl_cnf.specs.Literal.{Literal};
ghost use Rattle.civl_cnf.specs.ClauseSet.{IsBelow};
ghost use Rattle.civl_units.specs.Marks.{marked};
ghost use Rattle.civl_propagation.specs.Trail.{TrailState, IsStanding};
ghost use Rattle.civl_propagation.specs.Watches.{rank, IsPairBelow, IsRanked, IsOrdered, BestSays, IsFreeIn, IsFreePair, ChoiceSays};
ghost use Rattle.civl_propagation.specs.declared.choice.Best.TheVariants.{One, Two};

use crate::trail::Trail;
use crate::watches::Pair;
use civl_cnf::Lit;

/// A literal, and how late it became false.
#[derive(Clone, Copy, Drop)]
struct Ranked {
    lit: Lit,
    rank: usize,
}

/// The best literals so far: the one that comes first is no worse than the other, and they differ.
#[derive(Clone, Copy, Drop)]
enum Best {
    Nothing,
    One(Ranked),
    Two(Ranked, Ranked),
}

/// Whether the literal is false.
fn is_false(trail: &Trail, lit: Lit) -> bool
    requires { lit.variable < length trail.now.marks }
    ensures { result ≡ marked trail.now.marks lit.variable (not lit.positive) }
{
    match trail.marks()[lit.variable() as usize] {
        None => false,
        Some(value) => value != lit.positive(),
    }
}

/// How late the literal became false.
fn rank_of(trail: &Trail, lit: Lit) -> usize
    requires marks { lit.variable < length trail.now.marks }
    requires places { length trail.now.places ≡ length trail.now.marks }
    ensures { result ≡ rank trail.now lit }
{
    if is_false(trail, lit) {
        trail.places()[lit.variable() as usize]
    } else {
        trail.len()
    }
}

/// Two literals, the one that became false later first.
fn ordered(one: Ranked, other: Ranked) -> Best
    ensures { IsOrdered one other result }
{
    if one.rank < other.rank {
        Best::Two(other, one)
    } else {
        Best::Two(one, other)
    }
}

/// Whether both are the same literal.
fn is_same(one: Lit, other: Lit) -> bool
    ensures { IsTrue result ↔ (one ≡ other) }
{
    one == other
}

/// The best of one literal and the next.
fn second_best(first: Ranked, next: Ranked) -> Best
    ensures { (t : TrailState) (seen : List Literal) → IsRanked t next → BestSays t seen (One first) → BestSays t (seen ++ next.lit ∷ []) result }
{
    if is_same(first.lit, next.lit) {
        Best::One(first)
    } else {
        ordered(first, next)
    }
}

/// The best of two literals and the next.
fn better(first: Ranked, second: Ranked, next: Ranked) -> Best
    ensures { (t : TrailState) (seen : List Literal) → IsRanked t next → BestSays t seen (Two first second) → BestSays t (seen ++ next.lit ∷ []) result }
{
    if next.rank <= second.rank {
        return Best::Two(first, second);
    }
    if is_same(first.lit, next.lit) {
        return Best::Two(first, second);
    }
    ordered(first, next)
}

/// The best of the literals so far and the next.
fn with_lit(best: Best, next: Ranked) -> Best
    ensures { (t : TrailState) (seen : List Literal) → IsRanked t next → BestSays t seen best → BestSays t (seen ++ next.lit ∷ []) result }
{
    match best {
        Best::Nothing => Best::One(next),
        Best::One(first) => second_best(first, next),
        Best::Two(first, second) => better(first, second, next),
    }
}

/// The best literals of a clause, in one pass.
fn best_of(trail: &Trail, clause: &[Lit]) -> Best
    requires below { IsBelow (length trail.now.marks) clause.now }
    requires places { length trail.now.places ≡ length trail.now.marks }
    ensures { BestSays trail.now clause.now result }
{
    let mut best = Best::Nothing;
    for lit in clause {
        let rank = rank_of(trail, *lit);
        best = with_lit(best, Ranked { lit: *lit, rank });
    }
    best
}

/// The first two literals of the clause, if they differ and none of them is false.
fn free_front(trail: &Trail, clause: &[Lit]) -> Option<Pair>
    requires { IsBelow (length trail.now.marks) clause.now }
    ensures { IfSome result (λ pair. IsFreeIn trail.now clause.now pair) }
{
    if clause.len() < 2 {
        return None;
    }
    let first = clause[0];
    let second = clause[1];
    if first == second {
        return None;
    }
    if is_false(trail, first) {
        return None;
    }
    if is_false(trail, second) {
        return None;
    }
    Some(Pair { first, second })
}

/// The two literals of a clause to watch: those that are not false, or became false last.
pub fn choose(trail: &Trail, clause: &[Lit]) -> Option<Pair>
    requires below { IsBelow (length trail.now.marks) clause.now }
    requires standing { IsStanding trail.now }
    ensures { ChoiceSays trail.now clause.now result }
{
    match free_front(trail, clause) {
        Some(pair) => Some(pair),
        None => match best_of(trail, clause) {
            Best::Two(first, second) => Some(Pair {
                first: first.lit,
                second: second.lit,
            }),
            Best::One(_) => None,
            Best::Nothing => None,
        },
    }
}

/// Whether there is a pair, and none of its literals is false. A clause that watches it forces nothing.
pub fn is_free(trail: &Trail, pair: &Option<Pair>) -> bool
    requires { IsPairBelow (length trail.now.marks) pair.now }
    ensures { IsTrue result → IsFreePair trail.now pair.now }
{
    match pair {
        None => false,
        Some(two) => {
            if is_false(trail, two.first) {
                return false;
            }
            !is_false(trail, two.second)
        }
    }
}

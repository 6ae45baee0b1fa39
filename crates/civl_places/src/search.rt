// The statement with a number.
ghost use Rattle.std.specs.Prelude.{◌≡◌, ◌∷◌, MatchOption, None, IsSomeAnd};
ghost use Rattle.civl_tree.specs.Numbering.{inner_of, statements_of, statement_at};
ghost use Rattle.civl_places.specs.inner.Searched.{searched, told};

use civl_tree::{List, Stmt};

/// What a search through numbered statements comes to.
enum Search<'p> {
    /// The statement with the number.
    Found(&'p Stmt),
    /// All statements are passed, and so much of the number is left.
    Left(usize),
}

/// A statement and those in it.
#[cycle(search)]
#[tactic(auto, using(crate::proofs::Searching::searching))]
fn search_stmt(stmt: &Stmt, number: usize) -> Search<'_>
    ensures { told result ≡ searched (stmt.now ∷ inner_of stmt.now) number }
{
    if number == 0 {
        return Search::Found(stmt);
    }
    let inside = number - 1;
    match stmt {
        Stmt::If(_, first, second) => match search_stmts(first, inside) {
            Search::Found(found) => Search::Found(found),
            Search::Left(left) => search_stmts(second, left),
        },
        Stmt::While(_, body) => search_stmts(body, inside),
        Stmt::YieldLoop(_, _, body) => search_stmts(body, inside),
        Stmt::RankLoop(_, _, _, body) => search_stmts(body, inside),
        _ => Search::Left(inside),
    }
}

/// Statements and those in them.
#[cycle(search)]
#[tactic(auto, using(crate::proofs::Searching::searching))]
fn search_stmts(stmts: &List<Stmt>, number: usize) -> Search<'_>
    ensures { told result ≡ searched (statements_of stmts.now) number }
{
    let mut left = number;
    for stmt in stmts.as_slice() {
        left = match search_stmt(stmt, left) {
            Search::Found(found) => return Search::Found(found),
            Search::Left(rest) => rest,
        };
    }
    Search::Left(left)
}

/// The statement of a body that has this number.
pub(crate) fn statement(body: &List<Stmt>, number: usize) -> Option<&Stmt>
    ensures { MatchOption (statement_at body.now number) (result ≡ None) (λ stmt. IsSomeAnd result (λ found. found.now ≡ stmt)) }
{
    match search_stmts(body, number) {
        Search::Found(stmt) => Some(stmt),
        Search::Left(_) => None,
    }
}

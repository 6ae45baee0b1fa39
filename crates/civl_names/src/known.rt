// The names in scope at the places of expressions.
ghost use Rattle.std.specs.Prelude.{◌≡◌};
ghost use Rattle.civl_tree.specs.rules.Names.{has_name};
ghost use Rattle.civl_names.specs.inner.InScope.{names_of, olds_of, all_known, any_strange};

use crate::name_set::NameSet;
use civl_tree::{Expr, Name};

/// Names that an action or a procedure declares: those that may be used, and its outputs, which `old(name)` may name.
#[derive(Drop)]
pub(crate) struct Own<'m> {
    pub names: NameSet<'m>,
    pub outs: NameSet<'m>,
}

/// The names in scope where an expression stands, by sets: `Globals(globals)` in `init`, an invariant or the arguments of
/// a thread; `Body(globals, own)` in a statement of a procedure, where no global may stand but in `old(name)`;
/// `Note(globals, own)` where globals may stand beside names that an action or a procedure declares.
#[derive(Clone, Copy)]
pub(crate) enum Scope<'s, 'p, 'n, 'm> {
    Globals(&'s NameSet<'p>),
    Body(&'s NameSet<'p>, &'n Own<'m>),
    Note(&'s NameSet<'p>, &'n Own<'m>),
}

#[tactic(auto, using(crate::proofs::Lists::any_append))]
fn has_name(scope: &Scope, name: &Name) -> bool
    ensures { result ≡ has_name (names_of scope.now) name.now }
{
    match scope {
        Scope::Globals(globals) => globals.has(name),
        Scope::Body(_, own) => own.names.has(name),
        Scope::Note(globals, own) => globals.has(name) || own.names.has(name),
    }
}

#[tactic(auto, using(crate::proofs::Lists::any_append))]
fn has_old(scope: &Scope, name: &Name) -> bool
    ensures { result ≡ has_name (olds_of scope.now) name.now }
{
    match scope {
        Scope::Globals(globals) => globals.has(name),
        Scope::Body(globals, own) => globals.has(name) || own.outs.has(name),
        Scope::Note(globals, own) => globals.has(name) || own.outs.has(name),
    }
}

/// Whether all names of an expression are in scope.
pub(crate) fn all_known(scope: &Scope, expr: &Expr) -> bool
    ensures { result ≡ all_known (names_of scope.now) (olds_of scope.now) expr.now }
{
    match expr {
        Expr::Name(name) => has_name(scope, name),
        Expr::Old(name) => has_old(scope, name),
        Expr::Literal(_, _) | Expr::True | Expr::False | Expr::Done | Expr::OldDone => true,
        Expr::One(_, part) => all_known(scope, part),
        Expr::Two(_, first, second) => all_known(scope, first) && all_known(scope, second),
        Expr::Pick(test, first, second) => all_known(scope, test)
            && all_known(scope, first)
            && all_known(scope, second),
        Expr::Get(row, at) => all_known(scope, row) && all_known(scope, at),
        Expr::Set(row, at, cell) => all_known(scope, row)
            && all_known(scope, at)
            && all_known(scope, cell),
        Expr::Fill(_, cell) => all_known(scope, cell),
        Expr::Slice(word, _, _) => all_known(scope, word),
        Expr::Widen(word, _) => all_known(scope, word),
        Expr::Join(first, second) => all_known(scope, first) && all_known(scope, second),
    }
}

/// Whether a name of one of these expressions isn't in scope.
pub(crate) fn any_strange(scope: &Scope, exprs: &[Expr]) -> bool
    ensures { result ≡ any_strange (names_of scope.now) (olds_of scope.now) exprs.now }
{
    exprs.iter().any(|expr| !all_known(scope, expr))
}

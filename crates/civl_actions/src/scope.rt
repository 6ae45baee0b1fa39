// The terms that names stand for.

use civl_firing::names::Names;
use civl_terms::Id;

/// What the names of an expression stand for: for each name its term and the term of its old value, at one place of the two
/// lists, and the terms of `done` and `old(done)`.
#[derive(Clone, Copy)]
pub struct Scope<'a> {
    pub names: Names<'a>,
    pub values: &'a [Id],
    pub old: &'a [Id],
    pub done: Id,
    pub old_done: Id,
}

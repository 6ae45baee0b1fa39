// What a refusal is about.

use civl_tree::{Expr, Name, Param, Sort};

/// A number of the header.
#[derive(Clone, Copy)]
pub enum HeaderNumber {
    Version,
    Layers,
    Permissions,
}

/// What there may be only so much of.
#[derive(Clone, Copy)]
pub enum Limited {
    Globals,
    Invariants,
    Actions,
    Procs,
    Threads,
    /// The parameters, outputs and choices of an action, or the parameters, outputs and locals of a procedure.
    Names,
    /// The cut points of all procedures.
    Cuts,
}

/// What has to be of one number.
#[derive(Clone, Copy)]
pub enum Counted {
    Arguments,
    Results,
    Parameters,
    Outputs,
}

/// What the place of an expression needs: a word of any width, any sort, or this one.
#[derive(Clone, Copy)]
pub enum Needed {
    Any,
    Word,
    Only(Sort),
}

/// What a statement is, of those that may not stand everywhere.
#[derive(Clone, Copy)]
pub enum StatementKind {
    /// A loop with neither `yield` nor `rank`.
    Loop,
    YieldLoop,
    RankLoop,
    Yield,
    Commit,
    Intro,
    Spawn,
}

/// What a refusal is about.
#[derive(Clone, Copy)]
pub enum Subject<'a> {
    /// A name.
    Name(&'a Name),
    /// A name with its sort.
    Sorted(&'a Name, Sort),
    /// A name, its sort, and the sort that it needs.
    Needs(&'a Name, Sort, Sort),
    /// An expression.
    Expr(&'a Expr),
    /// An expression that has no sort.
    Unsorted(&'a Expr),
    /// An expression with its sort, and what its place needs.
    Missorted(&'a Expr, Sort, Needed),
    /// A number of the header.
    Header(HeaderNumber, u32),
    /// There is too much of this.
    TooMany(Limited),
    /// How many there are, and how many are needed.
    Count(Counted, usize, usize),
    /// The first and the last layer of a range, and the number of layers.
    Range(u32, u32, u32),
    /// A layer or a step, and the number of layers.
    Step(u32, u32),
    /// A parameter or an output, and that of the refined action in its place.
    Differs(&'a Param, &'a Param),
    /// What a statement is.
    Statement(StatementKind),
    /// What a statement is that stands in a procedure which refines an action.
    InLayered(StatementKind),
    /// What a statement is that stands in a root.
    InRoot(StatementKind),
}

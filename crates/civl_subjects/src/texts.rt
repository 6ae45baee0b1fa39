// Subjects, written.
ghost use Rattle.std.specs.Prelude.{◌≡◌, ◌++◌, OnOk};
ghost use Rattle.civl_tree.specs.rules.Uses.{Only};
ghost use Rattle.civl_subjects.specs.Subjects.{OfSort, OfNeed, OfUnsorted, OfMissorted, OfCount, OfRange, OfStep, OfParam, OfLayered, OfRoot};
ghost use Rattle.civl_subjects.specs.Texts.{counted_text, header_text, kind_text, limit_text, mode_text, need_text, param_text, subject_text};
ghost use Rattle.civl_subjects.specs.inner.Meant.{meant, need_of};

use crate::expressions::put_expr;
use crate::subject::{Counted, HeaderNumber, Limited, Needed, StatementKind, Subject};
use crate::writing::{put, put_many, put_number, put_sort};
use civl_tree::{Expr, Memory, Mode, Name, Param, Sort};

/// The sort that is needed.
fn put_only(out: &mut Vec<u8>, sort: Sort) -> Result<(), Memory>
    ensures { OnOk result (out.new.items ≡ out.old.items ++ need_text (Only sort)) }
{
    put_sort(out, sort)?;
    put(out, b" is needed")
}

/// What a place needs.
fn put_need(out: &mut Vec<u8>, needed: Needed) -> Result<(), Memory>
    ensures { OnOk result (out.new.items ≡ out.old.items ++ need_text (need_of needed)) }
{
    match needed {
        Needed::Any => put(out, b"any sort is needed"),
        Needed::Word => put(out, b"a word is needed"),
        Needed::Only(sort) => put_only(out, sort),
    }
}

/// The word of a mode.
fn mode_text(mode: Mode) -> &'static [u8]
    ensures { result.now ≡ mode_text mode }
{
    match mode {
        Mode::Val => b"val ",
        Mode::Lend => b"lend ",
        Mode::Take => b"take ",
        Mode::Give => b"give ",
    }
}

/// A parameter or an output.
fn put_param(out: &mut Vec<u8>, param: &Param) -> Result<(), Memory>
    ensures { OnOk result (out.new.items ≡ out.old.items ++ param_text param.now) }
{
    put(out, mode_text(param.mode))?;
    put(out, param.name.as_slice())?;
    put(out, b" : ")?;
    put_sort(out, param.sort)
}

/// A number of the header that is out of its range.
fn put_header(out: &mut Vec<u8>, header: HeaderNumber, number: u32) -> Result<(), Memory>
    ensures { OnOk result (out.new.items ≡ out.old.items ++ header_text header number) }
{
    match header {
        HeaderNumber::Version => {
            put(out, b"version ")?;
            put_number(out, number as usize)?;
            put(out, b", not 1 or 2")
        }
        HeaderNumber::Layers => {
            put(out, b"layers ")?;
            put_number(out, number as usize)?;
            put(out, b", not 1 to 8")
        }
        HeaderNumber::Permissions => {
            put(out, b"permissions ")?;
            put_number(out, number as usize)?;
            put(out, b", not 1 to 5")
        }
    }
}

/// What there is too much of.
fn limit_text(limited: Limited) -> &'static [u8]
    ensures { result.now ≡ limit_text limited }
{
    match limited {
        Limited::Globals => b"more than 64 globals",
        Limited::Invariants => b"more than 64 invariants",
        Limited::Actions => b"more than 128 actions",
        Limited::Procs => b"more than 64 procedures",
        Limited::Threads => b"more than 64 threads",
        Limited::Names => b"more than 32 names",
        Limited::Cuts => b"more than 256 cut points",
    }
}

/// What is counted.
fn counted_text(counted: Counted) -> &'static [u8]
    ensures { result.now ≡ counted_text counted }
{
    match counted {
        Counted::Arguments => b" argument",
        Counted::Results => b" result",
        Counted::Parameters => b" parameter",
        Counted::Outputs => b" output",
    }
}

/// A name with its sort.
fn put_sorted(out: &mut Vec<u8>, name: &Name, sort: Sort) -> Result<(), Memory>
    ensures { OnOk result (out.new.items ≡ out.old.items ++ subject_text (OfSort name.now sort)) }
{
    put(out, name.as_slice())?;
    put(out, b" : ")?;
    put_sort(out, sort)
}

/// A name, its sort, and the sort that it needs.
fn put_needs(out: &mut Vec<u8>, name: &Name, sort: Sort, needs: Sort) -> Result<(), Memory>
    ensures { OnOk result (out.new.items ≡ out.old.items ++ subject_text (OfNeed name.now sort needs)) }
{
    put(out, name.as_slice())?;
    put(out, b" is ")?;
    put_sort(out, sort)?;
    put(out, b", ")?;
    put_only(out, needs)
}

/// An expression that has no sort.
fn put_unsorted(out: &mut Vec<u8>, expr: &Expr) -> Result<(), Memory>
    ensures { OnOk result (out.new.items ≡ out.old.items ++ subject_text (OfUnsorted expr.now)) }
{
    put_expr(out, expr)?;
    put(out, b" has no sort")
}

/// An expression with its sort, and what its place needs.
fn put_missorted(out: &mut Vec<u8>, expr: &Expr, sort: Sort, needed: Needed) -> Result<(), Memory>
    ensures { OnOk result (out.new.items ≡ out.old.items ++ subject_text (OfMissorted expr.now sort (need_of needed))) }
{
    put_expr(out, expr)?;
    put(out, b" is ")?;
    put_sort(out, sort)?;
    put(out, b", ")?;
    put_need(out, needed)
}

/// How many there are, and how many are needed.
fn put_count(out: &mut Vec<u8>, counted: Counted, found: usize, needed: usize) -> Result<(), Memory>
    ensures { OnOk result (out.new.items ≡ out.old.items ++ subject_text (OfCount counted found needed)) }
{
    put_many(out, found, counted_text(counted))?;
    put(out, b", not ")?;
    put_number(out, needed)
}

/// A range, and the number of layers.
fn put_range(out: &mut Vec<u8>, first: u32, last: u32, layers: u32) -> Result<(), Memory>
    ensures { OnOk result (out.new.items ≡ out.old.items ++ subject_text (OfRange first last layers)) }
{
    put_number(out, first as usize)?;
    put(out, b" to ")?;
    put_number(out, last as usize)?;
    put(out, b", with ")?;
    put_many(out, layers as usize, b" layer")
}

/// A layer or a step, and the number of layers.
fn put_step(out: &mut Vec<u8>, step: u32, layers: u32) -> Result<(), Memory>
    ensures { OnOk result (out.new.items ≡ out.old.items ++ subject_text (OfStep step layers)) }
{
    put_number(out, step as usize)?;
    put(out, b", with ")?;
    put_many(out, layers as usize, b" layer")
}

/// A parameter or an output, and that in its place.
fn put_differs(out: &mut Vec<u8>, param: &Param, other: &Param) -> Result<(), Memory>
    ensures { OnOk result (out.new.items ≡ out.old.items ++ subject_text (OfParam param.now other.now)) }
{
    put_param(out, param)?;
    put(out, b", not ")?;
    put_param(out, other)
}

/// What a statement is.
fn kind_text(kind: StatementKind) -> &'static [u8]
    ensures { result.now ≡ kind_text kind }
{
    match kind {
        StatementKind::Loop => b"a loop",
        StatementKind::YieldLoop => b"a yield loop",
        StatementKind::RankLoop => b"a rank loop",
        StatementKind::Yield => b"a yield",
        StatementKind::Commit => b"a commit",
        StatementKind::Intro => b"an intro",
        StatementKind::Spawn => b"a spawn",
    }
}

/// What a statement is that stands in a procedure which refines an action.
fn put_in_layered(out: &mut Vec<u8>, kind: StatementKind) -> Result<(), Memory>
    ensures { OnOk result (out.new.items ≡ out.old.items ++ subject_text (OfLayered kind)) }
{
    put(out, kind_text(kind))?;
    put(out, b" in a procedure that refines an action")
}

/// What a statement is that stands in a root.
fn put_in_root(out: &mut Vec<u8>, kind: StatementKind) -> Result<(), Memory>
    ensures { OnOk result (out.new.items ≡ out.old.items ++ subject_text (OfRoot kind)) }
{
    put(out, kind_text(kind))?;
    put(out, b" in a root")
}

/// A subject.
pub(crate) fn put_subject(out: &mut Vec<u8>, subject: &Subject) -> Result<(), Memory>
    ensures { OnOk result (out.new.items ≡ out.old.items ++ subject_text (meant subject.now)) }
{
    match subject {
        Subject::Name(name) => put(out, name.as_slice()),
        Subject::Sorted(name, sort) => put_sorted(out, name, *sort),
        Subject::Needs(name, sort, needs) => put_needs(out, name, *sort, *needs),
        Subject::Expr(expr) => put_expr(out, expr),
        Subject::Unsorted(expr) => put_unsorted(out, expr),
        Subject::Missorted(expr, sort, needed) => put_missorted(out, expr, *sort, *needed),
        Subject::Header(header, number) => put_header(out, *header, *number),
        Subject::TooMany(limited) => put(out, limit_text(*limited)),
        Subject::Count(counted, found, needed) => put_count(out, *counted, *found, *needed),
        Subject::Range(first, last, layers) => put_range(out, *first, *last, *layers),
        Subject::Step(step, layers) => put_step(out, *step, *layers),
        Subject::Differs(param, other) => put_differs(out, param, other),
        Subject::Statement(kind) => put(out, kind_text(*kind)),
        Subject::InLayered(kind) => put_in_layered(out, *kind),
        Subject::InRoot(kind) => put_in_root(out, *kind),
    }
}

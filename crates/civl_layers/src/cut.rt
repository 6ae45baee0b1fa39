// The cuts of procedures.
ghost use Rattle.std.specs.Prelude.{◌≡◌, ◌+◌, ◌++◌, ◌<◌, ◌^◌, length, slice_get, IfOk, IfSome};
ghost use Rattle.civl_tree.specs.Numbering.{statements_of, inner_of};
ghost use Rattle.civl_layers.specs.Cuts.{cut_at, cut_kind, cuts_among, proc_cuts};

use crate::source::{Layered, program};
use civl_tree::{List, Memory, Stmt};
use std::alloc::Global;

/// What a cut is: a procedure's entry, a yield, a yield loop or a rank loop.
#[derive(Clone, Copy, Debug, PartialEq, Eq)]
pub enum CutKind {
    Entry,
    Yield,
    YieldLoop,
    RankLoop,
}

/// A cut of a procedure: the number of its statement, which is 0 for the entry, and what it is.
#[derive(Clone, Copy, Debug, PartialEq, Eq)]
pub struct Cut {
    pub statement: u32,
    pub kind: CutKind,
}

/// Which cut a statement is, where it is one.
fn cut_kind(stmt: &Stmt) -> Option<CutKind>
    ensures { result ≡ cut_kind stmt.now }
{
    match stmt {
        Stmt::YieldLoop(_, _, _) => Some(CutKind::YieldLoop),
        Stmt::RankLoop(_, _, _, _) => Some(CutKind::RankLoop),
        Stmt::Yield(_) => Some(CutKind::Yield),
        Stmt::Assign(_, _) => None,
        Stmt::Assert(_) => None,
        Stmt::If(_, _, _) => None,
        Stmt::While(_, _) => None,
        Stmt::Call(_, _, _) => None,
        Stmt::Commit => None,
        Stmt::Intro(_, _) => None,
        Stmt::Spawn(_, _) => None,
    }
}

/// Puts the statement with this number behind the cuts, where it is one.
fn push_cut(cuts: &mut List<Cut>, stmt: &Stmt, number: u32) -> Result<(), Memory>
    ensures { IfOk result (λ done. cuts.new ≡ cuts.old ++ cut_at number (cut_kind stmt.now)) }
{
    match cut_kind(stmt) {
        Some(kind) => {
            cuts.push(Cut {
                statement: number,
                kind,
            })
        }
        None => Ok(()),
    }
}

/// Puts the cuts among these statements and those in them behind the others, where the first has this number. The
/// answer is the number behind them.
#[cycle(cuts)]
#[tactic(auto, using(crate::proofs::Cutting::cutting))]
fn push_cuts(cuts: &mut List<Cut>, stmts: &List<Stmt>, number: u32) -> Result<u32, Memory>
    requires { number + length (statements_of stmts.now) < 2 ^ 32 }
    ensures { IfOk result (λ next. (cuts.new ≡ cuts.old ++ cuts_among number (statements_of stmts.now)) × (next ≡ number + length (statements_of stmts.now))) }
{
    let mut here = number;
    for stmt in stmts.as_slice() {
        push_cut(cuts, stmt, here)?;
        here = push_inner(cuts, stmt, here + 1)?;
    }
    Ok(here)
}

/// The same of the statements in a statement.
#[cycle(cuts)]
#[tactic(auto, using(crate::proofs::Cutting::cutting))]
fn push_inner(cuts: &mut List<Cut>, stmt: &Stmt, number: u32) -> Result<u32, Memory>
    requires { number + length (inner_of stmt.now) < 2 ^ 32 }
    ensures { IfOk result (λ next. (cuts.new ≡ cuts.old ++ cuts_among number (inner_of stmt.now)) × (next ≡ number + length (inner_of stmt.now))) }
{
    match stmt {
        Stmt::If(_, first, second) => {
            let next = push_cuts(cuts, first, number)?;
            push_cuts(cuts, second, next)
        }
        Stmt::While(_, body) => push_cuts(cuts, body, number),
        Stmt::YieldLoop(_, _, body) => push_cuts(cuts, body, number),
        Stmt::RankLoop(_, _, _, body) => push_cuts(cuts, body, number),
        Stmt::Assign(_, _) => Ok(number),
        Stmt::Assert(_) => Ok(number),
        Stmt::Call(_, _, _) => Ok(number),
        Stmt::Yield(_) => Ok(number),
        Stmt::Commit => Ok(number),
        Stmt::Intro(_, _) => Ok(number),
        Stmt::Spawn(_, _) => Ok(number),
    }
}

/// The cuts of a procedure: its entry, and then its yields, its yield loops and its rank loops in text order. A root has
/// none. The procedure with this number among the procedures exists.
///
/// # Errors
///
/// For want of memory.
pub fn cuts(alloc: Global, src: &Layered, proc_number: u32) -> Result<List<Cut>, Memory>
    requires { proc_number < length src.now.procs }
    ensures { IfOk result (λ cuts. IfSome (slice_get src.now.procs proc_number) (λ proc. cuts ≡ proc_cuts proc)) }
{
    let proc = program(src).procs.get(proc_number as usize);
    let mut cuts = List::new(alloc);
    match proc.refines {
        Some(_) => {
            cuts.push(Cut {
                statement: 0,
                kind: CutKind::Entry,
            })?;
            push_cuts(&mut cuts, &proc.body, 0)?;
            Ok(cuts)
        }
        None => Ok(cuts),
    }
}

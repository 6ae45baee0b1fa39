// The statements of roots, with the places behind them, and where `if`s and loops lead.
ghost use Rattle.std.specs.Prelude.{◌≡◌, ◌<◌, ◌≤◌, ◌+◌, ◌^◌, Some, drop, IfOk};
ghost use Rattle.civl_tree.specs.declared.stmt.Stmt.{out-Stmt};
ghost use Rattle.civl_tree.specs.Numbering.{sizes_of};
ghost use Rattle.civl_tree.specs.rules.Rules.{Keeps};
ghost use Rattle.civl_meaning.specs.Places.{start_of, spot_at};
ghost use Rattle.civl_meaning.specs.Rest.{place_in};
ghost use Rattle.civl_layers.specs.Layered.{IsLayered};
ghost use Rattle.civl_yields.specs.YieldRules.{yield_rules};
ghost use Rattle.civl_meaning.specs.Remaining.{rest_of};
ghost use Rattle.civl_goal_terms.specs.inner.Places.{IsAt, fork_in, told};
ghost use Rattle.civl_goal_terms.specs.inner.There.{HasStatement};

use civl_body::sizes::sizes;
use civl_meaning::remaining::{Numbered, push_among};
use civl_terms::Memory;
use civl_tree::{Expr, List, Proc, Program, Stmt};
use std::alloc::Global as Alloc;

/// A statement of a root: the numbers of both, and the place behind it.
#[derive(Clone, Copy)]
pub(crate) struct At<'a> {
    pub root: u32,
    pub proc: &'a Proc,
    pub number: u32,
    pub stmt: &'a Stmt,
    pub next: u32,
}

/// The place at which the second of what is still to run begins: that of the exit where there is none.
fn next_place(proc: &Proc, rest: &[Numbered<'_>]) -> u32
    requires small { sizes_of proc.now.body < 2 ^ 32 }
    requires within { place_in (sizes_of proc.now.body) (rest_of (drop 1 rest.now)) ≤ sizes_of proc.now.body }
    ensures { result ≡ place_in (sizes_of proc.now.body) (rest_of (drop 1 rest.now)) }
{
    if 1 < rest.len() {
        return rest[1].number as u32;
    }
    sizes(&proc.body)
}

/// The statement with this number of the root with that number.
pub(crate) fn find<'a>(
    alloc: Alloc,
    program: &'a Program,
    root: u32,
    number: u32,
) -> Result<At<'a>, Memory>
    requires layered { IsLayered program.now }
    requires yields { Keeps yield_rules program.now }
    requires there { HasStatement program.now root number }
    ensures is { IfOk result (λ at. IsAt program.now at) }
    ensures root { IfOk result (λ at. at.root ≡ root) }
    ensures number { IfOk result (λ at. at.number ≡ number) }
{
    let proc = program.procs.get(root as usize);
    let mut rest = Vec::new(alloc);
    push_among(&mut rest, &proc.body, 0, number as usize)?;
    let rest = rest.as_slice();
    let head = rest[0];
    Ok(At {
        root,
        proc,
        number: head.number as u32,
        stmt: head.stmt,
        next: next_place(proc, rest),
    })
}

/// The condition of an `if` or a loop, and the places that are reached where it is true and where it is false.
#[derive(Clone, Copy)]
pub(crate) struct Fork<'a> {
    pub condition: &'a Expr,
    pub yes: u32,
    pub no: u32,
}

/// Where these statements begin, with the place `next` behind them.
fn start(stmts: &List<Stmt>, at: u32, next: u32) -> u32
    ensures { result ≡ start_of stmts.now at next }
{
    if stmts.len() == 0 {
        return next;
    }
    at
}

/// Where the second branch of an `if` begins, which has this number.
fn second(first: &List<Stmt>, second: &List<Stmt>, at: u32, next: u32) -> u32
    requires { at + 1 + sizes_of first.now < 2 ^ 32 }
    ensures { result ≡ start_of second.now (at + 1 + sizes_of first.now) next }
{
    if second.len() == 0 {
        return next;
    }
    at + 1 + sizes(first)
}

/// Where the statement leads, if it is an `if` or a loop.
pub(crate) fn forked<'a>(at: &At<'a>) -> Option<Fork<'a>>
    requires small { sizes_of at.now.proc.now.body < 2 ^ 32 }
    requires spot { spot_at at.now.proc.now.body at.now.number ≡ Some (record { number = at.now.number; stmt = at.now.stmt.now; next = at.now.next }) }
    ensures { told result ≡ fork_in at.now.number at.now.next (out-Stmt at.now.stmt.now) }
{
    let At {
        number,
        stmt,
        next,
        ..
    } = *at;
    match stmt {
        Stmt::If(condition, first, other) => Some(Fork {
            condition,
            yes: start(first, number + 1, next),
            no: second(first, other, number, next),
        }),
        Stmt::While(condition, body) => Some(Fork {
            condition,
            yes: start(body, number + 1, number),
            no: next,
        }),
        Stmt::YieldLoop(condition, _, body) => Some(Fork {
            condition,
            yes: start(body, number + 1, number),
            no: next,
        }),
        Stmt::RankLoop(condition, _, _, body) => Some(Fork {
            condition,
            yes: start(body, number + 1, number),
            no: next,
        }),
        Stmt::Assign(_, _) => None,
        Stmt::Assert(_) => None,
        Stmt::Call(_, _, _) => None,
        Stmt::Yield(_) => None,
        Stmt::Commit => None,
        Stmt::Intro(_, _) => None,
        Stmt::Spawn(_, _) => None,
    }
}

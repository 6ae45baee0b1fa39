// Copies of trees. A copy is an equal tree, and takes memory of its own.
ghost use Rattle.std.specs.Prelude.{◌≡◌, IfOk};
ghost use Rattle.civl_tree.specs.declared.stmt.Stmt.TheVariants.{YieldLoop, RankLoop, Call};

use crate::action::{Action, Choice, Param, Update};
use crate::boxed::Boxed;
use crate::expr::Expr;
use crate::list::List;
use crate::memory::Memory;
use crate::name::Name;
use crate::program::{Global, Invariant, Local, Proc, Program, Refines, Thread};
use crate::results::{both, three};
use crate::stmt::Stmt;
use std::alloc::Global as Alloc;

/// A part of a tree that can be copied where there is memory.
pub trait TryClone: Drop {
    /// An equal value.
    ///
    /// # Errors
    ///
    /// For want of memory.
    fn try_clone(&self, alloc: Alloc) -> Result<Self, Memory>
        ensures { IfOk result (λ copy. copy ≡ self.now) };
}

/// An equal list.
///
/// # Errors
///
/// For want of memory.
pub fn copy_list<T: TryClone>(alloc: Alloc, items: &List<T>) -> Result<List<T>, Memory>
    ensures { IfOk result (λ copy. copy ≡ items.now) }
{
    let mut copies = Vec::new(alloc);
    for item in items.as_slice() {
        let copy = item.try_clone(alloc)?;
        copies.push(copy)?;
    }
    Ok(List::from_vec(copies))
}

impl TryClone for Name {
    fn try_clone(&self, alloc: Alloc) -> Result<Name, Memory> {
        let copy = Name::from_slice(alloc, self.as_slice())?;
        Ok(copy)
    }
}

/// A boxed expression in a box of its own.
#[cycle(expr)]
fn copy_boxed(alloc: Alloc, expr: &Boxed<Expr>) -> Result<Boxed<Expr>, Memory>
    ensures { IfOk result (λ copy. copy ≡ expr.now) }
{
    let copy = copy_expr(alloc, expr)?;
    let copy = Boxed::new(alloc, copy)?;
    Ok(copy)
}

/// An equal expression.
///
/// # Errors
///
/// For want of memory.
#[cycle(expr)]
pub fn copy_expr(alloc: Alloc, expr: &Expr) -> Result<Expr, Memory>
    ensures { IfOk result (λ copy. copy ≡ expr.now) }
{
    match expr {
        Expr::Name(name) => {
            let name = name.try_clone(alloc)?;
            Ok(Expr::Name(name))
        }
        Expr::Literal(value, width) => Ok(Expr::Literal(*value, *width)),
        Expr::True => Ok(Expr::True),
        Expr::False => Ok(Expr::False),
        Expr::Done => Ok(Expr::Done),
        Expr::Old(name) => {
            let name = name.try_clone(alloc)?;
            Ok(Expr::Old(name))
        }
        Expr::OldDone => Ok(Expr::OldDone),
        Expr::One(op, part) => {
            let part = copy_boxed(alloc, part)?;
            Ok(Expr::One(*op, part))
        }
        Expr::Two(op, first, second) => {
            let (first, second) = both(copy_boxed(alloc, first), copy_boxed(alloc, second))?;
            Ok(Expr::Two(*op, first, second))
        }
        Expr::Pick(test, first, second) => {
            let (test, first, second) = three(
                copy_boxed(alloc, test),
                copy_boxed(alloc, first),
                copy_boxed(alloc, second),
            )?;
            Ok(Expr::Pick(test, first, second))
        }
        Expr::Get(row, at) => {
            let (row, at) = both(copy_boxed(alloc, row), copy_boxed(alloc, at))?;
            Ok(Expr::Get(row, at))
        }
        Expr::Set(row, at, cell) => {
            let (row, at, cell) = three(
                copy_boxed(alloc, row),
                copy_boxed(alloc, at),
                copy_boxed(alloc, cell),
            )?;
            Ok(Expr::Set(row, at, cell))
        }
        Expr::Fill(index, cell) => {
            let cell = copy_boxed(alloc, cell)?;
            Ok(Expr::Fill(*index, cell))
        }
        Expr::Slice(word, high, low) => {
            let word = copy_boxed(alloc, word)?;
            Ok(Expr::Slice(word, *high, *low))
        }
        Expr::Widen(word, width) => {
            let word = copy_boxed(alloc, word)?;
            Ok(Expr::Widen(word, *width))
        }
        Expr::Join(first, second) => {
            let (first, second) = both(copy_boxed(alloc, first), copy_boxed(alloc, second))?;
            Ok(Expr::Join(first, second))
        }
    }
}

impl TryClone for Expr {
    fn try_clone(&self, alloc: Alloc) -> Result<Expr, Memory> {
        copy_expr(alloc, self)
    }
}

/// An equal target and an equal value for it.
fn copy_assignment(alloc: Alloc, target: &Name, value: &Expr) -> Result<(Name, Expr), Memory>
    ensures { IfOk result (λ copy. copy ≡ (target.now, value.now)) }
{
    both(target.try_clone(alloc), copy_expr(alloc, value))
}

/// An equal callee and equal arguments for it.
fn copy_callee(alloc: Alloc, callee: &Name, args: &List<Expr>) -> Result<(Name, List<Expr>), Memory>
    ensures { IfOk result (λ copy. copy ≡ (callee.now, args.now)) }
{
    both(callee.try_clone(alloc), copy_list(alloc, args))
}

/// An equal call.
fn copy_call(
    alloc: Alloc,
    callee: &Name,
    args: &List<Expr>,
    results: &List<Name>,
) -> Result<Stmt, Memory>
    ensures { IfOk result (λ copy. copy ≡ (Call callee.now args.now results.now)) }
{
    let (callee, args) = copy_callee(alloc, callee, args)?;
    let results = copy_list(alloc, results)?;
    Ok(Stmt::Call(callee, args, results))
}

/// An equal condition and an equal body.
#[cycle(stmt)]
fn copy_while(alloc: Alloc, body: &List<Stmt>, test: &Expr) -> Result<(Expr, List<Stmt>), Memory>
    ensures { IfOk result (λ copy. copy ≡ (test.now, body.now)) }
{
    both(copy_expr(alloc, test), copy_stmts(alloc, body))
}

/// An equal yield loop.
#[cycle(stmt)]
fn copy_yield_loop(alloc: Alloc, body: &List<Stmt>, test: &Expr, inv: &Expr) -> Result<Stmt, Memory>
    ensures { IfOk result (λ copy. copy ≡ (YieldLoop test.now inv.now body.now)) }
{
    let ((test, body), inv) = both(copy_while(alloc, body, test), copy_expr(alloc, inv))?;
    Ok(Stmt::YieldLoop(test, inv, body))
}

/// An equal loop with a rank.
#[cycle(stmt)]
fn copy_rank_loop(
    alloc: Alloc,
    body: &List<Stmt>,
    test: &Expr,
    rank: &Expr,
    inv: &Expr,
) -> Result<Stmt, Memory>
    ensures { IfOk result (λ copy. copy ≡ (RankLoop test.now rank.now inv.now body.now)) }
{
    let ((test, body), rank, inv) = three(
        copy_while(alloc, body, test),
        copy_expr(alloc, rank),
        copy_expr(alloc, inv),
    )?;
    Ok(Stmt::RankLoop(test, rank, inv, body))
}

/// An equal statement, with all that stand in it.
///
/// # Errors
///
/// For want of memory.
#[cycle(stmt)]
pub fn copy_stmt(alloc: Alloc, stmt: &Stmt) -> Result<Stmt, Memory>
    ensures { IfOk result (λ copy. copy ≡ stmt.now) }
{
    match stmt {
        Stmt::Assign(target, value) => {
            let (target, value) = copy_assignment(alloc, target, value)?;
            Ok(Stmt::Assign(target, value))
        }
        Stmt::Assert(fact) => {
            let fact = copy_expr(alloc, fact)?;
            Ok(Stmt::Assert(fact))
        }
        Stmt::If(test, first, second) => {
            let (test, first, second) = three(
                copy_expr(alloc, test),
                copy_stmts(alloc, first),
                copy_stmts(alloc, second),
            )?;
            Ok(Stmt::If(test, first, second))
        }
        Stmt::While(test, body) => {
            let (test, body) = copy_while(alloc, body, test)?;
            Ok(Stmt::While(test, body))
        }
        Stmt::YieldLoop(test, inv, body) => copy_yield_loop(alloc, body, test, inv),
        Stmt::RankLoop(test, rank, inv, body) => copy_rank_loop(alloc, body, test, rank, inv),
        Stmt::Call(callee, args, results) => copy_call(alloc, callee, args, results),
        Stmt::Yield(inv) => {
            let inv = copy_expr(alloc, inv)?;
            Ok(Stmt::Yield(inv))
        }
        Stmt::Commit => Ok(Stmt::Commit),
        Stmt::Intro(target, value) => {
            let (target, value) = copy_assignment(alloc, target, value)?;
            Ok(Stmt::Intro(target, value))
        }
        Stmt::Spawn(callee, args) => {
            let (callee, args) = copy_callee(alloc, callee, args)?;
            Ok(Stmt::Spawn(callee, args))
        }
    }
}

/// An equal list of statements.
///
/// # Errors
///
/// For want of memory.
#[cycle(stmt)]
pub fn copy_stmts(alloc: Alloc, stmts: &List<Stmt>) -> Result<List<Stmt>, Memory>
    ensures { IfOk result (λ copy. copy ≡ stmts.now) }
{
    let mut copies = Vec::new(alloc);
    for stmt in stmts.as_slice() {
        let copy = copy_stmt(alloc, stmt)?;
        copies.push(copy)?;
    }
    Ok(List::from_vec(copies))
}

impl TryClone for Param {
    fn try_clone(&self, alloc: Alloc) -> Result<Param, Memory> {
        let name = self.name.try_clone(alloc)?;
        Ok(Param {
            mode: self.mode,
            name,
            sort: self.sort,
        })
    }
}

impl TryClone for Choice {
    fn try_clone(&self, alloc: Alloc) -> Result<Choice, Memory> {
        let (name, offer) = both(self.name.try_clone(alloc), copy_expr(alloc, &self.offer))?;
        Ok(Choice {
            name,
            sort: self.sort,
            offer,
        })
    }
}

impl TryClone for Update {
    fn try_clone(&self, alloc: Alloc) -> Result<Update, Memory> {
        let (target, expr) = copy_assignment(alloc, &self.target, &self.expr)?;
        Ok(Update { target, expr })
    }
}

impl TryClone for Action {
    fn try_clone(&self, alloc: Alloc) -> Result<Action, Memory> {
        let (name, (params, outs, choices), (gate, guard, updates)) = three(
            self.name.try_clone(alloc),
            three(
                copy_list(alloc, &self.params),
                copy_list(alloc, &self.outs),
                copy_list(alloc, &self.choices),
            ),
            three(
                copy_expr(alloc, &self.gate),
                copy_expr(alloc, &self.guard),
                copy_list(alloc, &self.updates),
            ),
        )?;
        Ok(Action {
            name,
            params,
            outs,
            choices,
            first: self.first,
            last: self.last,
            mover: self.mover,
            gate,
            guard,
            updates,
        })
    }
}

impl TryClone for Refines {
    fn try_clone(&self, alloc: Alloc) -> Result<Refines, Memory> {
        let (action, with) = both(self.action.try_clone(alloc), copy_list(alloc, &self.with))?;
        Ok(Refines {
            action,
            with,
            layer: self.layer,
        })
    }
}

impl TryClone for Local {
    fn try_clone(&self, alloc: Alloc) -> Result<Local, Memory> {
        let name = self.name.try_clone(alloc)?;
        Ok(Local {
            linear: self.linear,
            name,
            sort: self.sort,
        })
    }
}

/// What a procedure refines, if it refines anything.
fn copy_refines(alloc: Alloc, refines: &Option<Refines>) -> Result<Option<Refines>, Memory>
    ensures { IfOk result (λ copy. copy ≡ refines.now) }
{
    match refines {
        None => Ok(None),
        Some(refines) => {
            let copy = refines.try_clone(alloc)?;
            Ok(Some(copy))
        }
    }
}

impl TryClone for Proc {
    fn try_clone(&self, alloc: Alloc) -> Result<Proc, Memory> {
        let ((name, params, outs), (refines, locals, body)) = both(
            three(
                self.name.try_clone(alloc),
                copy_list(alloc, &self.params),
                copy_list(alloc, &self.outs),
            ),
            three(
                copy_refines(alloc, &self.refines),
                copy_list(alloc, &self.locals),
                copy_stmts(alloc, &self.body),
            ),
        )?;
        Ok(Proc {
            name,
            params,
            outs,
            refines,
            locals,
            body,
        })
    }
}

impl TryClone for Global {
    fn try_clone(&self, alloc: Alloc) -> Result<Global, Memory> {
        let name = self.name.try_clone(alloc)?;
        Ok(Global {
            linear: self.linear,
            name,
            sort: self.sort,
            first: self.first,
            last: self.last,
        })
    }
}

impl TryClone for Invariant {
    fn try_clone(&self, alloc: Alloc) -> Result<Invariant, Memory> {
        let expr = copy_expr(alloc, &self.expr)?;
        Ok(Invariant {
            step: self.step,
            expr,
        })
    }
}

impl TryClone for Thread {
    fn try_clone(&self, alloc: Alloc) -> Result<Thread, Memory> {
        let (callee, args) = copy_callee(alloc, &self.callee, &self.args)?;
        Ok(Thread { callee, args })
    }
}

/// An equal program.
///
/// # Errors
///
/// For want of memory.
pub fn copy_program(alloc: Alloc, program: &Program) -> Result<Program, Memory>
    ensures { IfOk result (λ copy. copy ≡ program.now) }
{
    let ((globals, init, invariants), (actions, procs, threads)) = both(
        three(
            copy_list(alloc, &program.globals),
            copy_expr(alloc, &program.init),
            copy_list(alloc, &program.invariants),
        ),
        three(
            copy_list(alloc, &program.actions),
            copy_list(alloc, &program.procs),
            copy_list(alloc, &program.threads),
        ),
    )?;
    Ok(Program {
        version: program.version,
        layers: program.layers,
        permissions: program.permissions,
        globals,
        init,
        invariants,
        actions,
        procs,
        threads,
    })
}

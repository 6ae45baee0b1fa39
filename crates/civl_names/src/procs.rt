// Unknown names (E11) in procedures.
ghost use Rattle.std.specs.Prelude.{◌≡◌, ◌<◌, ◌^◌, Some, IfOk, if◌then◌else◌};
ghost use Rattle.civl_tree.specs.Numbering.{no_statement, sizes_of};
ghost use Rattle.civl_tree.specs.rules.Names.{param_names};
ghost use Rattle.civl_tree.specs.rules.Rules.{statements_where, first_of};
ghost use Rattle.civl_names.specs.inner.NameSets.{names_in, set_of};
ghost use Rattle.civl_names.specs.inner.Strange.{declared_in, own_names, inner_names, inner_in, refines_strange, body_strange, note_strange, arguments_strange, results_strange, call_strange, stmt_strange, strange_rule};

use crate::known::{Own, Scope, all_known, any_strange};
use crate::name_set::NameSet;
use crate::named::{set_of, with_all};
use crate::unknown::Sets;
use crate::walks::{Finder, Test, first_in_body};
use civl_tree::{Expr, List, Memory, Name, Proc, Program, Refines, Stmt, both};
use std::alloc::Global;

/// The names in scope in a procedure: those of the program, and its parameters, outputs and locals.
#[derive(Clone, Copy)]
pub(crate) struct InProc<'s, 'p, 'n, 'm> {
    pub declared: Sets<'s, 'p>,
    pub own: &'n Own<'m>,
}

fn inner_names<'a>(alloc: Global, proc: &'a Proc) -> Result<NameSet<'a>, Memory>
    ensures { IfOk result (λ names. names_in names ≡ own_names proc.now) }
{
    let names = set_of(alloc, proc.params.as_slice())?;
    let names = with_all(names, proc.outs.as_slice())?;
    with_all(names, proc.locals.as_slice())
}

fn own_names<'a>(alloc: Global, proc: &'a Proc) -> Result<Own<'a>, Memory>
    ensures names { IfOk result (λ own. names_in own.names ≡ own_names proc.now) }
    ensures outs { IfOk result (λ own. names_in own.outs ≡ set_of (param_names proc.now.outs)) }
{
    let (names, outs) = both(
        inner_names(alloc, proc),
        set_of(alloc, proc.outs.as_slice()),
    )?;
    Ok(Own { names, outs })
}

/// Whether a name of an expression in a statement isn't in scope, where no global may stand.
fn body_unknown(names: &InProc, expr: &Expr) -> bool
    ensures { result ≡ body_strange (inner_in names.now) expr.now }
{
    !all_known(&Scope::Body(names.declared.globals, names.own), expr)
}

/// The same where globals may stand.
fn note_unknown(names: &InProc, expr: &Expr) -> bool
    ensures { result ≡ note_strange (inner_in names.now) expr.now }
{
    !all_known(&Scope::Note(names.declared.globals, names.own), expr)
}

fn arguments_unknown(names: &InProc, args: &List<Expr>) -> bool
    ensures { result ≡ arguments_strange (inner_in names.now) args.now }
{
    any_strange(
        &Scope::Body(names.declared.globals, names.own),
        args.as_slice(),
    )
}

fn results_unknown(names: &InProc, results: &[Name]) -> bool
    ensures { result ≡ results_strange (inner_in names.now) results.now }
{
    results.iter().any(|name| !names.own.names.has(name))
}

/// Whether the name of the action that is refined, or one in a value after `with`, isn't in scope.
fn refines_unknown(names: &InProc, refines: &Option<Refines>) -> bool
    ensures { result ≡ refines_strange (inner_in names.now) refines.now }
{
    match refines {
        Some(refines) => !names.declared.actions.has(&refines.action)
            || any_strange(
                &Scope::Note(names.declared.globals, names.own),
                refines.with.as_slice(),
            ),
        None => false,
    }
}

fn call_unknown(names: &InProc, callee: &Name) -> bool
    ensures { result ≡ call_strange (inner_in names.now) callee.now }
{
    !(names.declared.actions.has(callee) || names.declared.procs.has(callee))
}

impl<'s, 'p, 'n, 'm> Test for InProc<'s, 'p, 'n, 'm> {
    ghost breaks = { λ names stmt. stmt_strange (inner_in names) stmt };

    fn breaks(&self, stmt: &Stmt) -> bool {
        match stmt {
            Stmt::Assign(target, value) => !self.own.names.has(target) || body_unknown(self, value),
            Stmt::Assert(fact) => body_unknown(self, fact),
            Stmt::If(test, _, _) => body_unknown(self, test),
            Stmt::While(test, _) => body_unknown(self, test),
            Stmt::YieldLoop(test, inv, _) => body_unknown(self, test) || note_unknown(self, inv),
            Stmt::RankLoop(test, rank, inv, _) => {
                body_unknown(self, test) || note_unknown(self, rank) || note_unknown(self, inv)
            }
            Stmt::Call(callee, args, results) => {
                call_unknown(self, callee)
                    || results_unknown(self, results.as_slice())
                    || arguments_unknown(self, args)
            }
            Stmt::Yield(inv) => note_unknown(self, inv),
            Stmt::Commit => false,
            Stmt::Intro(target, value) => {
                !self.declared.globals.has(target) || note_unknown(self, value)
            }
            Stmt::Spawn(callee, args) => {
                !self.declared.procs.has(callee) || arguments_unknown(self, args)
            }
        }
    }
}

/// The number of the first statement with a name that isn't in scope; 0 where the refinement has one.
fn first_in_proc(names: &InProc, proc: &Proc) -> Option<u32>
    requires { sizes_of proc.now.body < 2 ^ 32 }
    ensures { result ≡ (if refines_strange (inner_in names.now) proc.now.refines then Some no_statement else first_of (statements_where (stmt_strange (inner_in names.now)) proc.now)) }
{
    if refines_unknown(names, &proc.refines) {
        return Some(0);
    }
    first_in_body(names, &proc.body)
}

impl<'s, 'p> Finder for Sets<'s, 'p> {
    ghost rule = { λ sets. strange_rule (declared_in sets) };

    fn code(&self) -> u32 {
        11
    }

    fn find(
        &self,
        alloc: Global,
        _program: &Program,
        _place: usize,
        proc: &Proc,
    ) -> Result<Option<u32>, Memory> {
        let own = own_names(alloc, proc)?;
        let names = InProc {
            declared: *self,
            own: &own,
        };
        Ok(first_in_proc(&names, proc))
    }
}

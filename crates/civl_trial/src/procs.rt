// The procedures of a copy.
ghost use Rattle.std.specs.Prelude.{◌≡◌, List as ListOf, [], ◌∷◌, ◌++◌, IfOk, Option, Some, codes, decimal};
ghost use Rattle.civl_tree.specs.declared.name.Name.{Name as OfName};
ghost use Rattle.civl_tree.specs.declared.action.Param.{Param as OfParam};
ghost use Rattle.civl_tree.specs.declared.expr.One.TheVariants.{Not};
ghost use Rattle.civl_tree.specs.declared.expr.Expr.{Expr as OfExpr, One as OfOne, Literal, Done};
ghost use Rattle.civl_tree.specs.declared.stmt.Stmt.{Stmt as OfStmt, Call, Commit, If, Intro, YieldLoop};
ghost use Rattle.civl_tree.specs.declared.program.Local.{Local as OfLocal};
ghost use Rattle.civl_tree.specs.declared.program.Refines.{Refines as OfRefines};
ghost use Rattle.civl_trial.specs.Phrases.{Makes, named, of_copy, local, equal, sum_of};
ghost use Rattle.civl_trial.specs.Copies.{tries_once, acquire, release, read, write, incr};

use crate::actions::{lent_thread, plain_value, thread_and_value};
use crate::phrases::{
    Heading, followed, headed, local, named, not, of_copy, one, pair, together, two, var,
};
use civl_tree::{Expr, List, Local, Memory, Name, Proc, Refines, Sort, Stmt, Two};
use std::alloc::Global as Alloc;

/// `refines action with () layer n`, for an action of the copy.
fn refines(alloc: Alloc, action: &[u8], copy: u32, layer: u32) -> Result<Option<Refines>, Memory>
    ensures { IfOk result (λ it. it ≡ Some (record { action = record { bytes = action.now ++ codes "_" ++ decimal copy }; with = []; layer = layer })) }
{
    let action = of_copy(alloc, action, copy)?;
    Ok(Some(Refines {
        action,
        with: List::new(alloc),
        layer,
    }))
}

/// `proc name(params) -> (outs) refines { locals body }`
pub fn proc(
    heading: Result<Heading, Memory>,
    refines: Result<Option<Refines>, Memory>,
    locals: Result<List<Local>, Memory>,
    body: Result<List<Stmt>, Memory>,
) -> Result<Proc, Memory>
    ensures { (n : OfName) (p : ListOf OfParam) (o : ListOf OfParam) (r : Option OfRefines) (l : ListOf OfLocal) (b : ListOf OfStmt) → Makes heading (record { name = n; params = p; outs = o }) → Makes refines r → Makes locals l → Makes body b → Makes result (record { name = n; params = p; outs = o; refines = r; locals = l; body = b }) }
{
    let parts = together(together(heading, refines), together(locals, body))?;
    let ((heading, refines), (locals, body)) = parts;
    let Heading { name, params, outs } = heading;
    Ok(Proc {
        name,
        params,
        outs,
        refines,
        locals,
        body,
    })
}

/// `call callee(args) -> (results);`, of an action or a procedure of the copy.
fn call(
    alloc: Alloc,
    callee: &[u8],
    copy: u32,
    args: Result<List<Expr>, Memory>,
    results: Result<List<Name>, Memory>,
) -> Result<Stmt, Memory>
    ensures { (a : ListOf OfExpr) (r : ListOf OfName) → Makes args a → Makes results r → Makes result (Call (record { bytes = callee.now ++ codes "_" ++ decimal copy }) a r) }
{
    let parts = together(of_copy(alloc, callee, copy), together(args, results))?;
    let (callee, (args, results)) = parts;
    Ok(Stmt::Call(callee, args, results))
}

/// `call callee(t) -> ();`
pub fn call_for_thread(alloc: Alloc, callee: &[u8], copy: u32) -> Result<Stmt, Memory>
    ensures { IfOk result (λ it. it ≡ Call (record { bytes = callee.now ++ codes "_" ++ decimal copy }) (local "t" ∷ []) []) }
{
    let args = one(alloc, local(alloc, b"t"));
    call(alloc, callee, copy, args, Ok(List::new(alloc)))
}

/// `intro target := value;`
fn intro(target: Result<Name, Memory>, value: Result<Expr, Memory>) -> Result<Stmt, Memory>
    ensures { (a : OfName) (b : OfExpr) → Makes target a → Makes value b → Makes result (Intro a b) }
{
    let parts = together(target, value)?;
    Ok(Stmt::Intro(parts.0, parts.1))
}

// ---- Acquire

/// `{ commit; intro lock := t; }`
fn takes_over(alloc: Alloc, copy: u32) -> Result<List<Stmt>, Memory>
    ensures { IfOk result (λ it. it ≡ Commit ∷ Intro (of_copy "lock" copy) (local "t") ∷ []) }
{
    let intro = intro(of_copy(alloc, b"lock", copy), local(alloc, b"t"));
    pair(alloc, Ok(Stmt::Commit), intro)
}

/// `call Cas() -> (ok);`
fn calls_cas(alloc: Alloc, copy: u32) -> Result<Stmt, Memory>
    ensures { IfOk result (λ it. it ≡ Call (of_copy "Cas" copy) [] (named "ok" ∷ [])) }
{
    let results = one(alloc, named(alloc, b"ok"));
    call(alloc, b"Cas", copy, Ok(List::new(alloc)), results)
}

/// `if test { body } else { }`
fn when(
    alloc: Alloc,
    test: Result<Expr, Memory>,
    body: Result<List<Stmt>, Memory>,
) -> Result<Stmt, Memory>
    ensures { (a : OfExpr) (b : ListOf OfStmt) → Makes test a → Makes body b → Makes result (If a b []) }
{
    let parts = together(test, body)?;
    Ok(Stmt::If(parts.0, parts.1, List::new(alloc)))
}

/// `{ call Cas() -> (ok); if ok { commit; intro lock := t; } else { } }`
fn tries_once(alloc: Alloc, copy: u32) -> Result<List<Stmt>, Memory>
    ensures { IfOk result (λ it. it ≡ tries_once copy) }
{
    let taken = when(alloc, local(alloc, b"ok"), takes_over(alloc, copy));
    pair(alloc, calls_cas(alloc, copy), taken)
}

/// `while yield test inv inv { body }`
fn yield_loop(
    test: Result<Expr, Memory>,
    inv: Result<Expr, Memory>,
    body: Result<List<Stmt>, Memory>,
) -> Result<Stmt, Memory>
    ensures { (a : OfExpr) (i : OfExpr) (b : ListOf OfStmt) → Makes test a → Makes inv i → Makes body b → Makes result (YieldLoop a i b) }
{
    let parts = together(together(test, inv), body)?;
    let ((test, inv), body) = parts;
    Ok(Stmt::YieldLoop(test, inv, body))
}

/// `while yield (!ok) inv (ok == done) { .. }`
fn tries(alloc: Alloc, copy: u32) -> Result<Stmt, Memory>
    ensures { IfOk result (λ it. it ≡ YieldLoop (OfOne Not (local "ok")) (equal (local "ok") Done) (tries_once copy)) }
{
    let test = not(alloc, local(alloc, b"ok"));
    let inv = two(alloc, Two::Eq, local(alloc, b"ok"), Ok(Expr::Done));
    yield_loop(test, inv, tries_once(alloc, copy))
}

/// `proc Acquire(lend t : word(2)) -> () refines AtomAcquire with () layer 1 { var ok : bool; while yield (!ok) inv (ok == done) { .. } }`
pub fn acquire(alloc: Alloc, copy: u32) -> Result<Proc, Memory>
    ensures { IfOk result (λ it. it ≡ acquire copy) }
{
    let name = of_copy(alloc, b"Acquire", copy);
    let heading = headed(name, lent_thread(alloc), Ok(List::new(alloc)));
    let locals = one(alloc, var(alloc, b"ok", Sort::Bool));
    let body = one(alloc, tries(alloc, copy));
    proc(
        heading,
        refines(alloc, b"AtomAcquire", copy, 1),
        locals,
        body,
    )
}

// ---- Release, Read and Write

/// `{ call Reset() -> (); commit; intro lock := 0:2; }`
fn gives_up(alloc: Alloc, copy: u32) -> Result<List<Stmt>, Memory>
    ensures { IfOk result (λ it. it ≡ (release copy).body) }
{
    let resets = call(
        alloc,
        b"Reset",
        copy,
        Ok(List::new(alloc)),
        Ok(List::new(alloc)),
    );
    let freed = intro(of_copy(alloc, b"lock", copy), Ok(Expr::Literal(0, 2)));
    followed(pair(alloc, resets, Ok(Stmt::Commit)), freed)
}

/// `proc Release(lend t : word(2)) -> () refines AtomRelease with () layer 1 { call Reset() -> (); commit; intro lock := 0:2; }`
pub fn release(alloc: Alloc, copy: u32) -> Result<Proc, Memory>
    ensures { IfOk result (λ it. it ≡ release copy) }
{
    let name = of_copy(alloc, b"Release", copy);
    let heading = headed(name, lent_thread(alloc), Ok(List::new(alloc)));
    let refines = refines(alloc, b"AtomRelease", copy, 1);
    proc(
        heading,
        refines,
        Ok(List::new(alloc)),
        gives_up(alloc, copy),
    )
}

/// `{ call Load() -> (v); commit; }`
fn loads(alloc: Alloc, copy: u32) -> Result<List<Stmt>, Memory>
    ensures { IfOk result (λ it. it ≡ (read copy).body) }
{
    let results = one(alloc, named(alloc, b"v"));
    let loads = call(alloc, b"Load", copy, Ok(List::new(alloc)), results);
    pair(alloc, loads, Ok(Stmt::Commit))
}

/// `proc Read(lend t : word(2)) -> (val v : word(8)) refines AtomRead with () layer 1 { call Load() -> (v); commit; }`
pub fn read(alloc: Alloc, copy: u32) -> Result<Proc, Memory>
    ensures { IfOk result (λ it. it ≡ read copy) }
{
    let name = of_copy(alloc, b"Read", copy);
    let heading = headed(name, lent_thread(alloc), plain_value(alloc));
    let refines = refines(alloc, b"AtomRead", copy, 1);
    proc(heading, refines, Ok(List::new(alloc)), loads(alloc, copy))
}

/// `{ call Store(v) -> (); commit; }`
fn stores(alloc: Alloc, copy: u32) -> Result<List<Stmt>, Memory>
    ensures { IfOk result (λ it. it ≡ (write copy).body) }
{
    let args = one(alloc, local(alloc, b"v"));
    let stores = call(alloc, b"Store", copy, args, Ok(List::new(alloc)));
    pair(alloc, stores, Ok(Stmt::Commit))
}

/// `proc Write(lend t : word(2), val v : word(8)) -> () refines AtomWrite with () layer 1 { call Store(v) -> (); commit; }`
pub fn write(alloc: Alloc, copy: u32) -> Result<Proc, Memory>
    ensures { IfOk result (λ it. it ≡ write copy) }
{
    let name = of_copy(alloc, b"Write", copy);
    let heading = headed(name, thread_and_value(alloc), Ok(List::new(alloc)));
    let refines = refines(alloc, b"AtomWrite", copy, 1);
    proc(heading, refines, Ok(List::new(alloc)), stores(alloc, copy))
}

// ---- Incr

/// `call Read(t) -> (v);`
fn reads(alloc: Alloc, copy: u32) -> Result<Stmt, Memory>
    ensures { IfOk result (λ it. it ≡ Call (of_copy "Read" copy) (local "t" ∷ []) (named "v" ∷ [])) }
{
    let args = one(alloc, local(alloc, b"t"));
    let results = one(alloc, named(alloc, b"v"));
    call(alloc, b"Read", copy, args, results)
}

/// `call Write(t, (v + 1:8)) -> ();`
fn writes(alloc: Alloc, copy: u32) -> Result<Stmt, Memory>
    ensures { IfOk result (λ it. it ≡ Call (of_copy "Write" copy) (local "t" ∷ sum_of (local "v") (Literal 1 8) ∷ []) []) }
{
    let v = local(alloc, b"v");
    let more = two(alloc, Two::Add, v, Ok(Expr::Literal(1, 8)));
    let args = pair(alloc, local(alloc, b"t"), more);
    call(alloc, b"Write", copy, args, Ok(List::new(alloc)))
}

/// `{ call Acquire(t) -> (); call Read(t) -> (v); call Write(t, (v + 1:8)) -> (); call Release(t) -> (); commit; }`
fn increments(alloc: Alloc, copy: u32) -> Result<List<Stmt>, Memory>
    ensures { IfOk result (λ it. it ≡ (incr copy).body) }
{
    let acquires = call_for_thread(alloc, b"Acquire", copy);
    let opened = pair(alloc, acquires, reads(alloc, copy));
    let written = followed(opened, writes(alloc, copy));
    let closed = followed(written, call_for_thread(alloc, b"Release", copy));
    followed(closed, Ok(Stmt::Commit))
}

/// `proc Incr(lend t : word(2)) -> () refines AtomIncr with () layer 2 { var v : word(8); .. }`
pub fn incr(alloc: Alloc, copy: u32) -> Result<Proc, Memory>
    ensures { IfOk result (λ it. it ≡ incr copy) }
{
    let name = of_copy(alloc, b"Incr", copy);
    let heading = headed(name, lent_thread(alloc), Ok(List::new(alloc)));
    let locals = one(alloc, var(alloc, b"v", Sort::Word(8)));
    let body = increments(alloc, copy);
    proc(heading, refines(alloc, b"AtomIncr", copy, 2), locals, body)
}

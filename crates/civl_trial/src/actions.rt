// The actions of a copy.
ghost use Rattle.std.specs.Prelude.{◌≡◌, [], ◌∷◌, IfOk, List as ListOf};
ghost use Rattle.civl_tree.specs.declared.name.Name.{Name as OfName};
ghost use Rattle.civl_tree.specs.declared.action.Mover.TheVariants.{Atomic};
ghost use Rattle.civl_tree.specs.declared.action.Param.{Param as OfParam};
ghost use Rattle.civl_tree.specs.declared.action.Update.{Update as OfUpdate};
ghost use Rattle.civl_tree.specs.declared.expr.Sort.TheVariants.{Word};
ghost use Rattle.civl_tree.specs.declared.expr.Expr.{Expr as OfExpr, True, Literal};
ghost use Rattle.civl_trial.specs.Phrases.{Makes, named, of_copy, local, global, val, lend, becomes, sum_of};
ghost use Rattle.civl_trial.specs.Copies.{is_thread, is_holder, cas, reset, load, store, atom_acquire, atom_release, atom_read, atom_write, atom_incr};

use crate::globals::lock_is_free;
use crate::phrases::{
    Heading, global, headed, lend, local, named, not, of_copy, one, pair, together, two, val,
};
use civl_tree::{Action, Expr, List, Memory, Mover, Name, Param, Sort, Two, Update};
use std::alloc::Global as Alloc;

// ---- what several actions have

/// `(lend t : word(2))`
pub fn lent_thread(alloc: Alloc) -> Result<List<Param>, Memory>
    ensures { IfOk result (λ it. it ≡ lend "t" (Word 2) ∷ []) }
{
    one(alloc, lend(alloc, b"t", Sort::Word(2)))
}

/// `(val v : word(8))`
pub fn plain_value(alloc: Alloc) -> Result<List<Param>, Memory>
    ensures { IfOk result (λ it. it ≡ val "v" (Word 8) ∷ []) }
{
    one(alloc, val(alloc, b"v", Sort::Word(8)))
}

/// `(lend t : word(2), val v : word(8))`
pub fn thread_and_value(alloc: Alloc) -> Result<List<Param>, Memory>
    ensures { IfOk result (λ it. it ≡ lend "t" (Word 2) ∷ val "v" (Word 8) ∷ []) }
{
    let thread = lend(alloc, b"t", Sort::Word(2));
    let value = val(alloc, b"v", Sort::Word(8));
    pair(alloc, thread, value)
}

/// `target := value;`
fn update(target: Result<Name, Memory>, value: Result<Expr, Memory>) -> Result<Update, Memory>
    ensures { (a : OfName) (b : OfExpr) → Makes target a → Makes value b → Makes result (becomes a b) }
{
    let parts = together(target, value)?;
    Ok(Update {
        target: parts.0,
        expr: parts.1,
    })
}

/// `{ v := x; }`
fn reads_counter(alloc: Alloc, copy: u32) -> Result<List<Update>, Memory>
    ensures { IfOk result (λ it. it ≡ becomes (named "v") (global "x" copy) ∷ []) }
{
    one(alloc, update(named(alloc, b"v"), global(alloc, b"x", copy)))
}

/// `{ x := v; }`
fn writes_counter(alloc: Alloc, copy: u32) -> Result<List<Update>, Memory>
    ensures { IfOk result (λ it. it ≡ becomes (of_copy "x" copy) (local "v") ∷ []) }
{
    one(
        alloc,
        update(of_copy(alloc, b"x", copy), local(alloc, b"v")),
    )
}

/// `(t != 0:2)`
fn is_thread(alloc: Alloc) -> Result<Expr, Memory>
    ensures { IfOk result (λ it. it ≡ is_thread) }
{
    two(alloc, Two::Ne, local(alloc, b"t"), Ok(Expr::Literal(0, 2)))
}

/// `((t != 0:2) && (lock == t))`
fn is_holder(alloc: Alloc, copy: u32) -> Result<Expr, Memory>
    ensures { IfOk result (λ it. it ≡ is_holder copy) }
{
    let lock = global(alloc, b"lock", copy);
    let held = two(alloc, Two::Eq, lock, local(alloc, b"t"));
    two(alloc, Two::And, is_thread(alloc), held)
}

/// `action name(params) -> (outs) choose () layers layer to layer mover gate gate guard guard { updates }`
fn action(
    alloc: Alloc,
    layer: u32,
    mover: Mover,
    heading: Result<Heading, Memory>,
    gate: Result<Expr, Memory>,
    guard: Result<Expr, Memory>,
    updates: Result<List<Update>, Memory>,
) -> Result<Action, Memory>
    ensures { (n : OfName) (p : ListOf OfParam) (o : ListOf OfParam) (g : OfExpr) (w : OfExpr) (u : ListOf OfUpdate) → Makes heading (record { name = n; params = p; outs = o }) → Makes gate g → Makes guard w → Makes updates u → Makes result (record { name = n; params = p; outs = o; choices = []; first = layer; last = layer; mover = mover; gate = g; guard = w; updates = u }) }
{
    let parts = together(together(heading, updates), together(gate, guard))?;
    let ((heading, updates), (gate, guard)) = parts;
    let Heading { name, params, outs } = heading;
    Ok(Action {
        name,
        params,
        outs,
        choices: List::new(alloc),
        first: layer,
        last: layer,
        mover,
        gate,
        guard,
        updates,
    })
}

// ---- layer 0

/// `{ b := true; ok := (!b); }`
fn raises_flag(alloc: Alloc, copy: u32) -> Result<List<Update>, Memory>
    ensures { IfOk result (λ it. it ≡ (cas copy).updates) }
{
    let raised = update(of_copy(alloc, b"b", copy), Ok(Expr::True));
    let clear = not(alloc, global(alloc, b"b", copy));
    let told = update(named(alloc, b"ok"), clear);
    pair(alloc, raised, told)
}

/// `(val ok : bool)`
fn success(alloc: Alloc) -> Result<List<Param>, Memory>
    ensures { IfOk result (λ it. it ≡ (cas 0).outs) }
{
    one(alloc, val(alloc, b"ok", Sort::Bool))
}

/// `name(params) -> (outs) choose () layers 0 to 0 atomic gate true guard true { updates }`
fn plain(
    alloc: Alloc,
    heading: Result<Heading, Memory>,
    updates: Result<List<Update>, Memory>,
) -> Result<Action, Memory>
    ensures { (n : OfName) (p : ListOf OfParam) (o : ListOf OfParam) (u : ListOf OfUpdate) → Makes heading (record { name = n; params = p; outs = o }) → Makes updates u → Makes result (record { name = n; params = p; outs = o; choices = []; first = 0; last = 0; mover = Atomic; gate = True; guard = True; updates = u }) }
{
    action(
        alloc,
        0,
        Mover::Atomic,
        heading,
        Ok(Expr::True),
        Ok(Expr::True),
        updates,
    )
}

/// `action Cas() -> (val ok : bool) choose () layers 0 to 0 atomic gate true guard true { b := true; ok := (!b); }`
pub fn cas(alloc: Alloc, copy: u32) -> Result<Action, Memory>
    ensures { IfOk result (λ it. it ≡ cas copy) }
{
    let name = of_copy(alloc, b"Cas", copy);
    let heading = headed(name, Ok(List::new(alloc)), success(alloc));
    plain(alloc, heading, raises_flag(alloc, copy))
}

/// `{ b := false; }`
fn lowers_flag(alloc: Alloc, copy: u32) -> Result<List<Update>, Memory>
    ensures { IfOk result (λ it. it ≡ (reset copy).updates) }
{
    one(alloc, update(of_copy(alloc, b"b", copy), Ok(Expr::False)))
}

/// `action Reset() -> () choose () layers 0 to 0 atomic gate true guard true { b := false; }`
pub fn reset(alloc: Alloc, copy: u32) -> Result<Action, Memory>
    ensures { IfOk result (λ it. it ≡ reset copy) }
{
    let name = of_copy(alloc, b"Reset", copy);
    let heading = headed(name, Ok(List::new(alloc)), Ok(List::new(alloc)));
    plain(alloc, heading, lowers_flag(alloc, copy))
}

/// `action Load() -> (val v : word(8)) choose () layers 0 to 0 atomic gate true guard true { v := x; }`
pub fn load(alloc: Alloc, copy: u32) -> Result<Action, Memory>
    ensures { IfOk result (λ it. it ≡ load copy) }
{
    let name = of_copy(alloc, b"Load", copy);
    let heading = headed(name, Ok(List::new(alloc)), plain_value(alloc));
    plain(alloc, heading, reads_counter(alloc, copy))
}

/// `action Store(val v : word(8)) -> () choose () layers 0 to 0 atomic gate true guard true { x := v; }`
pub fn store(alloc: Alloc, copy: u32) -> Result<Action, Memory>
    ensures { IfOk result (λ it. it ≡ store copy) }
{
    let name = of_copy(alloc, b"Store", copy);
    let heading = headed(name, plain_value(alloc), Ok(List::new(alloc)));
    plain(alloc, heading, writes_counter(alloc, copy))
}

// ---- layer 1

/// `{ lock := t; }`
fn takes_lock(alloc: Alloc, copy: u32) -> Result<List<Update>, Memory>
    ensures { IfOk result (λ it. it ≡ becomes (of_copy "lock" copy) (local "t") ∷ []) }
{
    let lock = of_copy(alloc, b"lock", copy);
    one(alloc, update(lock, local(alloc, b"t")))
}

/// `{ lock := 0:2; }`
fn frees_lock(alloc: Alloc, copy: u32) -> Result<List<Update>, Memory>
    ensures { IfOk result (λ it. it ≡ becomes (of_copy "lock" copy) (Literal 0 2) ∷ []) }
{
    let lock = of_copy(alloc, b"lock", copy);
    one(alloc, update(lock, Ok(Expr::Literal(0, 2))))
}

/// `action AtomAcquire(lend t : word(2)) -> () choose () layers 1 to 1 right gate (t != 0:2) guard (lock == 0:2) { lock := t; }`
pub fn atom_acquire(alloc: Alloc, copy: u32) -> Result<Action, Memory>
    ensures { IfOk result (λ it. it ≡ atom_acquire copy) }
{
    let name = of_copy(alloc, b"AtomAcquire", copy);
    let heading = headed(name, lent_thread(alloc), Ok(List::new(alloc)));
    let updates = takes_lock(alloc, copy);
    action(
        alloc,
        1,
        Mover::Right,
        heading,
        is_thread(alloc),
        lock_is_free(alloc, copy),
        updates,
    )
}

/// `action AtomRelease(lend t : word(2)) -> () choose () layers 1 to 1 left gate ((t != 0:2) && (lock == t)) guard true { lock := 0:2; }`
pub fn atom_release(alloc: Alloc, copy: u32) -> Result<Action, Memory>
    ensures { IfOk result (λ it. it ≡ atom_release copy) }
{
    let name = of_copy(alloc, b"AtomRelease", copy);
    let heading = headed(name, lent_thread(alloc), Ok(List::new(alloc)));
    let updates = frees_lock(alloc, copy);
    action(
        alloc,
        1,
        Mover::Left,
        heading,
        is_holder(alloc, copy),
        Ok(Expr::True),
        updates,
    )
}

/// `action AtomRead(lend t : word(2)) -> (val v : word(8)) choose () layers 1 to 1 both gate ((t != 0:2) && (lock == t)) guard true { v := x; }`
pub fn atom_read(alloc: Alloc, copy: u32) -> Result<Action, Memory>
    ensures { IfOk result (λ it. it ≡ atom_read copy) }
{
    let name = of_copy(alloc, b"AtomRead", copy);
    let heading = headed(name, lent_thread(alloc), plain_value(alloc));
    let updates = reads_counter(alloc, copy);
    action(
        alloc,
        1,
        Mover::Both,
        heading,
        is_holder(alloc, copy),
        Ok(Expr::True),
        updates,
    )
}

/// `action AtomWrite(lend t : word(2), val v : word(8)) -> () choose () layers 1 to 1 both gate ((t != 0:2) && (lock == t)) guard true { x := v; }`
pub fn atom_write(alloc: Alloc, copy: u32) -> Result<Action, Memory>
    ensures { IfOk result (λ it. it ≡ atom_write copy) }
{
    let name = of_copy(alloc, b"AtomWrite", copy);
    let heading = headed(name, thread_and_value(alloc), Ok(List::new(alloc)));
    let updates = writes_counter(alloc, copy);
    action(
        alloc,
        1,
        Mover::Both,
        heading,
        is_holder(alloc, copy),
        Ok(Expr::True),
        updates,
    )
}

// ---- layer 2

/// `{ x := (x + 1:8); }`
fn counts_one(alloc: Alloc, copy: u32) -> Result<List<Update>, Memory>
    ensures { IfOk result (λ it. it ≡ becomes (of_copy "x" copy) (sum_of (global "x" copy) (Literal 1 8)) ∷ []) }
{
    let x = global(alloc, b"x", copy);
    let more = two(alloc, Two::Add, x, Ok(Expr::Literal(1, 8)));
    one(alloc, update(of_copy(alloc, b"x", copy), more))
}

/// `action AtomIncr(lend t : word(2)) -> () choose () layers 2 to 2 atomic gate (t != 0:2) guard true { x := (x + 1:8); }`
pub fn atom_incr(alloc: Alloc, copy: u32) -> Result<Action, Memory>
    ensures { IfOk result (λ it. it ≡ atom_incr copy) }
{
    let name = of_copy(alloc, b"AtomIncr", copy);
    let heading = headed(name, lent_thread(alloc), Ok(List::new(alloc)));
    let updates = counts_one(alloc, copy);
    action(
        alloc,
        2,
        Mover::Atomic,
        heading,
        is_thread(alloc),
        Ok(Expr::True),
        updates,
    )
}

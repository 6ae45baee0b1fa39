// The globals of a copy, their first values, and what joins them.
ghost use Rattle.std.specs.Prelude.{◌≡◌, IfOk};
ghost use Rattle.civl_trial.specs.Copies.{flag, lock, counter, lock_is_free, counts_nothing, starts, flag_is_lock};

use crate::phrases::{global, not, of_copy, two};
use civl_tree::{Expr, Global, Invariant, Memory, Sort, Two};
use std::alloc::Global as Alloc;

/// `global b : bool layers 0 to 0 ;`
pub fn flag(alloc: Alloc, copy: u32) -> Result<Global, Memory>
    ensures { IfOk result (λ it. it ≡ flag copy) }
{
    let name = of_copy(alloc, b"b", copy)?;
    Ok(Global {
        linear: false,
        name,
        sort: Sort::Bool,
        first: 0,
        last: 0,
    })
}

/// `global lock : word(2) layers 1 to 1 ;`
pub fn lock(alloc: Alloc, copy: u32) -> Result<Global, Memory>
    ensures { IfOk result (λ it. it ≡ lock copy) }
{
    let name = of_copy(alloc, b"lock", copy)?;
    Ok(Global {
        linear: false,
        name,
        sort: Sort::Word(2),
        first: 1,
        last: 1,
    })
}

/// `global x : word(8) layers 0 to 2 ;`
pub fn counter(alloc: Alloc, copy: u32) -> Result<Global, Memory>
    ensures { IfOk result (λ it. it ≡ counter copy) }
{
    let name = of_copy(alloc, b"x", copy)?;
    Ok(Global {
        linear: false,
        name,
        sort: Sort::Word(8),
        first: 0,
        last: 2,
    })
}

/// `(lock == 0:2)`
pub fn lock_is_free(alloc: Alloc, copy: u32) -> Result<Expr, Memory>
    ensures { IfOk result (λ it. it ≡ lock_is_free copy) }
{
    let lock = global(alloc, b"lock", copy);
    two(alloc, Two::Eq, lock, Ok(Expr::Literal(0, 2)))
}

/// `(x == 0:8)`
fn counts_nothing(alloc: Alloc, copy: u32) -> Result<Expr, Memory>
    ensures { IfOk result (λ it. it ≡ counts_nothing copy) }
{
    let x = global(alloc, b"x", copy);
    two(alloc, Two::Eq, x, Ok(Expr::Literal(0, 8)))
}

/// `(((!b) && (lock == 0:2)) && (x == 0:8))`: what `init` asks of the copy.
pub fn starts(alloc: Alloc, copy: u32) -> Result<Expr, Memory>
    ensures { IfOk result (λ it. it ≡ starts copy) }
{
    let clear = not(alloc, global(alloc, b"b", copy));
    let both = two(alloc, Two::And, clear, lock_is_free(alloc, copy));
    two(alloc, Two::And, both, counts_nothing(alloc, copy))
}

/// `(b == (lock != 0:2))`
fn flag_tells(alloc: Alloc, copy: u32) -> Result<Expr, Memory>
    ensures { IfOk result (λ it. it ≡ (flag_is_lock copy).expr) }
{
    let lock = global(alloc, b"lock", copy);
    let held = two(alloc, Two::Ne, lock, Ok(Expr::Literal(0, 2)));
    two(alloc, Two::Eq, global(alloc, b"b", copy), held)
}

/// `invariant 1 (b == (lock != 0:2)) ;`
pub fn flag_is_lock(alloc: Alloc, copy: u32) -> Result<Invariant, Memory>
    ensures { IfOk result (λ it. it ≡ flag_is_lock copy) }
{
    let expr = flag_tells(alloc, copy)?;
    Ok(Invariant { step: 1, expr })
}

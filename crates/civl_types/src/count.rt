// Counts (E12) and the size of a store (E24). Sums are counted up to one past their limit.
ghost use Rattle.std.specs.Prelude.{◌≡◌, ◌+◌, ◌*◌, ◌^◌, ◌≤◌, ℕ, min, map, sum, length, nat_lt};
ghost use Rattle.civl_tree.specs.declared.stmt.Stmt.TheFolds.{fold-Stmt};
ghost use Rattle.civl_tree.specs.rules.Count.{name_limit, cut_limit, is_within, header_count, passes_limit, first_over, action_count, cut_step, cuts_in, cuts_of, cuts_before, proc_count};
ghost use Rattle.civl_tree.specs.rules.StoreSize.{bits_of, global_store_size};

use crate::exprs::power;
use civl_tree::{Action, Global, List, Proc, Program, Sort, Stmt};

const NAMES: usize = 32;

const CUTS: u32 = 256;

const BITS: u32 = 4096;

pub(crate) const GLOBALS: usize = 64;

pub(crate) const INVARIANTS: usize = 64;

pub(crate) const ACTIONS: usize = 128;

pub(crate) const PROCS: usize = 64;

pub(crate) const THREADS: usize = 64;

fn is_within(least: u32, most: u32, number: u32) -> bool
    ensures { result ≡ is_within least most number }
{
    least <= number && number <= most
}

/// Whether a number of the header is out of its range.
pub(crate) fn header_count(program: &Program) -> bool
    ensures { result ≡ header_count program.now }
{
    !is_within(1, 2, program.version)
        || !is_within(1, 8, program.layers)
        || !is_within(1, 5, program.permissions)
}

/// Whether the declaration at this place is the first past the limit.
pub(crate) fn passes_limit(limit: usize, place: usize) -> bool
    ensures { result ≡ passes_limit limit place }
{
    place == limit
}

/// Whether three lists have more names together than one declaration may have.
fn too_many(first: usize, second: usize, third: usize) -> bool
    ensures { result ≡ nat_lt name_limit (first + second + third) }
{
    first > NAMES || second > NAMES || third > NAMES || first + second + third > NAMES
}

/// Whether an action breaks E12.
pub(crate) fn action_count(place: usize, action: &Action) -> bool
    ensures { result ≡ action_count place action.now }
{
    passes_limit(ACTIONS, place)
        || too_many(action.params.len(), action.outs.len(), action.choices.len())
}

/// The sum of two numbers, or the most where it is more.
fn capped(most: u32, first: u32, second: u32) -> u32
    requires most { most ≤ 5000 }
    requires first { first ≤ most }
    requires second { second ≤ most }
    ensures { result ≡ min (first + second) most }
{
    if first + second < most {
        first + second
    } else {
        most
    }
}

/// Whether a sum is over its limit with the next summand, and isn't without it. Both numbers are counted up to one
/// past the limit.
fn first_over(limit: u32, before: u32, next: u32) -> bool
    requires limit { limit ≤ 5000 }
    requires before { before ≤ limit + 1 }
    requires next { next ≤ limit + 1 }
    ensures { result ≡ first_over limit before (before + next) }
{
    before <= limit && limit < before + next
}

#[cycle(cuts)]
fn cuts_at(stmt: &Stmt) -> u32
    ensures { result ≡ min (fold-Stmt ℕ cut_step stmt.now) 257 }
{
    match stmt {
        Stmt::If(_, first, second) => capped(CUTS + 1, cuts_in(first), cuts_in(second)),
        Stmt::While(_, body) => cuts_in(body),
        Stmt::YieldLoop(_, _, body) => capped(CUTS + 1, 1, cuts_in(body)),
        Stmt::RankLoop(_, _, _, body) => capped(CUTS + 1, 1, cuts_in(body)),
        Stmt::Yield(_) => 1,
        Stmt::Assign(_, _)
        | Stmt::Assert(_)
        | Stmt::Call(_, _, _)
        | Stmt::Commit
        | Stmt::Intro(_, _)
        | Stmt::Spawn(_, _) => 0,
    }
}

#[cycle(cuts)]
fn cuts_in(stmts: &List<Stmt>) -> u32
    ensures { result ≡ min (cuts_in stmts.now) 257 }
{
    let mut total = 0;
    for stmt in stmts.as_slice() {
        total = capped(CUTS + 1, total, cuts_at(stmt));
    }
    total
}

/// The cut points of a procedure, up to one past the limit.
fn cuts_of(proc: &Proc) -> u32
    ensures { result ≡ min (cuts_of proc.now) 257 }
{
    match &proc.refines {
        Some(_) => capped(CUTS + 1, 1, cuts_in(&proc.body)),
        None => 0,
    }
}

fn cuts_of_all(procs: &[Proc]) -> u32
    ensures { result ≡ min (sum (map cuts_of procs.now)) 257 }
{
    let mut total = 0;
    for proc in procs {
        total = capped(CUTS + 1, total, cuts_of(proc));
    }
    total
}

/// Whether a procedure breaks E12.
pub(crate) fn proc_count(program: &Program, place: usize, proc: &Proc) -> bool
    requires { place ≤ length program.now.procs }
    ensures { result ≡ proc_count program.now place proc.now }
{
    passes_limit(PROCS, place)
        || too_many(proc.params.len(), proc.outs.len(), proc.locals.len())
        || cuts_over(program, place, proc)
}

fn cuts_over(program: &Program, place: usize, proc: &Proc) -> bool
    requires { place ≤ length program.now.procs }
    ensures { result ≡ first_over cut_limit (cuts_before program.now place) (cuts_before program.now place + cuts_of proc.now) }
{
    let before = cuts_of_all(&program.procs.as_slice()[..place]);
    first_over(CUTS, before, cuts_of(proc))
}

/// The bits of a row, up to one past the limit.
#[tactic(auto, using(crate::proofs::Powers::rows))]
fn row_bits(index: u32, width: u32) -> u32
    ensures { result ≡ min (width * 2 ^ index) 4097 }
{
    if width == 0 {
        return 0;
    }
    if width > BITS {
        return BITS + 1;
    }
    if index > 12 {
        return BITS + 1;
    }
    let bits = u64::from(width) * power(index);
    if bits > 4096 { BITS + 1 } else { bits as u32 }
}

/// The bits of a sort, up to one past the limit.
fn bits_of(sort: Sort) -> u32
    ensures { result ≡ min (bits_of sort) 4097 }
{
    match sort {
        Sort::Bool => 1,
        Sort::Word(width) => { if width > BITS { BITS + 1 } else { width } }
        Sort::Row(index, width) => row_bits(index, width),
    }
}

fn bits_of_all(globals: &[Global]) -> u32
    ensures { result ≡ min (sum (map (λ global. bits_of global.sort) globals.now)) 4097 }
{
    let mut total = 0;
    for global in globals {
        total = capped(BITS + 1, total, bits_of(global.sort));
    }
    total
}

/// Whether a global breaks E24.
pub(crate) fn global_store_size(program: &Program, place: usize, global: &Global) -> bool
    requires { place ≤ length program.now.globals }
    ensures { result ≡ global_store_size program.now place global.now }
{
    let before = bits_of_all(&program.globals.as_slice()[..place]);
    first_over(BITS, before, bits_of(global.sort))
}

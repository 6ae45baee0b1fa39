// Configurations: what they hold, copies of them, and whether two are equal.
ghost use Rattle.std.specs.Prelude.{◌≡◌, ◌+◌, ◌<◌, ◌^◌, ◌↔◌, length, slice_get, IfOk, IfSome, IsTrue};
ghost use Rattle.civl_meaning.specs.Depth.{depth_of};

use crate::config::{Activation, Config, Running, State};
use crate::leaving::{copied, copied_frame};
use civl_bits::Value;
use civl_firing::Store;
use civl_tree::{List, Memory};
use std::alloc::Global;

/// The store of a configuration.
pub fn store(config: &Config) -> &Store
    ensures { result.now ≡ config.now.store }
{
    &config.store
}

/// The number of threads of a configuration, which is below 2 to the 32. It takes no memory.
pub fn threads(config: &Config) -> u32
    requires { length config.now.threads < 2 ^ 32 }
    ensures { result ≡ length config.now.threads }
{
    config.threads.len() as u32
}

/// The number of a thread's frames, of which the first is its call. It takes no memory. The thread exists.
pub fn depth(config: &Config, thread: u32) -> usize
    requires { thread < length config.now.threads }
    ensures { IfSome (slice_get config.now.threads thread) (λ t. result ≡ depth_of t) }
{
    match &config.threads.get(thread as usize).state {
        State::Before | State::After => 1,
        State::Inside(below, _) => frames_above(below.as_slice()) + 1,
    }
}

/// How many frames stand above a thread's first one, where these stand below the topmost.
fn frames_above(below: &[Activation]) -> usize
    ensures is { result ≡ length below.now + 1 }
    ensures few { result < 2 ^ 63 }
{
    below.len() + 1
}

/// A part of a configuration: it can be copied and compared.
pub trait Part: Drop {
    /// An equal value.
    fn copy_of(&self, alloc: Global) -> Result<Self, Memory>
        ensures { IfOk result (λ r. r ≡ self.now) };

    /// Whether two values are equal.
    fn is_same(&self, other: &Self) -> bool
        ensures { IsTrue result ↔ (self.now ≡ other.now) };
}

/// An equal list.
fn copy_all<T: Part>(alloc: Global, items: &[T]) -> Result<List<T>, Memory>
    ensures { IfOk result (λ r. r ≡ items.now) }
{
    let mut copies = Vec::new(alloc);
    for item in items {
        let copy = item.copy_of(alloc)?;
        copies.push(copy)?;
    }
    Ok(List::from_vec(copies))
}

/// Whether two lists are equal.
fn are_same<T: Part>(a: &[T], b: &[T]) -> bool
    ensures { IsTrue result ↔ (a.now ≡ b.now) }
{
    if a.len() != b.len() {
        return false;
    }
    for at in 0..a.len() {
        if !a[at].is_same(&b[at]) {
            return false;
        }
    }
    true
}

impl Part for Value {
    fn copy_of(&self, _alloc: Global) -> Result<Value, Memory> {
        Ok(*self)
    }

    fn is_same(&self, other: &Value) -> bool {
        self.same(other)
    }
}

impl Part for Activation {
    fn copy_of(&self, alloc: Global) -> Result<Activation, Memory> {
        copied_frame(alloc, self)
    }

    fn is_same(&self, other: &Activation) -> bool {
        self.procedure == other.procedure
            && self.place == other.place
            && are_same(self.locals.as_slice(), other.locals.as_slice())
    }
}

/// An equal state.
fn copy_state(alloc: Global, state: &State) -> Result<State, Memory>
    ensures { IfOk result (λ s. s ≡ state.now) }
{
    match state {
        State::Before => Ok(State::Before),
        State::After => Ok(State::After),
        State::Inside(below, top) => {
            let below = copy_all(alloc, below.as_slice())?;
            let top = copied_frame(alloc, top)?;
            Ok(State::Inside(below, top))
        }
    }
}

/// Whether two states are equal.
fn same_state(a: &State, b: &State) -> bool
    ensures { IsTrue result ↔ (a.now ≡ b.now) }
{
    match a {
        State::Before => match b {
            State::Before => true,
            State::Inside(_, _) | State::After => false,
        },
        State::After => match b {
            State::After => true,
            State::Inside(_, _) | State::Before => false,
        },
        State::Inside(below, top) => match b {
            State::Inside(other_below, other_top) => {
                top.is_same(other_top) && are_same(below.as_slice(), other_below.as_slice())
            }
            State::Before | State::After => false,
        },
    }
}

impl Part for Running {
    fn copy_of(&self, alloc: Global) -> Result<Running, Memory> {
        let args = copied(alloc, self.args.as_slice())?;
        let state = copy_state(alloc, &self.state)?;
        Ok(Running {
            callee: self.callee,
            args,
            state,
        })
    }

    fn is_same(&self, other: &Running) -> bool {
        self.callee == other.callee
            && are_same(self.args.as_slice(), other.args.as_slice())
            && same_state(&self.state, &other.state)
    }
}

/// An equal configuration.
///
/// # Errors
///
/// For want of memory.
pub fn copy_config(alloc: Global, config: &Config) -> Result<Config, Memory>
    ensures { IfOk result (λ copy. copy ≡ config.now) }
{
    let values = copied(alloc, config.store.values.as_slice())?;
    let threads = copy_all(alloc, config.threads.as_slice())?;
    Ok(Config {
        store: Store { values },
        threads,
    })
}

/// Whether two configurations are equal. It takes no memory.
pub fn same(a: &Config, b: &Config) -> bool
    ensures { IsTrue result ↔ (a.now ≡ b.now) }
{
    are_same(a.store.values.as_slice(), b.store.values.as_slice())
        && are_same(a.threads.as_slice(), b.threads.as_slice())
}

// Declarations, which have names.
ghost use Rattle.std.specs.Prelude.{◌≡◌, [], ◌++◌, map, true, false, IfOk, OnOk};
ghost use Rattle.std.specs.List.{list_any};
ghost use Rattle.civl_tree.specs.declared.name.Name.{Name};
ghost use Rattle.civl_tree.specs.rules.Names.{has_name, any_twice};
ghost use Rattle.civl_names.specs.inner.NameSets.{names_in, with_names, set_of, IsAdded};

use crate::name_set::NameSet;
use civl_tree::{Choice, Local, Memory, Name, Param, Update};
use std::alloc::Global;

/// What has a name.
pub(crate) trait Named {
    ghost name_of: { Self → Name };

    fn name(&self) -> &Name
        ensures { result.now ≡ name_of self.now };
}

impl Named for Name {
    ghost name_of = { λ name. name };

    fn name(&self) -> &Name {
        self
    }
}

impl Named for Param {
    ghost name_of = { λ param. param.name };

    fn name(&self) -> &Name {
        &self.name
    }
}

impl Named for Choice {
    ghost name_of = { λ choice. choice.name };

    fn name(&self) -> &Name {
        &self.name
    }
}

impl Named for Local {
    ghost name_of = { λ declared. declared.name };

    fn name(&self) -> &Name {
        &self.name
    }
}

impl Named for Update {
    ghost name_of = { λ update. update.target };

    fn name(&self) -> &Name {
        &self.target
    }
}

/// Whether the name of one of these is in the set.
pub(crate) fn any_in<T: Named>(set: &NameSet, items: &[T]) -> bool
    ensures { result ≡ list_any (has_name (names_in set.now)) (map T.name_of items.now) }
{
    for item in items {
        if set.has(item.name()) {
            return true;
        }
    }
    false
}

/// Adds the names of these to a set, up to the first that is there already. The answer is whether one was.
pub(crate) fn add_new<'a, T: Named>(set: &mut NameSet<'a>, items: &'a [T]) -> Result<bool, Memory>
    requires { any_twice (names_in set.old) ≡ false }
    ensures { IfOk result (λ twice. IsAdded twice (names_in set.old) (map T.name_of items.now) (names_in set.new)) }
{
    for item in items {
        if set.add(item.name())? {
            return Ok(true);
        }
    }
    Ok(false)
}

/// Adds the names of these to a set.
pub(crate) fn add_all<'a, T: Named>(set: &mut NameSet<'a>, items: &'a [T]) -> Result<(), Memory>
    ensures { OnOk result (names_in set.new ≡ with_names (names_in set.old) (map T.name_of items.now)) }
{
    for item in items {
        set.add(item.name())?;
    }
    Ok(())
}

/// The set with the names of these.
pub(crate) fn with_all<'a, T: Named>(
    set: NameSet<'a>,
    items: &'a [T],
) -> Result<NameSet<'a>, Memory>
    ensures { IfOk result (λ more. names_in more ≡ with_names (names_in set.entry) (map T.name_of items.now)) }
{
    let mut set = set;
    add_all(&mut set, items)?;
    Ok(set)
}

/// The set of the names of these.
pub(crate) fn set_of<'a, T: Named>(alloc: Global, items: &'a [T]) -> Result<NameSet<'a>, Memory>
    ensures { IfOk result (λ set. names_in set ≡ set_of (map T.name_of items.now)) }
{
    with_all(NameSet::new(alloc), items)
}

/// Whether two of these have one name.
pub(crate) fn any_twice<T: Named>(alloc: Global, items: &[T]) -> Result<bool, Memory>
    ensures { IfOk result (λ twice. twice ≡ any_twice (map T.name_of items.now)) }
{
    let mut set = NameSet::new(alloc);
    add_new(&mut set, items)
}

/// Adds the names of these and of those behind them to a set, up to the first that is there already. The answer is whether
/// one was.
#[tactic(auto, using(crate::proofs::Declaring::declaring))]
fn add_lists<'a, A: Named, B: Named, C: Named>(
    set: &mut NameSet<'a>,
    first: &'a [A],
    second: &'a [B],
    third: &'a [C],
) -> Result<bool, Memory>
    requires { names_in set.old ≡ [] }
    ensures { IfOk result (λ twice. twice ≡ any_twice (map A.name_of first.now ++ (map B.name_of second.now ++ map C.name_of third.now))) }
{
    if add_new(set, first)? {
        return Ok(true);
    }
    if add_new(set, second)? {
        return Ok(true);
    }
    add_new(set, third)
}

/// Whether two of all these have one name.
pub(crate) fn any_twice_in<A: Named, B: Named, C: Named>(
    alloc: Global,
    first: &[A],
    second: &[B],
    third: &[C],
) -> Result<bool, Memory>
    ensures { IfOk result (λ twice. twice ≡ any_twice (map A.name_of first.now ++ (map B.name_of second.now ++ map C.name_of third.now))) }
{
    let mut set = NameSet::new(alloc);
    add_lists(&mut set, first, second, third)
}

// The static rules.

/// A rule other than those on names: counts (E12), widths (E20), sorts (E21), indices (E22), numbers of arguments (E23), or
/// the size of a store (E24).
#[derive(Clone, Copy, Debug, PartialEq, Eq)]
pub(crate) enum TypingRule {
    Count,
    Width,
    Sorts,
    Index,
    Arity,
    StoreSize,
}

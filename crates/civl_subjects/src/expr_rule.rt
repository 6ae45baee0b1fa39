// The rules on names, widths, sorts and indices.

/// A rule that is asked of each expression: E11, E20, E21 or E22.
#[derive(Clone, Copy)]
pub(crate) enum ExprRule {
    Unknown,
    Width,
    Sorts,
    Index,
}

// The rules on layers.

/// A rule on layers: ranges (E30), hidden globals (E31), calls that don't go down (E32), actions that aren't there
/// (E33), signatures (E34), or introduced globals (E35).
#[derive(Clone, Copy, Debug, PartialEq, Eq)]
pub(crate) enum LayerRule {
    Range,
    Hidden,
    NotBelow,
    NotThere,
    Signature,
    Introduced,
}

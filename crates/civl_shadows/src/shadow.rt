// Shadows.

use civl_firing::Store;
use civl_meaning::Config;

/// What goes beside a run of a layer's program.
#[derive(Drop)]
pub struct Shadow {
    /// The values of the globals that the next layer introduces, as the intros have set them. Those of the others don't
    /// matter.
    pub store: Store,
    /// Of each thread whether its frame of a procedure of the next layer has passed a commit.
    pub done: Vec<bool>,
}

/// A configuration, and the shadow beside it.
#[derive(Drop)]
pub struct Shadowed {
    pub config: Config,
    pub shadow: Shadow,
}

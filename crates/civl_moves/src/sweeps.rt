//! Sweeps: one walk over all branches of a body at once, at values, and that it follows the path.

pub mod laws;

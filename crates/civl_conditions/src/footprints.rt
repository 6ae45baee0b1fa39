//! What an expression or an action doesn't name, it neither sees nor changes.

pub mod laws;

//! The laws. Each function computes nothing; its clauses are theorems.
pub mod examples;

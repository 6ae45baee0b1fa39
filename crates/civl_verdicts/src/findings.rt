//! Laws on what is found of the conditions of a program.

pub mod laws;

//! What the conditions on movers say of whole stores, and of neighbouring steps of a layer's program.
//!
//! A condition on two actions compares the globals of the first layer in which both exist. Neither action uses or changes
//! another global, so what holds of those holds of whole stores: two calls may be exchanged, to the same end (`Movers`). In a
//! configuration that is reached the calls of two threads are apart, so that the conditions speak of them; two steps of
//! them are exchanged where the first is a right mover or the second a left one (`Neighbours`). For the reduction of
//! civl_reduction::interleavings stand `are_movers` of proofs/Instance and `are_parted` of proofs/Configurations.

pub mod laws;

//! One instruction of an lwp: its fetch, its decoding, its faults, what watched areas say of it, and its effect.
#![tactic(auto)]

mod accesses;
mod decoding;
mod executing;
mod registers;
mod steps;

pub use steps::{Effect, step};

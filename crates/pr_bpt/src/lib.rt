//! truss(1) with calls of functions (`-u`) as a controller of the kernel. The breakpoints stand beside the stages of
//! truss, whose state is its own.
#![tactic(auto)]

mod fn_trusses;

pub use fn_trusses::FnTruss;

//! truss(1) as a controller of the kernel: a core that says which call it makes next, and is fed the reply.
#![tactic(auto)]

mod asides;
mod children;
mod closings;
mod counts;
mod feeding;
mod function_calls;
mod function_events;
mod function_feeding;
mod function_patches;
mod function_stops;
mod lines;
mod marks;
mod messages;
mod next_calls;
mod openings;
mod printing;
mod processes;
mod records;
mod replies;
mod reports;
mod stages;
mod stops;
mod texts;
mod trusses;

pub use trusses::Truss;

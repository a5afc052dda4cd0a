//! Tests of `serve`, with ends in memory and a gate that counts. They stand apart from what they test, which is so
//! proved once.
#![tactic(auto)]

#[cfg(test)]
mod calls;
#[cfg(test)]
mod each_end;
#[cfg(test)]
mod failures;
#[cfg(test)]
mod seen;
#[cfg(test)]
mod statuses;
#[cfg(test)]
mod threads;

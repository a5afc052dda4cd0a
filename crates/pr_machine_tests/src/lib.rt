//! Tests of handles, lines, steps, runs and scenarios. They stand apart from what they test, which is so proved once.
#![tactic(auto)]

#[cfg(test)]
mod handles;
#[cfg(test)]
mod lines;
#[cfg(test)]
mod runs;
#[cfg(test)]
mod scenarios;
#[cfg(test)]
mod untraced_steps;

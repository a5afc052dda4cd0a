//! Tests of words in bytes, tables, records, messages, programs and lines as text, and of sources and sinks.
//! They stand apart from what they test, which is so proved once.
#![tactic(auto)]

#[cfg(test)]
mod ends;
#[cfg(test)]
mod locks;
#[cfg(test)]
mod messages;
#[cfg(test)]
mod options;
#[cfg(test)]
mod programs;
#[cfg(test)]
mod records;
#[cfg(test)]
mod tables;
#[cfg(test)]
mod texts;
#[cfg(test)]
mod words;

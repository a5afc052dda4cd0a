//! Laws of file tables: what each call on files keeps of them. Each public function carries laws in its contract, and
//! does nothing.
#![tactic(auto)]

mod laws;

pub use laws::{pipes_have_open_ends, users_are_counted};

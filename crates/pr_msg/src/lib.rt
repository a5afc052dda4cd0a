//! Control messages as bytes, both ways (proc(4), "CONTROL MESSAGES").
#![tactic(auto)]

mod decoding;
mod encoding;
mod paddings;

pub use decoding::{decode_one, tail_length};
pub use encoding::encode;
pub use pr_num::{Message, MsgFault, RunFlags};

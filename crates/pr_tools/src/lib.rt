//! The proc tools (proc(1), pmap(1)) as controllers of the kernel: each says its next call and is fed the reply, and in
//! the end prints what it read.
#![tactic(auto)]

mod calls;
mod decoding;
mod descriptor_lines;
mod dispositions;
mod ends;
mod entries;
mod handles;
mod lwp_lines;
mod mapping_lines;
mod names;
mod process_lines;
mod record_texts;
mod refusals;
mod replies;
mod stack_lines;
mod stacks;
mod steps;
mod texts;
mod tools;

pub use calls::{ctl, poll, wait};
pub use handles::Opened;
pub use record_texts::{push_record, text_of_record};
pub use refusals::push_refusal;
pub use replies::bytes_read;
pub use stack_lines::{program_of, push_frame};
pub use stacks::{CallFrame, Walk, frame_in, is_frame, process_stands, walk_after, walk_in};
pub use steps::READ_FRAMES;
pub use texts::{end_line, push_header, push_label};
pub use tools::{Tool, instruction_in};

//! What Solaris process control means: the states of the system and of its tracing, the transitions between them,
//! histories, and the laws that show these definitions right.
#![tactic(auto)]

mod calls;
mod events;
mod file_words;
mod frames;
mod handles;
mod histories;
mod laws;
mod lwps;
mod order;
mod processes;
mod replies;
mod states;
mod steps;
mod stops;
mod tools;

pub use calls::{Call, File, Mode, Reply};
pub use events::{Act, Actor, Did, Entry, How, Res, Turned};
pub use file_words::{file_name, file_of_name, mode_name, mode_of_name};
pub use frames::{Frame, Frames};
pub use handles::Held;
pub use histories::History;
pub use laws::{file_names, history_grows_at_its_end, mode_names, trace_is_that_of_the_steps};
pub use lwps::{Current, Lwp, LwpControl, LwpOf, PC, Phase};
pub use order::is_after;
pub use processes::{Control, Process, ProcessOf, Usage};
pub use replies::{NO_HANDLE, bytes_in, handle_in, number_of, opened_in, until_in};
pub use states::{State, System};
pub use steps::{Step, Steps, Trace};
pub use stops::{Point, Shown, Stop};
pub use tools::{ToolKind, process_tool_of_name, tool_name};

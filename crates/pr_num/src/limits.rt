//! How much there can be of each thing. A number that limits is written here, and nowhere else in the code.

ghost use Rattle.std.specs.Prelude.{◌≡◌, [], ◌∷◌};
ghost use Rattle.pr_num.specs.Agents.{agent_id};
ghost use Rattle.pr_num.specs.Limits.{signal_count, standard_signal_count, fault_count, syscall_count, turn_limit, default_turns, clock_limit, controller_limit, worker_limit, child_limit, scenario_limit, line_limit, checked_limit, list_line_limit, program_limit, spawn_limit, schedule_limit, process_limit, lwp_limit, last_lwp, register_count, frame_limit, queue_limit, descriptor_limit, mapping_limit, all_mappings_limit, area_limit, code_limit, data_limit, instruction_size, text_limit, file_limit, pipe_limit, file_size_limit, pipe_size_limit, name_limit, path_limit, transfer_limit, handle_limit, read_limit, list_limit, message_bytes_limit, sleep_limit, wait_limit, shown_limit, asked_limit};

use crate::AGENT;

/// Signals, whose numbers count from 1 to this one.
pub const SIGNAL_COUNT: usize = 39;
/// Signals that are pending once at most: those of lower number. The others queue.
pub const STANDARD_SIGNAL_COUNT: usize = 31;
/// Faults, whose numbers count from 1.
pub const FAULT_COUNT: usize = 8;
/// System calls, whose numbers count from 1.
pub const SYSCALL_COUNT: usize = 31;

/// Turns of a run.
pub const TURN_LIMIT: u64 = 100_000;
/// Turns of a run whose scenario does not say how many.
pub const DEFAULT_TURNS: u32 = 10_000;
/// Milliseconds: the clock goes on below this moment, and not from it on.
pub const CLOCK_LIMIT: u64 = 1 << 62;
/// Controllers of a run.
pub const CONTROLLER_LIMIT: usize = 64;
/// Threads that work at a run.
pub const WORKER_LIMIT: u32 = 16;
/// Children that the program of a generated scenario makes.
pub const CHILD_LIMIT: u32 = 64;
/// Bytes of a scenario.
pub const SCENARIO_LIMIT: usize = 1_048_576;
/// Bytes of a line of a scenario.
pub const LINE_LIMIT: usize = 4_096;
/// Bytes of all that is given to a check of a history.
pub const CHECKED_LIMIT: usize = 268_435_456;
/// `list` lines of all scripts.
pub const LIST_LINE_LIMIT: u32 = 4_096;
/// Programs of a scenario.
pub const PROGRAM_LIMIT: usize = 256;
/// Processes that are made before the first turn: all that there can be but process 0.
pub const SPAWN_LIMIT: usize = 4_095;
/// Turns of all schedule lines.
pub const SCHEDULE_LIMIT: usize = 100_000;

/// Processes ever made, process 0 included.
pub const PROCESS_LIMIT: usize = 4_096;
/// Lwps of a process, an agent included.
pub const LWP_LIMIT: usize = 64;
/// The last id that an lwp gets which is no agent.
pub const LAST_LWP: u32 = 65_534;
/// Registers of an lwp: r0 to r7, sp, fp and pc.
pub const REGISTER_COUNT: usize = 11;
/// Frames of handlers of an lwp.
pub const FRAME_LIMIT: usize = 32;
/// Signals with information that queue for a process or an lwp.
pub const QUEUE_LIMIT: usize = 32;
/// Descriptors of a process.
pub const DESCRIPTOR_LIMIT: usize = 64;
/// Mapped bytes of a process.
pub const MAPPING_LIMIT: u64 = 0x10_0000;
/// Mapped bytes of all live processes.
pub const ALL_MAPPINGS_LIMIT: u64 = 0x400_0000;
/// Watched areas of a process.
pub const AREA_LIMIT: usize = 64;
/// Instructions of a program.
pub const CODE_LIMIT: usize = 4_096;
/// Bytes of a program's data.
pub const DATA_LIMIT: usize = 65_536;
/// Bytes of an instruction.
pub const INSTRUCTION_SIZE: usize = 16;
/// Bytes of the text of a program.
pub const TEXT_LIMIT: usize = INSTRUCTION_SIZE * CODE_LIMIT;

/// Files that stand.
pub const FILE_LIMIT: usize = 256;
/// Pipes that stand.
pub const PIPE_LIMIT: usize = 256;
/// Bytes of a file.
pub const FILE_SIZE_LIMIT: u64 = 65_536;
/// Bytes that stand in a pipe.
pub const PIPE_SIZE_LIMIT: usize = 4_096;
/// Bytes of a name of a program or a file.
pub const NAME_LIMIT: usize = 31;
/// Bytes of a path that a system call is given, with its zero byte.
pub const PATH_LIMIT: usize = 32;
/// Bytes that one system call reads or writes.
pub const TRANSFER_LIMIT: u64 = 4_096;

/// Open handles of all controllers.
pub const HANDLE_LIMIT: usize = 1_024;
/// Bytes of one read of a process file.
pub const READ_LIMIT: u64 = 20_480;
/// Bytes of a list of processes: 48 for each that there can be but process 0.
pub const LIST_LIMIT: usize = 48 * SPAWN_LIMIT;
/// Bytes that one message reads or writes of a process's memory.
pub const MESSAGE_BYTES_LIMIT: u64 = 4_096;
/// Milliseconds that a sleep can last.
pub const SLEEP_LIMIT: u64 = 1_000_000_000;
/// Milliseconds that a wait for a stop can last.
pub const WAIT_LIMIT: u64 = 1_000_000_000;

/// Bytes of a text or a buffer that a line of truss shows.
pub const SHOWN_LIMIT: usize = 64;
/// Bytes that are read for them: one more tells whether there are more.
pub const ASKED_LIMIT: usize = SHOWN_LIMIT + 1;

// Each constant is the number that contracts know by its name.

/// The sizes of the tables.
pub fn sizes_of_tables() -> [usize; 4]
    ensures { result ≡ signal_count ∷ standard_signal_count ∷ fault_count ∷ syscall_count ∷ [] }
{
    [
        SIGNAL_COUNT,
        STANDARD_SIGNAL_COUNT,
        FAULT_COUNT,
        SYSCALL_COUNT,
    ]
}

/// The limits of a run.
pub fn limits_of_runs() -> [u64; 13]
    ensures { result
        ≡ turn_limit ∷ default_turns ∷ clock_limit ∷ controller_limit ∷ worker_limit ∷ child_limit ∷ scenario_limit
        ∷ line_limit ∷ checked_limit ∷ list_line_limit ∷ program_limit ∷ spawn_limit ∷ schedule_limit ∷ [] }
{
    [
        TURN_LIMIT,
        DEFAULT_TURNS as u64,
        CLOCK_LIMIT,
        CONTROLLER_LIMIT as u64,
        WORKER_LIMIT as u64,
        CHILD_LIMIT as u64,
        SCENARIO_LIMIT as u64,
        LINE_LIMIT as u64,
        CHECKED_LIMIT as u64,
        LIST_LINE_LIMIT as u64,
        PROGRAM_LIMIT as u64,
        SPAWN_LIMIT as u64,
        SCHEDULE_LIMIT as u64,
    ]
}

/// The limits of processes, and the id of an agent.
pub fn limits_of_processes() -> [u64; 15]
    ensures { result
        ≡ process_limit ∷ lwp_limit ∷ last_lwp ∷ agent_id ∷ register_count ∷ frame_limit ∷ queue_limit
        ∷ descriptor_limit ∷ mapping_limit ∷ all_mappings_limit ∷ area_limit ∷ code_limit ∷ data_limit
        ∷ instruction_size ∷ text_limit ∷ [] }
{
    [
        PROCESS_LIMIT as u64,
        LWP_LIMIT as u64,
        LAST_LWP as u64,
        AGENT as u64,
        REGISTER_COUNT as u64,
        FRAME_LIMIT as u64,
        QUEUE_LIMIT as u64,
        DESCRIPTOR_LIMIT as u64,
        MAPPING_LIMIT,
        ALL_MAPPINGS_LIMIT,
        AREA_LIMIT as u64,
        CODE_LIMIT as u64,
        DATA_LIMIT as u64,
        INSTRUCTION_SIZE as u64,
        TEXT_LIMIT as u64,
    ]
}

/// The limits of files, of the process files, and of the lines of truss.
pub fn limits_of_files() -> [u64; 15]
    ensures { result
        ≡ file_limit ∷ pipe_limit ∷ file_size_limit ∷ pipe_size_limit ∷ name_limit ∷ path_limit ∷ transfer_limit
        ∷ handle_limit ∷ read_limit ∷ list_limit ∷ message_bytes_limit ∷ sleep_limit ∷ wait_limit ∷ shown_limit
        ∷ asked_limit ∷ [] }
{
    [
        FILE_LIMIT as u64,
        PIPE_LIMIT as u64,
        FILE_SIZE_LIMIT,
        PIPE_SIZE_LIMIT as u64,
        NAME_LIMIT as u64,
        PATH_LIMIT as u64,
        TRANSFER_LIMIT,
        HANDLE_LIMIT as u64,
        READ_LIMIT,
        LIST_LIMIT as u64,
        MESSAGE_BYTES_LIMIT,
        SLEEP_LIMIT,
        WAIT_LIMIT,
        SHOWN_LIMIT as u64,
        ASKED_LIMIT as u64,
    ]
}

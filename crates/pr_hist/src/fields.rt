//! The fields of records (proc(4), "Records, by byte offset").
ghost use Rattle.std.specs.Prelude.{◌≡◌, ◌<◌, ◌^◌};
ghost use Rattle.pr_hist.specs.Fields.{lwp_name, lwp_kind, own_name, own_kind, psinfo_name, psinfo_kind, mapping_name, mapping_kind, usage_name, usage_kind, area_name, area_kind, descriptor_name, descriptor_kind, listed_name, listed_kind, field_kind, field_name, layout_of, signal_name_at, starts_record};

use pr_model::File;
use pr_num::Sig;

/// What a word of a record holds.
#[derive(Clone, Copy)]
pub enum Kind {
    /// A number in decimal.
    Count,
    /// The same, told also where it is 0.
    Place,
    /// A number that may be an address.
    Number,
    /// An address.
    Address,
    /// An address at which an instruction may stand.
    Code,
    /// Flags of an lwp.
    LwpFlags,
    /// Flags of a process.
    ProcessFlags,
    /// Flags of a watched area.
    WatchFlags,
    /// The protection of a mapping.
    Protection,
    /// Why an lwp is stopped.
    Why,
    /// What it is stopped on, as the word before says.
    What,
    /// A signal.
    Signal,
    /// A fault.
    Fault,
    /// A system call.
    Call,
    /// An errno.
    Errno,
    /// A set of signals.
    Signals,
    /// A set of faults.
    Faults,
    /// A set of system calls.
    Calls,
    /// How a signal is disposed of.
    Disposition,
    /// The same, or the address of a handler.
    Handler,
    /// Where a signal came from.
    Origin,
    /// A kind of mapping.
    MappingKind,
    /// A kind of descriptor.
    DescriptorKind,
    /// For what a descriptor is open, told also where it is 0.
    Access,
    /// The first word of a name, which stands whole here.
    Name,
    /// Another word of a name.
    Rest,
}

/// What a record is of.
#[derive(Clone, Copy)]
pub enum Layout {
    Status,
    Lstatus,
    Lwpstatus,
    Psinfo,
    Map,
    Usage,
    Sigact,
    Watch,
    Fds,
    /// The list of processes.
    List,
    /// Bytes that are no record.
    Raw,
}

/// The names of a status of an lwp.
#[tactic(auto, unfolding(crate::specs::Fields::lwp_name))]
fn lwp_name(place: u64) -> &'static [u8]
    ensures { result.now ≡ lwp_name place }
{
    match place {
        0 => b"pr_flags",
        1 => b"pr_lwpid",
        2 => b"pr_why",
        3 => b"pr_what",
        4 => b"pr_cursig",
        5 => b"pr_fault",
        6 => b"pr_faddr",
        7 => b"pr_syscall",
        8 => b"pr_sysarg[0]",
        9 => b"pr_sysarg[1]",
        10 => b"pr_sysarg[2]",
        11 => b"pr_sysarg[3]",
        12 => b"pr_sysarg[4]",
        13 => b"pr_sysarg[5]",
        14 => b"pr_rval1",
        15 => b"pr_errno",
        16 => b"pr_lwphold",
        17 => b"pr_lwppend",
        18 => b"r0",
        19 => b"r1",
        20 => b"r2",
        21 => b"r3",
        22 => b"r4",
        23 => b"r5",
        24 => b"r6",
        25 => b"r7",
        26 => b"sp",
        27 => b"fp",
        28 => b"pc",
        29 => b"pr_action",
        30 => b"si_code",
        31 => b"si_pid",
        32 => b"si_value",
        _ => b"word",
    }
}

/// The kinds of a status of an lwp.
#[tactic(auto, unfolding(crate::specs::Fields::lwp_kind))]
fn lwp_kind(place: u64) -> Kind
    ensures { result ≡ lwp_kind place }
{
    match place {
        0 => Kind::LwpFlags,
        1 => Kind::Count,
        2 => Kind::Why,
        3 => Kind::What,
        4 => Kind::Signal,
        5 => Kind::Fault,
        6 => Kind::Code,
        7 => Kind::Call,
        8 => Kind::Number,
        9 => Kind::Number,
        10 => Kind::Number,
        11 => Kind::Number,
        12 => Kind::Number,
        13 => Kind::Number,
        14 => Kind::Number,
        15 => Kind::Errno,
        16 => Kind::Signals,
        17 => Kind::Signals,
        18 => Kind::Number,
        19 => Kind::Number,
        20 => Kind::Number,
        21 => Kind::Number,
        22 => Kind::Number,
        23 => Kind::Number,
        24 => Kind::Number,
        25 => Kind::Number,
        26 => Kind::Address,
        27 => Kind::Address,
        28 => Kind::Code,
        29 => Kind::Disposition,
        30 => Kind::Origin,
        31 => Kind::Count,
        32 => Kind::Number,
        _ => Kind::Number,
    }
}

/// The names of the status of a process, its lwp aside.
#[tactic(auto, unfolding(crate::specs::Fields::own_name))]
fn own_name(place: u64) -> &'static [u8]
    ensures { result.now ≡ own_name place }
{
    match place {
        0 => b"pr_flags",
        1 => b"pr_pid",
        2 => b"pr_ppid",
        3 => b"pr_nlwp",
        4 => b"pr_sigpend",
        5 => b"pr_sigtrace",
        6 => b"pr_flttrace",
        7 => b"pr_sysentry",
        8 => b"pr_sysexit",
        9 => b"pr_brkbase",
        10 => b"pr_brksize",
        11 => b"pr_agentid",
        12 => b"pr_nwarea",
        _ => b"word",
    }
}

/// The kinds of the status of a process, its lwp aside.
#[tactic(auto, unfolding(crate::specs::Fields::own_kind))]
fn own_kind(place: u64) -> Kind
    ensures { result ≡ own_kind place }
{
    match place {
        0 => Kind::ProcessFlags,
        1 => Kind::Count,
        2 => Kind::Count,
        3 => Kind::Count,
        4 => Kind::Signals,
        5 => Kind::Signals,
        6 => Kind::Faults,
        7 => Kind::Calls,
        8 => Kind::Calls,
        9 => Kind::Address,
        10 => Kind::Number,
        11 => Kind::Count,
        12 => Kind::Count,
        _ => Kind::Number,
    }
}

/// The names of what ps(1) shows.
#[tactic(auto, unfolding(crate::specs::Fields::psinfo_name))]
fn psinfo_name(place: u64) -> &'static [u8]
    ensures { result.now ≡ psinfo_name place }
{
    match place {
        0 => b"pr_pid",
        1 => b"pr_ppid",
        2 => b"pr_nlwp",
        3 => b"pr_nzomb",
        4 => b"pr_wstat",
        5 => b"pr_size",
        6 => b"pr_start",
        7 => b"pr_jobsig",
        8 => b"pr_fname",
        _ => b"word",
    }
}

/// The kinds of what ps(1) shows.
#[tactic(auto, unfolding(crate::specs::Fields::psinfo_kind))]
fn psinfo_kind(place: u64) -> Kind
    ensures { result ≡ psinfo_kind place }
{
    match place {
        0 => Kind::Count,
        1 => Kind::Count,
        2 => Kind::Count,
        3 => Kind::Count,
        4 => Kind::Number,
        5 => Kind::Number,
        6 => Kind::Count,
        7 => Kind::Signal,
        8 => Kind::Name,
        _ => Kind::Rest,
    }
}

/// The names of a mapping.
#[tactic(auto, unfolding(crate::specs::Fields::mapping_name))]
fn mapping_name(place: u64) -> &'static [u8]
    ensures { result.now ≡ mapping_name place }
{
    match place {
        0 => b"pr_vaddr",
        1 => b"pr_size",
        2 => b"pr_mflags",
        3 => b"pr_kind",
        4 => b"pr_mapname",
        _ => b"word",
    }
}

/// The kinds of a mapping.
#[tactic(auto, unfolding(crate::specs::Fields::mapping_kind))]
fn mapping_kind(place: u64) -> Kind
    ensures { result ≡ mapping_kind place }
{
    match place {
        0 => Kind::Address,
        1 => Kind::Number,
        2 => Kind::Protection,
        3 => Kind::MappingKind,
        4 => Kind::Name,
        _ => Kind::Rest,
    }
}

/// The names of what a process has used.
#[tactic(auto, unfolding(crate::specs::Fields::usage_name))]
fn usage_name(place: u64) -> &'static [u8]
    ensures { result.now ≡ usage_name place }
{
    match place {
        0 => b"pr_pid",
        1 => b"pr_sysc",
        2 => b"pr_sigs",
        3 => b"pr_flts",
        4 => b"pr_insns",
        _ => b"word",
    }
}

/// The kinds of what a process has used.
#[tactic(auto, unfolding(crate::specs::Fields::usage_kind))]
fn usage_kind(place: u64) -> Kind
    ensures { result ≡ usage_kind place }
{
    match place {
        0 => Kind::Count,
        1 => Kind::Count,
        2 => Kind::Count,
        3 => Kind::Count,
        4 => Kind::Count,
        _ => Kind::Number,
    }
}

/// The names of a watched area.
#[tactic(auto, unfolding(crate::specs::Fields::area_name))]
fn area_name(place: u64) -> &'static [u8]
    ensures { result.now ≡ area_name place }
{
    match place {
        0 => b"pr_vaddr",
        1 => b"pr_size",
        2 => b"pr_wflags",
        _ => b"word",
    }
}

/// The kinds of a watched area.
#[tactic(auto, unfolding(crate::specs::Fields::area_kind))]
fn area_kind(place: u64) -> Kind
    ensures { result ≡ area_kind place }
{
    match place {
        0 => Kind::Address,
        1 => Kind::Number,
        2 => Kind::WatchFlags,
        _ => Kind::Number,
    }
}

/// The names of a descriptor.
#[tactic(auto, unfolding(crate::specs::Fields::descriptor_name))]
fn descriptor_name(place: u64) -> &'static [u8]
    ensures { result.now ≡ descriptor_name place }
{
    match place {
        0 => b"fd",
        1 => b"kind",
        2 => b"mode",
        3 => b"offset",
        4 => b"name",
        _ => b"word",
    }
}

/// The kinds of a descriptor.
#[tactic(auto, unfolding(crate::specs::Fields::descriptor_kind))]
fn descriptor_kind(place: u64) -> Kind
    ensures { result ≡ descriptor_kind place }
{
    match place {
        0 => Kind::Place,
        1 => Kind::DescriptorKind,
        2 => Kind::Access,
        3 => Kind::Number,
        4 => Kind::Name,
        _ => Kind::Rest,
    }
}

/// The names of a process in the list of processes.
#[tactic(auto, unfolding(crate::specs::Fields::listed_name))]
fn listed_name(place: u64) -> &'static [u8]
    ensures { result.now ≡ listed_name place }
{
    match place {
        0 => b"pr_pid",
        1 => b"pr_ppid",
        2 => b"pr_fname",
        _ => b"word",
    }
}

/// The kinds of a process in the list of processes.
#[tactic(auto, unfolding(crate::specs::Fields::listed_kind))]
fn listed_kind(place: u64) -> Kind
    ensures { result ≡ listed_kind place }
{
    match place {
        0 => Kind::Count,
        1 => Kind::Count,
        2 => Kind::Name,
        _ => Kind::Rest,
    }
}

/// The signal of a word of `sigact`.
#[tactic(auto, unfolding(crate::specs::Fields::signal_name_at))]
fn signal_name_at(place: u64) -> &'static [u8]
    requires { place < 2 ^ 62 }
    ensures { result.now ≡ signal_name_at place }
{
    match Sig::from_number(place + 1) {
        None => b"word",
        Some(signal) => signal.name().as_bytes(),
    }
}

/// The record of a file that is read.
#[tactic(auto, unfolding(crate::specs::Fields::layout_of))]
pub fn layout_of(file: File) -> Layout
    ensures { result ≡ layout_of file }
{
    match file {
        File::Status => Layout::Status,
        File::Lstatus => Layout::Lstatus,
        File::Psinfo => Layout::Psinfo,
        File::Map => Layout::Map,
        File::Usage => Layout::Usage,
        File::Sigact => Layout::Sigact,
        File::Watch => Layout::Watch,
        File::Fds => Layout::Fds,
        File::Lwpstatus => Layout::Lwpstatus,
        File::Mem | File::Ctl | File::Lwpctl => Layout::Raw,
    }
}

/// The name of a word of a record, by its place.
#[tactic(auto, unfolding(crate::specs::Fields::field_name))]
pub fn field_name(layout: Layout, place: u64) -> &'static [u8]
    requires { place < 2 ^ 62 }
    ensures { result.now ≡ field_name layout place }
{
    match layout {
        Layout::Status => {
            if place < 13 {
                own_name(place)
            } else {
                lwp_name(place - 13)
            }
        }
        Layout::Lstatus => {
            if place == 0 {
                b"pr_nent"
            } else {
                lwp_name((place - 1) % 33)
            }
        }
        Layout::Lwpstatus => lwp_name(place),
        Layout::Psinfo => psinfo_name(place),
        Layout::Map => mapping_name(place % 8),
        Layout::Usage => usage_name(place),
        Layout::Sigact => signal_name_at(place),
        Layout::Watch => area_name(place % 3),
        Layout::Fds => descriptor_name(place % 8),
        Layout::List => listed_name(place % 6),
        Layout::Raw => b"word",
    }
}

/// Its kind.
#[tactic(auto, unfolding(crate::specs::Fields::field_kind))]
pub fn field_kind(layout: Layout, place: u64) -> Kind
    ensures { result ≡ field_kind layout place }
{
    match layout {
        Layout::Status => {
            if place < 13 {
                own_kind(place)
            } else {
                lwp_kind(place - 13)
            }
        }
        Layout::Lstatus => {
            if place == 0 {
                Kind::Count
            } else {
                lwp_kind((place - 1) % 33)
            }
        }
        Layout::Lwpstatus => lwp_kind(place),
        Layout::Psinfo => psinfo_kind(place),
        Layout::Map => mapping_kind(place % 8),
        Layout::Usage => usage_kind(place),
        Layout::Sigact => Kind::Handler,
        Layout::Watch => area_kind(place % 3),
        Layout::Fds => descriptor_kind(place % 8),
        Layout::List => listed_kind(place % 6),
        Layout::Raw => Kind::Number,
    }
}

/// Whether a record, or the part of a record that is of one lwp, begins with a word.
#[tactic(auto, unfolding(crate::specs::Fields::starts_record))]
pub fn starts_record(layout: Layout, place: u64) -> bool
    ensures { result ≡ starts_record layout place }
{
    match layout {
        Layout::Status => place == 13,
        Layout::Lstatus => place.saturating_sub(1) % 33 == 0,
        Layout::Map => place % 8 == 0,
        Layout::Watch => place % 3 == 0,
        Layout::Fds => place % 8 == 0,
        Layout::List => place % 6 == 0,
        Layout::Lwpstatus | Layout::Psinfo | Layout::Usage | Layout::Sigact | Layout::Raw => false,
    }
}

//! What no clause says: each record as words written by hand, both ways, and words that are out of their range.
use pr_num::{
    Access, Errno, FdKind, Flt, FltSet, Info, MappingKind, Modes, Name, Prot, Sig, SigSet,
    StopReason, SysSet, Sysno, Target, WatchFlags,
};
use pr_rec::*;
use std::alloc::{AllocError, Global};
use std::test::Fail;

/// The words of a status, of a process that has lent its memory. From the 14th on they are those of its lwp: it is
/// stopped on an event, at the entry of write, with the current signal SIGRT0, which process 9 queued with a value, and
/// the errno EAGAIN.
const STATUS: [u64; 46] = [
    41,
    7,
    1,
    2,
    0x40_0000_0000,
    3,
    0x80,
    0x6000_0000,
    5,
    0x10_0000,
    4_096,
    65_535,
    64,
    3,
    4_294_967_295,
    3,
    4,
    32,
    8,
    77,
    4,
    11,
    12,
    13,
    14,
    15,
    16,
    17,
    11,
    1,
    0x7f_ffff_ffff,
    20,
    21,
    22,
    23,
    24,
    25,
    26,
    27,
    28,
    29,
    u64::MAX,
    2,
    2,
    9,
    1 << 63,
];

/// A name in its 32 bytes.
const NAME: [u8; 32] = [
    b'c', b'a', b't', 0, 0, 0, 0, 0, 0, 0, 0, 0, 0, 0, 0, 0, 0, 0, 0, 0, 0, 0, 0, 0, 0, 0, 0, 0, 0,
    0, 0, b'z',
];

/// The words of that name.
const NAME_WORDS: [u64; 4] = [0x74_6163, 0, 0, 0x7a00_0000_0000_0000];

/// A watched area: address, size and flags.
const AREA: [u8; 24] = [
    0, 0, 8, 0, 0, 0, 0, 0, 8, 0, 0, 0, 0, 0, 0, 0, 10, 0, 0, 0, 0, 0, 0, 0,
];

/// A descriptor: number, kind, access, offset and name.
const DESCRIPTOR: [u8; 64] = [
    63, 0, 0, 0, 0, 0, 0, 0, 3, 0, 0, 0, 0, 0, 0, 0, 1, 0, 0, 0, 0, 0, 0, 0, 5, 1, 0, 0, 0, 0, 0,
    0, b'c', b'a', b't', 0, 0, 0, 0, 0, 0, 0, 0, 0, 0, 0, 0, 0, 0, 0, 0, 0, 0, 0, 0, 0, 0, 0, 0, 0,
    0, 0, 0, b'z',
];

/// A process in the list of processes: id, parent and name.
const LISTED: [u8; 48] = [
    2, 1, 0, 0, 0, 0, 0, 0, 1, 0, 0, 0, 0, 0, 0, 0, b'c', b'a', b't', 0, 0, 0, 0, 0, 0, 0, 0, 0, 0,
    0, 0, 0, 0, 0, 0, 0, 0, 0, 0, 0, 0, 0, 0, 0, 0, 0, 0, b'z',
];

/// A mapping: address, size, protection, kind and name.
const MAPPING: [u8; 64] = [
    0, 0, 112, 0, 0, 0, 0, 0, 0, 16, 0, 0, 0, 0, 0, 0, 6, 0, 0, 0, 0, 0, 0, 0, 4, 0, 0, 0, 0, 0, 0,
    0, b'c', b'a', b't', 0, 0, 0, 0, 0, 0, 0, 0, 0, 0, 0, 0, 0, 0, 0, 0, 0, 0, 0, 0, 0, 0, 0, 0, 0,
    0, 0, 0, b'z',
];

/// Words out of their range, each at the byte of a status at which it begins.
const BAD: [(usize, u64); 22] = [
    (0, 64),
    (8, 1 << 32),
    (16, 1 << 32),
    (32, 1 << 39),
    (40, 1 << 39),
    (48, 1 << 8),
    (56, 1 << 31),
    (64, 1 << 31),
    (88, 1 << 32),
    (104, 64),
    (112, 1 << 32),
    (120, 8),
    (128, 40),
    (136, 40),
    (144, 9),
    (160, 32),
    (224, 13),
    (232, 1 << 39),
    (240, 1 << 39),
    (336, 3),
    (344, 6),
    (352, 1 << 32),
];

fn bytes_of(alloc: Global, words: &[u64]) -> Result<Vec<u8>, AllocError> {
    let mut bytes = Vec::new(alloc);
    for word in words {
        bytes.extend_from_slice(&word.to_le_bytes())?;
    }
    Ok(bytes)
}

fn lwp() -> LwpStatus {
    LwpStatus {
        flags: LwpMarks {
            stopped: true,
            on_event: true,
            directed: false,
            step: false,
            asleep: false,
            agent: false,
        }
        .flags(),
        id: 4_294_967_295,
        why: Some(StopReason::SysEntry),
        what: What::of_call(Sysno::Write),
        signal: Some(Sig::Rt0),
        fault: Some(Flt::Izdiv),
        fault_address: 77,
        call: Some(Sysno::Write),
        arguments: [11, 12, 13, 14, 15, 16],
        result: 17,
        errno: Some(Errno::Again),
        held: SigSet::empty().with(Sig::Hup),
        pending: SigSet::all(),
        regs: [20, 21, 22, 23, 24, 25, 26, 27, 28, 29, u64::MAX],
        disposition: Disposition::of(0x1_0000),
        info: Info {
            code: Info::QUEUE,
            pid: 9,
            value: 1 << 63,
        },
    }
}

fn status() -> Status {
    Status {
        flags: flags_of_process(Modes::FORK.union(Modes::ASYNC), false, true),
        id: 7,
        parent: 1,
        lwps: 2,
        pending: SigSet::empty().with(Sig::Rt7),
        traced_signals: SigSet::empty().with(Sig::Hup).with(Sig::Int),
        traced_faults: FltSet::empty().with(Flt::Izdiv),
        traced_entries: SysSet::empty().with(Sysno::Sigqueue).with(Sysno::Vfork),
        traced_exits: SysSet::empty().with(Sysno::Exit).with(Sysno::Read),
        heap_base: 0x10_0000,
        heap_size: 4_096,
        agent: 65_535,
        areas: 64,
        lwp: lwp(),
    }
}

#[test]
fn a_status_is_its_words(rt: HostRuntime) -> Result<(), Fail> {
    let bytes = bytes_of(rt.alloc(), &STATUS)?;
    assert_eq!(rt; status().encode().as_slice(), bytes.as_slice());
    assert_eq!(rt; Status::decode(&bytes), Ok(status()));
    Ok(())
}

#[test]
fn words_out_of_their_range_are_named(rt: HostRuntime) -> Result<(), Fail> {
    for (at, word) in BAD {
        let mut words = STATUS;
        if let Some(bad) = words.get_mut(at / 8) {
            *bad = word;
        }
        let bytes = bytes_of(rt.alloc(), &words)?;
        assert_eq!(rt; Status::decode(&bytes), Err(RecFault::BadField { at }));
    }
    Ok(())
}

fn mapping() -> MapEntry {
    MapEntry {
        at: 0x70_0000,
        size: 4_096,
        prot: Prot::READ.union(Prot::WRITE),
        kind: MappingKind::Stack,
        name: NAME,
    }
}

#[test]
fn a_usage_is_its_words(rt: HostRuntime) -> Result<(), Fail> {
    let usage = Usage {
        id: 3,
        calls: 4,
        signals: 5,
        faults: 6,
        instructions: u64::MAX,
    };
    let bytes = bytes_of(rt.alloc(), &[3, 4, 5, 6, u64::MAX])?;
    assert_eq!(rt; usage.encode().as_slice(), bytes.as_slice());
    assert_eq!(rt; Usage::decode(&bytes), Ok(usage));
    Ok(())
}

#[test]
fn what_is_said_of_a_process_is_its_words(rt: HostRuntime) -> Result<(), Fail> {
    let [a, b, c, d] = NAME_WORDS;
    let psinfo = Psinfo {
        id: 3,
        parent: 1,
        lwps: 2,
        zombie: true,
        wait_status: 0x100,
        mapped: 8_192,
        made_at: 50,
        job_stop: Some(Sig::Tstp),
        program: NAME,
    };
    let bytes = bytes_of(rt.alloc(), &[3, 1, 2, 1, 0x100, 8_192, 50, 24, a, b, c, d])?;
    assert_eq!(rt; psinfo.encode().as_slice(), bytes.as_slice());
    assert_eq!(rt; Psinfo::decode(&bytes), Ok(psinfo));
    Ok(())
}

#[test]
fn a_mapping_is_its_bytes(rt: HostRuntime) {
    assert_eq!(rt; mapping().encode(), MAPPING);
    assert_eq!(rt; MapEntry::decode(&MAPPING), Ok(mapping()));
}

#[test]
fn an_old_status_is_upgraded(rt: HostRuntime) -> Result<(), Fail> {
    let alloc = rt.alloc();
    for (place, word, want) in [
        (4, 31, Ok(())),
        (4, 32, Err(RecFault::BadField { at: 32 })),
        (3, 32, Err(RecFault::BadField { at: 24 })),
        (7, 30, Err(RecFault::BadField { at: 56 })),
        (17, 1 << 31, Err(RecFault::BadField { at: 136 })),
    ] {
        let mut words = [0; 30];
        if let Some(changed) = words.get_mut(place) {
            *changed = word;
        }
        let bytes = bytes_of(alloc, &words)?;
        assert_eq!(rt; bytes.len(), 240);
        let mut old = [0; 240];
        old.copy_from_slice(&bytes);
        let mut today = [0; 264];
        today[..240].copy_from_slice(&bytes);
        let upgraded = upgrade(&old);
        assert_eq!(rt; upgraded.map(|_| ()), want, "word {place}");
        if let Ok(new) = upgraded {
            assert_eq!(rt; new, today);
        }
    }
    Ok(())
}

#[test]
fn a_list_of_lwps_begins_with_their_number(rt: HostRuntime) -> Result<(), Fail> {
    let alloc = rt.alloc();
    assert_eq!(rt; write_lstatus(alloc, &[])?.as_slice(), [0; 8].as_slice());
    let mut two = bytes_of(alloc, &[2])?;
    two.extend_from_slice(&bytes_of(alloc, &STATUS[13..])?)?;
    two.extend_from_slice(&[0; 264])?;
    let written = write_lstatus(alloc, &[lwp(), LwpStatus::none()])?;
    assert_eq!(rt; written.as_slice(), two.as_slice());
    Ok(())
}

#[test]
fn mappings_and_areas_are_their_bytes(rt: HostRuntime) -> Result<(), Fail> {
    let alloc = rt.alloc();
    assert_eq!(rt;
        write_map(alloc, &[mapping()])?.as_slice(),
        MAPPING.as_slice()
    );
    let area = WatchEntry {
        at: 0x8_0000,
        size: 8,
        flags: WatchFlags::WRITE.union(WatchFlags::TRAPAFTER),
    };
    assert_eq!(rt; write_watch(alloc, &[area])?.as_slice(), AREA.as_slice());
    Ok(())
}

#[test]
fn descriptors_and_processes_are_their_bytes(rt: HostRuntime) -> Result<(), Fail> {
    let alloc = rt.alloc();
    let descriptor = FdEntry {
        descriptor: Descriptor::at(63),
        kind: FdKind::of(Target::PipeWriter(2)),
        access: Access::Write,
        offset: 0x105,
        name: NAME,
    };
    assert_eq!(rt;
        write_fds(alloc, &[descriptor])?.as_slice(),
        DESCRIPTOR.as_slice()
    );
    let process = ListEntry {
        id: 0x102,
        parent: 1,
        program: NAME,
    };
    assert_eq!(rt;
        write_list(alloc, &[process])?.as_slice(),
        LISTED.as_slice()
    );
    Ok(())
}

#[test]
fn a_name_stands_in_32_bytes(rt: HostRuntime) -> Result<(), Fail> {
    let name = Name::from_slice(b"cat").ok_or("cat is a name")?;
    let mut field = [0; 32];
    field[..3].copy_from_slice(b"cat");
    assert_eq!(rt; name_field(&name), field);
    Ok(())
}

#[test]
fn a_fault_has_a_text(rt: HostRuntime) -> Result<(), Fail> {
    for (fault, text) in [
        (RecFault::Short, "too few bytes for a record"),
        (RecFault::BadField { at: 24 }, "bad field at byte 24"),
    ] {
        assert_eq!(rt; format!(in rt.alloc(); "{fault}")?.as_str(), text);
    }
    Ok(())
}

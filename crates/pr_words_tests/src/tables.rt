use pr_num::{
    ArgKind, DefAct, Errno, Flt, FltSet, Modes, Name, Prot, Sig, SigSet, StopReason, SysSet, Sysno,
    WatchFlags,
};

// Some of Solaris 10, signal.h(3HEAD), and the first and last of the signals that queue.
static SIGNALS: [(u64, &str, DefAct); 9] = [
    (1, "SIGHUP", DefAct::Die),
    (9, "SIGKILL", DefAct::Die),
    (18, "SIGCLD", DefAct::Ignore),
    (22, "SIGPOLL", DefAct::Die),
    (23, "SIGSTOP", DefAct::Stop),
    (25, "SIGCONT", DefAct::Ignore),
    (31, "SIGXFSZ", DefAct::Die),
    (32, "SIGRT0", DefAct::Die),
    (39, "SIGRT7", DefAct::Die),
];

/// The signal of a number has this name and does this by default, and each of its two names leads back to it.
fn is_signal(n: u64, name: &str, action: DefAct) -> bool {
    let Some(signal) = Sig::from_number(n) else {
        return false;
    };
    signal.number() == n
        && signal.name() == name
        && signal.def_act() == action
        && names_signal(name.as_bytes(), signal)
}

/// The name leads to the signal, and so it does without its first three bytes.
fn names_signal(name: &[u8], signal: Sig) -> bool {
    name.len() > 3
        && Sig::from_name(name) == Some(signal)
        && Sig::from_name(&name[3..]) == Some(signal)
}

#[test]
fn signals_of_the_manual(rt: HostRuntime) {
    for (n, name, action) in &SIGNALS {
        assert!(rt; is_signal(*n, name, *action), "{n}");
    }
    assert!(rt; Sig::from_number(40).is_none());
    assert!(rt; Sig::from_name(b"SIGSIGHUP").is_none());
}

#[test]
fn other_tables_of_the_manual(rt: HostRuntime) {
    assert!(rt; Errno::Again.number() == 11 && Errno::Notsup.name() == "ENOTSUP");
    assert!(rt; Errno::from_number(6).is_none() && Errno::from_name(b"PERM").is_none());
    assert!(rt; Flt::from_name(b"FLTIZDIV").map(Flt::signal) == Some(Sig::Fpe));
    assert!(rt; Flt::from_number(9).is_none());
    assert!(rt; StopReason::from_number(5) == StopReason::from_name(b"PR_JOBCONTROL"));
    assert!(rt; StopReason::from_number(8).is_none());
}

#[test]
fn calls_and_their_arguments(rt: HostRuntime) {
    assert!(rt; Sysno::from_name(b"sigqueue") == Sysno::from_number(30));
    assert!(rt; Sysno::Sigqueue.args() == [ArgKind::Dec, ArgKind::Dec, ArgKind::Dec].as_slice());
    assert!(rt; Sysno::Read.args() == [ArgKind::Dec, ArgKind::Buf, ArgKind::Dec].as_slice());
    assert!(rt; Sysno::Read.may_sleep() && !Sysno::Sigqueue.may_sleep());
    assert!(rt; Sysno::from_number(32).is_none() && Sysno::from_name(b"truss").is_none());
}

// The two calls that make a child, and one that makes none.
#[test]
fn calls_that_make_a_child(rt: HostRuntime) {
    assert!(rt; Sysno::from_name(b"vfork") == Some(Sysno::Vfork));
    assert!(rt; Sysno::from_number(31) == Some(Sysno::Vfork));
    assert!(rt; Sysno::Vfork.number() == 31 && Sysno::Vfork.name() == "vfork");
    assert!(rt; Sysno::Vfork.args().is_empty() && !Sysno::Vfork.may_sleep());
    assert!(rt; Sysno::Vfork.is_fork_call() && Sysno::Fork.is_fork_call());
    assert!(rt; !Sysno::Exec.is_fork_call());
}

#[test]
fn words_of_sets(rt: HostRuntime) {
    let both = SigSet::empty().with(Sig::Kill).with(Sig::Hup);
    assert!(rt; both.word() == 0x101 && SigSet::from_word(0x101) == Some(both));
    assert!(rt; SigSet::from_word(0x7f_ffff_ffff) == Some(SigSet::all()));
    assert!(rt; SigSet::from_word(0x80_0000_0000).is_none());
    assert!(rt; SigSet::all().holdable().word() == 0x7f_ffbf_feff);
    assert!(rt; both.minus(SigSet::all().holdable()).first() == Some(Sig::Kill));
    assert!(rt; FltSet::all().word() == 0xff && FltSet::from_word(0x100).is_none());
    assert!(rt; FltSet::empty().with(Flt::Izdiv).word() == 0x80);
    assert!(rt; SysSet::all().word() == 0x7fff_ffff && SysSet::from_word(1 << 31).is_none());
    assert!(rt; SysSet::all().without(Sysno::Exit).first() == Some(Sysno::Fork));
}

#[test]
fn words_of_flags(rt: HostRuntime) {
    assert!(rt; Modes::FORK.union(Modes::ASYNC).word() == 9 && Modes::from_word(16).is_none());
    assert!(rt; WatchFlags::READ.union(WatchFlags::TRAPAFTER).word() == 9);
    assert!(rt; Prot::READ.union(Prot::EXEC).word() == 5 && Prot::from_word(8).is_none());
}

#[test]
fn names_of_1_to_31_bytes(rt: HostRuntime) {
    let long = [b'a'; 32];
    assert!(rt; Name::from_slice(b"").is_none() && Name::from_slice(&long).is_none());
    assert!(rt; Name::from_slice(&long[1..]).is_some());
    let name = Name::from_slice(b"sched").expect(&rt, "a name");
    assert!(rt; name.as_slice() == b"sched".as_slice());
}

ghost use Rattle.std.specs.Prelude.{◌≡◌, ◌≤◌, length};
ghost use Rattle.std.proofs.Common.{lit≤};
ghost use Rattle.pr_num.specs.Signals.{signals, signal_of_number, signal_of_name, signal_number, signal_name, is_named, default_action};
ghost use Rattle.pr_num.specs.Limits.{signal_count};

use crate::limits::SIGNAL_COUNT;
use crate::numbered::Numbered;
use crate::tables;

/// What a signal does to a process that neither catches nor ignores it (signal.h(3HEAD)).
#[derive(Clone, Copy, Debug, PartialEq, Eq)]
pub enum DefAct {
    /// The process ends.
    Die,
    /// The signal is dropped.
    Ignore,
    /// The process is stopped by job control.
    Stop,
}

/// A signal (signal.h(3HEAD)), with the numbers of Solaris.
#[derive(Clone, Copy, Debug, PartialEq, Eq, PartialOrd, Ord)]
pub enum Sig {
    /// Hangup.
    Hup = 1,
    /// Interrupt.
    Int = 2,
    /// Quit.
    Quit = 3,
    /// Illegal instruction.
    Ill = 4,
    /// Trace or breakpoint trap.
    Trap = 5,
    /// Abort.
    Abrt = 6,
    /// Emulation trap.
    Emt = 7,
    /// Arithmetic exception.
    Fpe = 8,
    /// Killed; can be neither caught, ignored nor held.
    Kill = 9,
    /// Bus error.
    Bus = 10,
    /// Segmentation fault.
    Segv = 11,
    /// Bad system call.
    Sys = 12,
    /// Broken pipe.
    Pipe = 13,
    /// Alarm clock.
    Alrm = 14,
    /// Terminated.
    Term = 15,
    /// User signal 1.
    Usr1 = 16,
    /// User signal 2.
    Usr2 = 17,
    /// A child changed its state.
    Cld = 18,
    /// Power fail or restart.
    Pwr = 19,
    /// The window changed its size.
    Winch = 20,
    /// Urgent socket condition.
    Urg = 21,
    /// Pollable event.
    Poll = 22,
    /// Stopped; can be neither caught, ignored nor held.
    Stop = 23,
    /// Stopped by the user.
    Tstp = 24,
    /// Continued.
    Cont = 25,
    /// Stopped for input from the terminal.
    Ttin = 26,
    /// Stopped for output to the terminal.
    Ttou = 27,
    /// Virtual timer expired.
    Vtalrm = 28,
    /// Profiling timer expired.
    Prof = 29,
    /// Processor time limit exceeded.
    Xcpu = 30,
    /// File size limit exceeded.
    Xfsz = 31,
    /// Real-time signal 0, whose information queues, as that of the seven after it.
    Rt0 = 32,
    /// Real-time signal 1.
    Rt1 = 33,
    /// Real-time signal 2.
    Rt2 = 34,
    /// Real-time signal 3.
    Rt3 = 35,
    /// Real-time signal 4.
    Rt4 = 36,
    /// Real-time signal 5.
    Rt5 = 37,
    /// Real-time signal 6.
    Rt6 = 38,
    /// Real-time signal 7.
    Rt7 = 39,
}

impl Sig {
    /// Every signal, in the order of its number.
    pub const ALL: [Sig; SIGNAL_COUNT] = [
        Sig::Hup,
        Sig::Int,
        Sig::Quit,
        Sig::Ill,
        Sig::Trap,
        Sig::Abrt,
        Sig::Emt,
        Sig::Fpe,
        Sig::Kill,
        Sig::Bus,
        Sig::Segv,
        Sig::Sys,
        Sig::Pipe,
        Sig::Alrm,
        Sig::Term,
        Sig::Usr1,
        Sig::Usr2,
        Sig::Cld,
        Sig::Pwr,
        Sig::Winch,
        Sig::Urg,
        Sig::Poll,
        Sig::Stop,
        Sig::Tstp,
        Sig::Cont,
        Sig::Ttin,
        Sig::Ttou,
        Sig::Vtalrm,
        Sig::Prof,
        Sig::Xcpu,
        Sig::Xfsz,
        Sig::Rt0,
        Sig::Rt1,
        Sig::Rt2,
        Sig::Rt3,
        Sig::Rt4,
        Sig::Rt5,
        Sig::Rt6,
        Sig::Rt7,
    ];

    /// The signal of a number, `None` exactly where it is not 1 to 39.
    #[tactic(auto, unfolding(crate::specs::Signals::signal_of_number))]
    pub fn from_number(n: u64) -> Option<Sig>
        ensures { result ≡ signal_of_number n }
    {
        tables::entry_at(&Sig::ALL, n)
    }

    /// The signal's number, 1 to 39.
    #[tactic(auto, unfolding(crate::specs::Signals::signal_number))]
    pub fn number(self) -> u64
        ensures value { result ≡ signal_number self }
        ensures range { (1 ≤ result) × (result ≤ signal_count) }
    {
        self as u64
    }

    /// The signal of a name with or without `SIG`, as `b"HUP"` or `b"SIGHUP"`; `None` exactly where no signal has
    /// that name.
    #[tactic(auto, unfolding(crate::specs::Signals::signal_of_name))]
    pub fn from_name(name: &[u8]) -> Option<Sig>
        ensures { result ≡ signal_of_name name.now }
    {
        Sig::ALL
            .iter()
            .copied()
            .find(|signal| signal.is_named(name))
    }

    /// The signal's name, with `SIG`.
    #[tactic(auto, unfolding(crate::specs::Signals::signal_name))]
    pub fn name(self) -> &'static str
        ensures value { result.now ≡ signal_name self }
        ensures prefix { 3 ≤ length result.now }
    {
        match self {
            Sig::Hup => "SIGHUP",
            Sig::Int => "SIGINT",
            Sig::Quit => "SIGQUIT",
            Sig::Ill => "SIGILL",
            Sig::Trap => "SIGTRAP",
            Sig::Abrt => "SIGABRT",
            Sig::Emt => "SIGEMT",
            Sig::Fpe => "SIGFPE",
            Sig::Kill => "SIGKILL",
            Sig::Bus => "SIGBUS",
            Sig::Segv => "SIGSEGV",
            Sig::Sys => "SIGSYS",
            Sig::Pipe => "SIGPIPE",
            Sig::Alrm => "SIGALRM",
            Sig::Term => "SIGTERM",
            Sig::Usr1 => "SIGUSR1",
            Sig::Usr2 => "SIGUSR2",
            Sig::Cld => "SIGCLD",
            Sig::Pwr => "SIGPWR",
            Sig::Winch => "SIGWINCH",
            Sig::Urg => "SIGURG",
            Sig::Poll => "SIGPOLL",
            Sig::Stop => "SIGSTOP",
            Sig::Tstp => "SIGTSTP",
            Sig::Cont => "SIGCONT",
            Sig::Ttin => "SIGTTIN",
            Sig::Ttou => "SIGTTOU",
            Sig::Vtalrm => "SIGVTALRM",
            Sig::Prof => "SIGPROF",
            Sig::Xcpu => "SIGXCPU",
            Sig::Xfsz => "SIGXFSZ",
            Sig::Rt0 => "SIGRT0",
            Sig::Rt1 => "SIGRT1",
            Sig::Rt2 => "SIGRT2",
            Sig::Rt3 => "SIGRT3",
            Sig::Rt4 => "SIGRT4",
            Sig::Rt5 => "SIGRT5",
            Sig::Rt6 => "SIGRT6",
            Sig::Rt7 => "SIGRT7",
        }
    }

    /// What the signal does to a process that neither catches nor ignores it.
    #[tactic(auto, unfolding(crate::specs::Signals::default_action))]
    pub fn def_act(self) -> DefAct
        ensures { result ≡ default_action self }
    {
        match self {
            Sig::Cld | Sig::Pwr | Sig::Winch | Sig::Urg | Sig::Cont => DefAct::Ignore,
            Sig::Stop | Sig::Tstp | Sig::Ttin | Sig::Ttou => DefAct::Stop,
            _ => DefAct::Die,
        }
    }

    fn is_named(self, name: &[u8]) -> bool
        ensures { result ≡ is_named name.now self }
    {
        let whole = self.name().as_bytes();
        name == whole || name == &whole[3..]
    }
}

impl Numbered for Sig {
    const COUNT: usize = SIGNAL_COUNT;

    ghost COUNT = { signal_count };

    ghost table = { signals };

    ghost number_of = { signal_number };

    ghost of_number = { signal_of_number };

    ghost of_name = { signal_of_name };

    #[tactic(auto, using(crate::proofs::NumberedLemmas::tables_counted))]
    fn entries<'a>() -> &'a [Sig] {
        &Sig::ALL
    }

    fn number(self) -> u64 {
        Sig::number(self)
    }

    #[tactic(auto, unfolding(crate::specs::Signals::signal_of_number))]
    fn from_number(n: u64) -> Option<Sig> {
        Sig::from_number(n)
    }

    fn from_name(name: &[u8]) -> Option<Sig> {
        Sig::from_name(name)
    }

    ghost fits = { lit≤ tt };
}

ghost use Rattle.std.specs.Prelude.{◌≡◌, ◌≤◌};
ghost use Rattle.std.proofs.Common.{lit≤};
ghost use Rattle.pr_num.specs.Syscalls.{syscalls, syscall_of_number, syscall_of_name, syscall_number, syscall_name, syscall_args, is_fork_call, may_sleep};
ghost use Rattle.pr_num.specs.Limits.{syscall_count};

use crate::limits::SYSCALL_COUNT;
use crate::numbered::Numbered;
use crate::tables;

/// How an argument of a system call is written (truss(1)).
#[derive(Clone, Copy, Debug, PartialEq, Eq)]
pub enum ArgKind {
    /// A decimal number.
    Dec,
    /// A hexadecimal number.
    Hex,
    /// The address of a text that a zero byte ends.
    Text,
    /// The address of a buffer.
    Buf,
}

/// A system call (Intro(2)), with numbers of this project's own.
#[derive(Clone, Copy, Debug, PartialEq, Eq)]
pub enum Sysno {
    /// Ends the process.
    Exit = 1,
    /// Makes a child process.
    Fork = 2,
    /// Reads from a descriptor.
    Read = 3,
    /// Writes to a descriptor.
    Write = 4,
    /// Opens a file.
    Open = 5,
    /// Closes a descriptor.
    Close = 6,
    /// Waits for a child to end.
    Wait = 7,
    /// The id of the process.
    Getpid = 8,
    /// The id of the parent.
    Getppid = 9,
    /// Runs another program in the process.
    Exec = 10,
    /// Makes a pipe.
    Pipe = 11,
    /// Copies a descriptor.
    Dup = 12,
    /// Moves the offset of a file.
    Lseek = 13,
    /// Sends a signal to a process.
    Kill = 14,
    /// Sets the disposition of a signal.
    Sigaction = 15,
    /// Sets the held signals of the lwp.
    Sigmask = 16,
    /// Waits for a signal.
    Pause = 17,
    /// Returns from a signal handler.
    Sigreturn = 18,
    /// Moves the end of the heap.
    Brk = 19,
    /// Maps fresh memory.
    Mmap = 20,
    /// Removes a mapping.
    Munmap = 21,
    /// Sets the protection of a mapping.
    Mprotect = 22,
    /// The clock.
    Time = 23,
    /// Waits for a number of milliseconds.
    Sleep = 24,
    /// Makes an lwp.
    LwpCreate = 25,
    /// Ends the lwp.
    LwpExit = 26,
    /// Suspends an lwp.
    LwpSuspend = 27,
    /// Continues a suspended lwp.
    LwpContinue = 28,
    /// What a descriptor stands for.
    Fstat = 29,
    /// Sends a signal with a value to a process.
    Sigqueue = 30,
    /// Makes a child process that borrows the address space.
    Vfork = 31,
}

impl Sysno {
    /// Every call, in the order of its number.
    pub const ALL: [Sysno; SYSCALL_COUNT] = [
        Sysno::Exit,
        Sysno::Fork,
        Sysno::Read,
        Sysno::Write,
        Sysno::Open,
        Sysno::Close,
        Sysno::Wait,
        Sysno::Getpid,
        Sysno::Getppid,
        Sysno::Exec,
        Sysno::Pipe,
        Sysno::Dup,
        Sysno::Lseek,
        Sysno::Kill,
        Sysno::Sigaction,
        Sysno::Sigmask,
        Sysno::Pause,
        Sysno::Sigreturn,
        Sysno::Brk,
        Sysno::Mmap,
        Sysno::Munmap,
        Sysno::Mprotect,
        Sysno::Time,
        Sysno::Sleep,
        Sysno::LwpCreate,
        Sysno::LwpExit,
        Sysno::LwpSuspend,
        Sysno::LwpContinue,
        Sysno::Fstat,
        Sysno::Sigqueue,
        Sysno::Vfork,
    ];

    /// The call of a number, `None` exactly where it is not 1 to 31.
    #[tactic(auto, unfolding(crate::specs::Syscalls::syscall_of_number))]
    pub fn from_number(n: u64) -> Option<Sysno>
        ensures { result ≡ syscall_of_number n }
    {
        tables::entry_at(&Sysno::ALL, n)
    }

    /// The call's number, 1 to 31.
    #[tactic(auto, unfolding(crate::specs::Syscalls::syscall_number))]
    pub fn number(self) -> u64
        ensures value { result ≡ syscall_number self }
        ensures range { (1 ≤ result) × (result ≤ syscall_count) }
    {
        self as u64
    }

    /// The call of a name, as `b"fork"`; `None` exactly where no call has that name.
    #[tactic(auto, unfolding(crate::specs::Syscalls::syscall_of_name))]
    pub fn from_name(name: &[u8]) -> Option<Sysno>
        ensures { result ≡ syscall_of_name name.now }
    {
        Sysno::ALL
            .iter()
            .copied()
            .find(|c| name == c.name().as_bytes())
    }

    /// The call's name, as `"exit"`.
    #[tactic(auto, unfolding(crate::specs::Syscalls::syscall_name))]
    pub fn name(self) -> &'static str
        ensures { result.now ≡ syscall_name self }
    {
        match self {
            Sysno::Exit => "exit",
            Sysno::Fork => "fork",
            Sysno::Read => "read",
            Sysno::Write => "write",
            Sysno::Open => "open",
            Sysno::Close => "close",
            Sysno::Wait => "wait",
            Sysno::Getpid => "getpid",
            Sysno::Getppid => "getppid",
            Sysno::Exec => "exec",
            Sysno::Pipe => "pipe",
            Sysno::Dup => "dup",
            Sysno::Lseek => "lseek",
            Sysno::Kill => "kill",
            Sysno::Sigaction => "sigaction",
            Sysno::Sigmask => "sigmask",
            Sysno::Pause => "pause",
            Sysno::Sigreturn => "sigreturn",
            Sysno::Brk => "brk",
            Sysno::Mmap => "mmap",
            Sysno::Munmap => "munmap",
            Sysno::Mprotect => "mprotect",
            Sysno::Time => "time",
            Sysno::Sleep => "sleep",
            Sysno::LwpCreate => "lwp_create",
            Sysno::LwpExit => "lwp_exit",
            Sysno::LwpSuspend => "lwp_suspend",
            Sysno::LwpContinue => "lwp_continue",
            Sysno::Fstat => "fstat",
            Sysno::Sigqueue => "sigqueue",
            Sysno::Vfork => "vfork",
        }
    }

    /// The kinds of the call's arguments, in their order.
    #[tactic(auto, unfolding(crate::specs::Syscalls::syscall_args))]
    pub fn args(self) -> &'static [ArgKind]
        ensures { result.now ≡ syscall_args self }
    {
        match self {
            Sysno::Exit => &[ArgKind::Dec],
            Sysno::Fork => &[],
            Sysno::Read => &[ArgKind::Dec, ArgKind::Buf, ArgKind::Dec],
            Sysno::Write => &[ArgKind::Dec, ArgKind::Buf, ArgKind::Dec],
            Sysno::Open => &[ArgKind::Text, ArgKind::Dec],
            Sysno::Close => &[ArgKind::Dec],
            Sysno::Wait => &[ArgKind::Hex],
            Sysno::Getpid => &[],
            Sysno::Getppid => &[],
            Sysno::Exec => &[ArgKind::Hex],
            Sysno::Pipe => &[ArgKind::Hex],
            Sysno::Dup => &[ArgKind::Dec],
            Sysno::Lseek => &[ArgKind::Dec, ArgKind::Dec],
            Sysno::Kill => &[ArgKind::Dec, ArgKind::Dec],
            Sysno::Sigaction => &[ArgKind::Dec, ArgKind::Hex],
            Sysno::Sigmask => &[ArgKind::Hex],
            Sysno::Pause => &[],
            Sysno::Sigreturn => &[],
            Sysno::Brk => &[ArgKind::Hex],
            Sysno::Mmap => &[ArgKind::Dec, ArgKind::Dec],
            Sysno::Munmap => &[ArgKind::Hex, ArgKind::Dec],
            Sysno::Mprotect => &[ArgKind::Hex, ArgKind::Dec, ArgKind::Dec],
            Sysno::Time => &[],
            Sysno::Sleep => &[ArgKind::Dec],
            Sysno::LwpCreate => &[ArgKind::Hex, ArgKind::Hex, ArgKind::Dec],
            Sysno::LwpExit => &[],
            Sysno::LwpSuspend => &[ArgKind::Dec],
            Sysno::LwpContinue => &[ArgKind::Dec],
            Sysno::Fstat => &[ArgKind::Dec, ArgKind::Hex],
            Sysno::Sigqueue => &[ArgKind::Dec, ArgKind::Dec, ArgKind::Dec],
            Sysno::Vfork => &[],
        }
    }

    /// Whether the call makes a child that begins on its way out of that same call (fork(2), vfork(2)).
    #[tactic(auto, unfolding(crate::specs::Syscalls::is_fork_call))]
    pub fn is_fork_call(self) -> bool
        ensures { result ≡ is_fork_call self }
    {
        matches!(self, Sysno::Fork | Sysno::Vfork)
    }

    /// Whether the call can put its lwp to sleep.
    #[tactic(auto, unfolding(crate::specs::Syscalls::may_sleep))]
    pub fn may_sleep(self) -> bool
        ensures { result ≡ may_sleep self }
    {
        matches!(
            self,
            Sysno::Read | Sysno::Write | Sysno::Wait | Sysno::Pause | Sysno::Sleep
        )
    }
}

impl Numbered for Sysno {
    const COUNT: usize = SYSCALL_COUNT;

    ghost COUNT = { syscall_count };

    ghost table = { syscalls };

    ghost number_of = { syscall_number };

    ghost of_number = { syscall_of_number };

    ghost of_name = { syscall_of_name };

    #[tactic(auto, using(crate::proofs::NumberedLemmas::tables_counted))]
    fn entries<'a>() -> &'a [Sysno] {
        &Sysno::ALL
    }

    fn number(self) -> u64 {
        Sysno::number(self)
    }

    #[tactic(auto, unfolding(crate::specs::Syscalls::syscall_of_number))]
    fn from_number(n: u64) -> Option<Sysno> {
        Sysno::from_number(n)
    }

    fn from_name(name: &[u8]) -> Option<Sysno> {
        Sysno::from_name(name)
    }

    ghost fits = { lit≤ tt };
}

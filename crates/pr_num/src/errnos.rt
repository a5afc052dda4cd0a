ghost use Rattle.std.specs.Prelude.{◌≡◌};
ghost use Rattle.pr_num.specs.Errnos.{errno_of_number, errno_of_name, errno_number, errno_name};

/// Why a call was refused (Intro(2)), with the numbers of Solaris.
#[derive(Clone, Copy, Debug, PartialEq, Eq)]
pub enum Errno {
    /// Not permitted.
    Perm = 1,
    /// No such file, program or process.
    Noent = 2,
    /// No such process or lwp.
    Srch = 3,
    /// Interrupted system call.
    Intr = 4,
    /// Input or output error.
    Io = 5,
    /// Bad file descriptor.
    Badf = 9,
    /// No child processes.
    Child = 10,
    /// No more processes or lwps.
    Again = 11,
    /// Not enough space.
    Nomem = 12,
    /// Bad address.
    Fault = 14,
    /// Resource busy.
    Busy = 16,
    /// Invalid argument.
    Inval = 22,
    /// Too many files in the system.
    Nfile = 23,
    /// Too many open files in the process.
    Mfile = 24,
    /// No space left.
    Nospc = 28,
    /// Illegal seek.
    Spipe = 29,
    /// Broken pipe.
    Pipe = 32,
    /// Not supported.
    Notsup = 48,
}

impl Errno {
    /// Every errno, in the order of its number.
    pub const ALL: [Errno; 18] = [
        Errno::Perm,
        Errno::Noent,
        Errno::Srch,
        Errno::Intr,
        Errno::Io,
        Errno::Badf,
        Errno::Child,
        Errno::Again,
        Errno::Nomem,
        Errno::Fault,
        Errno::Busy,
        Errno::Inval,
        Errno::Nfile,
        Errno::Mfile,
        Errno::Nospc,
        Errno::Spipe,
        Errno::Pipe,
        Errno::Notsup,
    ];

    /// The errno of a number, `None` exactly where no errno has it.
    #[tactic(auto, unfolding(crate::specs::Errnos::errno_of_number))]
    pub fn from_number(n: u64) -> Option<Errno>
        ensures { result ≡ errno_of_number n }
    {
        Errno::ALL.iter().copied().find(|e| e.number() == n)
    }

    /// The errno's number, as the table gives it, 1 to 48 with gaps.
    #[tactic(auto, unfolding(crate::specs::Errnos::errno_number))]
    pub fn number(self) -> u64
        ensures { result ≡ errno_number self }
    {
        self as u64
    }

    /// The errno of a name, as `b"EPERM"`; `None` exactly where no errno has that name.
    #[tactic(auto, unfolding(crate::specs::Errnos::errno_of_name))]
    pub fn from_name(name: &[u8]) -> Option<Errno>
        ensures { result ≡ errno_of_name name.now }
    {
        Errno::ALL
            .iter()
            .copied()
            .find(|e| name == e.name().as_bytes())
    }

    /// The errno's name, as `"EPERM"`.
    #[tactic(auto, unfolding(crate::specs::Errnos::errno_name))]
    pub fn name(self) -> &'static str
        ensures { result.now ≡ errno_name self }
    {
        match self {
            Errno::Perm => "EPERM",
            Errno::Noent => "ENOENT",
            Errno::Srch => "ESRCH",
            Errno::Intr => "EINTR",
            Errno::Io => "EIO",
            Errno::Badf => "EBADF",
            Errno::Child => "ECHILD",
            Errno::Again => "EAGAIN",
            Errno::Nomem => "ENOMEM",
            Errno::Fault => "EFAULT",
            Errno::Busy => "EBUSY",
            Errno::Inval => "EINVAL",
            Errno::Nfile => "ENFILE",
            Errno::Mfile => "EMFILE",
            Errno::Nospc => "ENOSPC",
            Errno::Spipe => "ESPIPE",
            Errno::Pipe => "EPIPE",
            Errno::Notsup => "ENOTSUP",
        }
    }
}

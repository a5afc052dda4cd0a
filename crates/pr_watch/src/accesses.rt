ghost use Rattle.std.specs.Prelude.{◌≡◌, ◌↔◌, Some, IfSome, is_some};
ghost use Rattle.pr_watch.specs.Accesses.{access_flag, is_access_flag};

/// What an access to memory does, as far as areas are watched for it (proc(4), "PCWATCH").
#[derive(Clone, Copy, Debug, PartialEq, Eq)]
pub enum AccessKind {
    /// It reads bytes (WA_READ).
    Read,
    /// It writes bytes (WA_WRITE).
    Write,
    /// It fetches an instruction (WA_EXEC).
    Exec,
}

impl AccessKind {
    /// The flag of areas that are watched for it.
    pub fn flag(self) -> u8
        ensures { result ≡ access_flag self }
    {
        match self {
            AccessKind::Read => 1,
            AccessKind::Write => 2,
            AccessKind::Exec => 4,
        }
    }

    /// The kind of access of a flag, `None` exactly where it is none of these flags.
    pub fn of_flag(flag: u8) -> Option<AccessKind>
        ensures kind { IfSome result (λ kind. access_flag kind ≡ flag) }
        ensures known { is_some result ≡ is_access_flag flag }
    {
        match flag {
            1 => Some(AccessKind::Read),
            2 => Some(AccessKind::Write),
            4 => Some(AccessKind::Exec),
            _ => None,
        }
    }
}

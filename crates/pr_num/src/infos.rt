ghost use Rattle.std.specs.Prelude.{◌≡◌};

/// What comes with a signal (siginfo.h(3HEAD), `si_code`, `si_pid`, `si_value`). What a kind of sender does not give
/// is 0.
#[derive(Clone, Copy, Debug, PartialEq, Eq)]
pub struct Info {
    /// How the signal came: one of the codes below, or 0 where there is no signal.
    pub code: u64,
    /// The process that sent it, or the child that it tells of; 0 from outside.
    pub pid: u64,
    /// The value that was sent, the wait status of a child, or the address of a fault.
    pub value: u64,
}

impl Info {
    ghost use Rattle.pr_num.specs.Infos.{no_info, killed_by, queued_by, of_child, of_broken_pipe, of_fault, by_controller};

    /// Sent by kill(2), by a process or from outside.
    pub const KILL: u64 = 1;
    /// Sent with a value, by sigqueue(3C).
    pub const QUEUE: u64 = 2;
    /// Sent by the kernel, as for a child or a broken pipe.
    pub const KERNEL: u64 = 3;
    /// Sent by a fault that the lwp incurred.
    pub const FAULT: u64 = 4;
    /// Sent by a controller.
    pub const CONTROLLER: u64 = 5;

    /// What stands where there is no signal.
    pub fn none() -> Info
        ensures { result ≡ no_info }
    {
        Info {
            code: 0,
            pid: 0,
            value: 0,
        }
    }

    /// Sent by kill(2), by a process of this id; from outside the id is 0.
    pub fn killed_by(pid: u32) -> Info
        ensures { result ≡ killed_by pid }
    {
        Info {
            code: Info::KILL,
            pid: pid as u64,
            value: 0,
        }
    }

    /// Sent with a value, by a process of this id.
    pub fn queued_by(pid: u32, value: u64) -> Info
        ensures { result ≡ queued_by pid value }
    {
        Info {
            code: Info::QUEUE,
            pid: pid as u64,
            value,
        }
    }

    /// Told by the kernel of a child that ended with this wait status.
    pub fn of_child(pid: u32, status: u64) -> Info
        ensures { result ≡ of_child pid status }
    {
        Info {
            code: Info::KERNEL,
            pid: pid as u64,
            value: status,
        }
    }

    /// Told by the kernel of a pipe that no process reads.
    pub fn of_broken_pipe() -> Info
        ensures { result ≡ of_broken_pipe }
    {
        Info {
            code: Info::KERNEL,
            pid: 0,
            value: 0,
        }
    }

    /// Sent by a fault at an address.
    pub fn of_fault(address: u64) -> Info
        ensures { result ≡ of_fault address }
    {
        Info {
            code: Info::FAULT,
            pid: 0,
            value: address,
        }
    }

    /// Sent by a controller.
    pub fn by_controller() -> Info
        ensures { result ≡ by_controller }
    {
        Info {
            code: Info::CONTROLLER,
            pid: 0,
            value: 0,
        }
    }
}

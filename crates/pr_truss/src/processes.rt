ghost use Rattle.std.specs.Prelude.{◌≡◌};
ghost use Rattle.pr_truss.specs.Processes.{newly_traced, last_handle, without_last};

use crate::marks::Marks;
use pr_model::number_of;

/// A process that truss traces, with the handles of its files in the order of their opening.
#[derive(Clone, Copy)]
pub struct Traced {
    pub pid: u32,
    pub control: u32,
    pub status: Option<u32>,
    pub lstatus: Option<u32>,
    pub memory: Option<u32>,
    /// Whether it stopped for truss, or as a child has all its files open, so that truss has to leave it in order. Its
    /// opening may still be going on.
    pub attached: bool,
    /// How many of its next stops are not reported: those that stood before truss came.
    pub old: u64,
    /// Whether the stop on which it stands was looked at already, so that it is not reported again.
    pub seen: bool,
    /// The breakpoints that truss has in it (`-u`).
    pub marks: Marks,
}

impl Traced {
    /// A process of which just the control file is open.
    #[tactic(auto, unfolding(crate::specs::Processes::newly_traced))]
    pub(crate) fn new(pid: u32, control: u32) -> Traced
        ensures { result ≡ newly_traced pid control }
    {
        Traced {
            pid,
            control,
            status: None,
            lstatus: None,
            memory: None,
            attached: false,
            old: 0,
            seen: false,
            marks: Marks::none(),
        }
    }

    /// The handle of the file that was opened last.
    #[tactic(auto, unfolding(crate::specs::Processes::last_handle))]
    pub(crate) fn last_handle(&self) -> u32
        ensures { result ≡ last_handle self.now }
    {
        if self.memory.is_some() {
            number_of(self.memory)
        } else if self.lstatus.is_some() {
            number_of(self.lstatus)
        } else if self.status.is_some() {
            number_of(self.status)
        } else {
            self.control
        }
    }

    /// The process without the file that was opened last; `None` where no file is left.
    #[tactic(auto, unfolding(crate::specs::Processes::without_last))]
    pub(crate) fn without_last(self) -> Option<Traced>
        ensures { result ≡ without_last self }
    {
        if self.memory.is_some() {
            Some(Traced {
                memory: None,
                ..self
            })
        } else if self.lstatus.is_some() {
            Some(Traced {
                lstatus: None,
                ..self
            })
        } else if self.status.is_some() {
            Some(Traced {
                status: None,
                ..self
            })
        } else {
            None
        }
    }
}

//! How truss closes the files of a process, and what comes then.
ghost use Rattle.std.specs.Prelude.{◌≡◌};
ghost use Rattle.pr_truss.specs.Closings.{with_next_left, with_going_on, with_next_opening, with_interrupt, with_closing, after_closing, with_closed};

use crate::Truss;
use crate::stages::{AfterClosing, Stage};

impl Truss {
    /// Leaves the first process, if one is traced.
    #[tactic(auto, unfolding(crate::specs::Closings::with_next_left))]
    fn leave_next(&mut self)
        ensures { self.new.state ≡ with_next_left self.old.state }
    {
        let stage = match self.traced.get(0) {
            None => Stage::Finished,
            Some(traced) if traced.attached => Stage::Unfollowing,
            Some(_) => Stage::Closing {
                place: 0,
                next: AfterClosing::GoOn,
            },
        };
        self.go_to(stage);
    }

    /// Waits for a process, or leaves the next one.
    #[tactic(auto, unfolding(crate::specs::Closings::with_going_on))]
    pub(crate) fn go_on(&mut self)
        ensures { self.new.state ≡ with_going_on self.old.state }
    {
        if self.leaving {
            self.leave_next();
        } else if self.traced.is_empty() {
            self.go_to(Stage::Finished);
        } else {
            self.go_to(Stage::Polling);
        }
    }

    /// Opens the next process that the options name, or goes on.
    #[tactic(auto, unfolding(crate::specs::Closings::with_next_opening))]
    pub(crate) fn open_next(&mut self)
        ensures { self.new.state ≡ with_next_opening self.old.state }
    {
        match self.options.pids.as_slice().get(self.begun) {
            None => self.go_on(),
            Some(pid) => {
                self.stage = Stage::OpeningControl { pid: *pid };
                self.begun += 1;
            }
        }
    }

    /// Leaves all processes from now on.
    #[tactic(auto, unfolding(crate::specs::Closings::with_interrupt))]
    pub(crate) fn interrupt(&mut self)
        ensures { self.new.state ≡ with_interrupt self.old.state }
    {
        self.leaving = true;
        self.leave_next();
    }

    /// Closes the files of a process that has ended, or that truss leaves.
    pub(crate) fn close(&mut self, place: usize)
        ensures { self.new.state ≡ with_closing self.old.state place }
    {
        self.go_to(Stage::Closing {
            place,
            next: AfterClosing::GoOn,
        });
    }

    /// Goes on after the last file of a process was closed.
    #[tactic(auto, unfolding(crate::specs::Closings::after_closing))]
    fn after_closing(&mut self, next: AfterClosing)
        ensures { self.new.state ≡ after_closing self.old.state next }
    {
        match next {
            AfterClosing::OpenNext => self.open_next(),
            AfterClosing::GoOn => self.go_on(),
            AfterClosing::RunParent { parent } => self.go_to(Stage::Running { place: parent }),
        }
    }

    /// A file of a process was closed.
    #[tactic(auto, unfolding(crate::specs::Closings::with_closed))]
    pub(crate) fn feed_closed(&mut self, place: usize, next: AfterClosing)
        ensures { self.new.state ≡ with_closed self.old.state place next }
    {
        match self.traced_at(place).without_last() {
            Some(traced) => self.set_traced(place, traced),
            None => {
                self.remove_traced(place);
                self.after_closing(next);
            }
        }
    }
}

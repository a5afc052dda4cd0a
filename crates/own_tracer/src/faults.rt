//! Which writes are to fail.
ghost use Rattle.std.specs.Prelude.{◌≡◌, ◌==◌};
ghost use Rattle.own_tracer.specs.Faults.{after_order, every_nth, order_of};

use crate::orders::Order;

/// The faults that are still to be injected. Plain numbers: contracts see the struct as it is.
#[derive(Clone, Copy, Debug, PartialEq, Eq)]
pub struct Faults {
    /// Each write of this many fails: 2 is every second one.
    pub every: u32,
    /// How many writes pass before the next one fails.
    pub passing: u32,
    /// How many are still to fail.
    pub left: u32,
}

impl Faults {
    /// One write of so many fails, until so many have failed.
    pub fn new(every: u32, left: u32) -> Faults
        ensures { result ≡ every_nth every left }
    {
        Faults {
            every,
            passing: every.saturating_sub(1),
            left,
        }
    }

    /// What is done with the process, which stands at the entry of a write.
    pub fn order(&self) -> Order
        ensures { result ≡ order_of self.now }
    {
        if self.passing == 0 {
            Order::Abort
        } else {
            Order::Run
        }
    }

    /// Counts an order. One that was not taken is the last: the process has ended.
    pub fn count(&mut self, taken: bool)
        ensures { self.new ≡ after_order taken self.old }
    {
        if !taken {
            self.left = 0;
        } else if self.passing == 0 {
            self.passing = self.every.saturating_sub(1);
            self.left = self.left.saturating_sub(1);
        } else {
            self.passing -= 1;
        }
    }

    /// Whether all is done.
    pub fn are_done(&self) -> bool
        ensures { result ≡ (self.now.left == 0) }
    {
        self.left == 0
    }
}

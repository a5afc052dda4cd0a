ghost use Rattle.std.specs.Prelude.{◌≡◌, ◌≤◌, ◌<◌, ◌-◌, List, [], ◌∷◌, ◌++◌, length, take, slice_get, option_copied};
ghost use Rattle.pr_num.specs.Limits.{frame_limit};

use arrayvec::ArrayVec;
use pr_num::SigSet;
use pr_num::limits::FRAME_LIMIT;
use std::marker::Model;

/// What a signal handler interrupted, and comes back with sigreturn.
#[derive(Clone, Copy, Debug, PartialEq, Eq)]
pub struct Frame {
    /// r0 to r7, sp, fp and pc.
    pub regs: [u64; 11],
    /// The held set.
    pub held: SigSet,
}

impl Default for Frame {
    ghost use Rattle.std.specs.Prelude.{◌≡◌, replicate};

    ghost is_default = { λ frame. frame ≡ record { regs = replicate 11 0; held = 0 } };

    fn default() -> Frame {
        Frame {
            regs: [0; 11],
            held: SigSet::empty(),
        }
    }
}

/// The frames of an lwp's signal handlers, the latest last: at most 32, kept in place, and seen by contracts as their
/// list.
#[derive(Drop)]
pub struct Frames {
    items: ArrayVec<Frame, FRAME_LIMIT>,
}

impl Model for Frames {
    ghost use Rattle.std.specs.Prelude.{List};
    ghost use Rattle.pr_model.specs.declared.frames.Frame.{Frame};

    ghost Value = { List Frame };

    ghost view = { λ a. a.items.items };
}

impl Frames {
    /// How many frames there can be.
    pub const MAX: usize = FRAME_LIMIT;

    /// No frames.
    pub fn new() -> Frames
        ensures { result ≡ [] }
    {
        Frames {
            items: ArrayVec::new(),
        }
    }

    /// How many frames there are, at most 32.
    pub fn len(&self) -> usize
        ensures value { result ≡ length self.now }
        ensures limit { length self.now ≤ frame_limit }
    {
        self.items.len()
    }

    /// Puts a frame behind the others.
    pub fn push(&mut self, frame: Frame)
        requires { length self.old < frame_limit }
        ensures { self.new ≡ self.old ++ frame ∷ [] }
    {
        self.items.push(frame);
    }

    /// Takes the last frame away and answers it, if there is one.
    pub fn pop(&mut self) -> Option<Frame>
        ensures last { result ≡ slice_get self.old (length self.old - 1) }
        ensures front { self.new ≡ take (length self.old - 1) self.old }
    {
        self.items.pop()
    }
}

//! What truss does about breakpoints (`-u`) before the call of its stage.
ghost use Rattle.std.specs.Prelude.{◌≡◌};
ghost use Rattle.pr_truss.specs.Asides.{patching};

use crate::marks::{FunctionSet, first_function};

/// What comes before the call of the stage. A place is that of a process in the list of those that truss traces.
#[derive(Clone, Copy)]
pub enum Aside {
    /// Nothing. So it is throughout where truss shows no calls of functions.
    Nothing,
    /// It reads the first instruction of a function in a process that it opens.
    Reading {
        place: usize,
        function: usize,
    },
    /// It plants the breakpoint of that function.
    Planting {
        place: usize,
        function: usize,
    },
    /// It plants breakpoints, then lifts some, and at last, if it is to, clears the fault of the representative lwp.
    Patching {
        place: usize,
        plants: FunctionSet,
        lifts: FunctionSet,
        clear: bool,
    },
    /// It leaves the first process, and waits for the stop to which it has directed it.
    AwaitingStop {
        until: u64,
    },
    /// That wait was interrupted: it asks for it again.
    Asking,
    /// It waits again.
    AwaitingAgain {
        until: u64,
    },
}

impl Aside {
    /// Breakpoints are planted and lifted, and the fault is cleared; `Nothing` where nothing is to be done.
    #[tactic(auto, unfolding(crate::specs::Asides::patching))]
    pub(crate) fn patching(
        place: usize,
        plants: FunctionSet,
        lifts: FunctionSet,
        clear: bool,
    ) -> Aside
        ensures { result ≡ patching place plants lifts clear }
    {
        if first_function(&plants).is_some() || first_function(&lifts).is_some() || clear {
            Aside::Patching {
                place,
                plants,
                lifts,
                clear,
            }
        } else {
            Aside::Nothing
        }
    }
}

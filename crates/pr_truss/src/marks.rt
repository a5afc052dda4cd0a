//! What truss keeps of its breakpoints in a process (`-u`). A function is named by its place in the options' list.
ghost use Rattle.std.specs.Prelude.{◌≡◌, Bool, List};
ghost use Rattle.pr_truss.specs.Marks.{no_functions, with_function, without_function, has_function, first_function, no_marks, with_step, standing, put_back};

use pr_line::FUNCTION_LIMIT;
use pr_num::RunFlags;

/// A set of functions: for each place whether the function there is in the set.
pub type FunctionSet = [bool; FUNCTION_LIMIT];

/// The step of an lwp over the first instruction of a function, whose breakpoint is lifted meanwhile.
#[derive(Clone, Copy)]
pub struct Stepped {
    /// The function's place.
    pub function: usize,
    pub lwp: u32,
    /// r1 to r3 before the instruction.
    pub arguments: [u64; 3],
}

/// The breakpoints of truss in a process, and how the process is run next.
#[derive(Clone, Copy)]
pub struct Marks {
    /// The functions whose breakpoints are planted.
    pub planted: FunctionSet,
    /// Those that were lifted at the entry of a call that copies or replaces the memory, and are to be planted again at
    /// its exit.
    pub lifted: FunctionSet,
    /// The step that is under way.
    pub stepped: Option<Stepped>,
    /// The flags of the next PCRUN. `CFAULT` stands here from the stop at a fault of truss's own until that PCRUN was
    /// granted.
    pub flags: RunFlags,
}

/// No function.
pub(crate) fn no_functions() -> FunctionSet
    ensures { result ≡ no_functions }
{
    [false; FUNCTION_LIMIT]
}

/// A set with a function.
pub(crate) fn with_function(mut set: FunctionSet, place: usize) -> FunctionSet
    ensures { result ≡ with_function set place }
{
    if place < FUNCTION_LIMIT {
        set[place] = true;
    }
    set
}

/// A set without a function.
pub(crate) fn without_function(mut set: FunctionSet, place: usize) -> FunctionSet
    ensures { result ≡ without_function set place }
{
    if place < FUNCTION_LIMIT {
        set[place] = false;
    }
    set
}

/// Whether a function is in a set.
pub(crate) fn has_function(set: &FunctionSet, place: usize) -> bool
    ensures { result ≡ has_function set.now place }
{
    set.get(place).copied().unwrap_or(false)
}

/// The first function of a set.
pub(crate) fn first_function(set: &FunctionSet) -> Option<usize>
    ensures { result ≡ first_function set.now }
{
    set.iter().position(|is_in| *is_in)
}

/// A set with the function that is being stepped, if there is one.
fn with_step(stepped: Option<Stepped>, set: FunctionSet) -> FunctionSet
    ensures { result ≡ with_step stepped set }
{
    match stepped {
        None => set,
        Some(step) => with_function(set, step.function),
    }
}

impl Marks {
    /// No breakpoint, and nothing under way.
    pub(crate) fn none() -> Marks
        ensures { result ≡ no_marks }
    {
        Marks {
            planted: no_functions(),
            lifted: no_functions(),
            stepped: None,
            flags: RunFlags::of_word(0),
        }
    }

    /// The functions whose breakpoints are planted; that of a function that is being stepped counts as planted.
    #[tactic(auto, unfolding(crate::specs::Marks::standing))]
    pub(crate) fn standing(&self) -> FunctionSet
        ensures { result ≡ standing self.now }
    {
        with_step(self.stepped, self.planted)
    }

    /// The functions to be planted again once the step is over.
    #[tactic(auto, unfolding(crate::specs::Marks::put_back))]
    pub(crate) fn put_back(&self) -> FunctionSet
        ensures { result ≡ put_back self.now }
    {
        with_step(self.stepped, no_functions())
    }

    /// The functions to be planted again at the exit of a call that copied or replaced the memory.
    pub(crate) fn all_back(&self) -> FunctionSet
        ensures { result ≡ with_step self.now.stepped self.now.lifted }
    {
        with_step(self.stepped, self.lifted)
    }
}

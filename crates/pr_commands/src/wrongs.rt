use pr_scen::ScenFault;

/// The first line of an input that is refused, counted from 1, and why; line 0 stands for the whole input.
#[derive(Clone, Copy, Debug, PartialEq, Eq)]
pub enum Wrong {
    /// A line of the scenario or of the programs, or the whole input.
    Scenario(ScenFault),
    /// A line of the history.
    History(u32),
    /// A line of the core.
    Core(u32),
}

/// Why an input in two parts was not read.
#[derive(Clone, Copy, Debug, PartialEq, Eq)]
pub enum Misread {
    Wrong(Wrong),
    NoMemory,
}

use crate::Script;
use pr_line::Options;
use pr_model::ToolKind;

/// A controller of a scenario.
#[derive(Drop)]
pub enum Plan {
    Script(Script),
    Truss(Options),
    /// A tool of a process; `ptree` goes with process 0.
    Tool(ToolKind, u32),
    /// gcore(1) of a process.
    Gcore(u32),
    /// pfiles of a process by an agent.
    Probe(u32),
}

ghost use Rattle.std.specs.Prelude.{◌≡◌};
ghost use Rattle.pr_model.specs.ToolNames.{is_tool_named, process_tool_of_name, tool_name};

/// A tool of proc(1) or pmap(1).
#[derive(Clone, Copy, Debug, PartialEq, Eq)]
pub enum ToolKind {
    /// The status of each lwp.
    Pflags,
    /// The dispositions of all signals.
    Psig,
    /// The call stack of each lwp.
    Pstack,
    /// The mappings.
    Pmap,
    /// The open descriptors.
    Pfiles,
    /// Stops a process.
    Pstop,
    /// Runs a stopped process.
    Prun,
    /// Waits for a process to end.
    Pwait,
    /// The tree of all processes.
    Ptree,
}

/// The tools of one process; `ptree` is of all.
const PROCESS_TOOLS: [ToolKind; 8] = [
    ToolKind::Pflags,
    ToolKind::Psig,
    ToolKind::Pstack,
    ToolKind::Pmap,
    ToolKind::Pfiles,
    ToolKind::Pstop,
    ToolKind::Prun,
    ToolKind::Pwait,
];

/// The name of a tool, as `"pmap"`.
#[tactic(auto, unfolding(crate::specs::ToolNames::tool_name))]
pub fn tool_name(tool: ToolKind) -> &'static str
    ensures { result.now ≡ tool_name tool }
{
    match tool {
        ToolKind::Pflags => "pflags",
        ToolKind::Psig => "psig",
        ToolKind::Pstack => "pstack",
        ToolKind::Pmap => "pmap",
        ToolKind::Pfiles => "pfiles",
        ToolKind::Pstop => "pstop",
        ToolKind::Prun => "prun",
        ToolKind::Pwait => "pwait",
        ToolKind::Ptree => "ptree",
    }
}

fn is_tool_named(name: &[u8], tool: ToolKind) -> bool
    ensures { result ≡ is_tool_named name.now tool }
{
    name == tool_name(tool).as_bytes()
}

/// The tool of one process of a name, as `b"pmap"`; `None` exactly where none has that name.
#[tactic(auto, unfolding(crate::specs::ToolNames::process_tool_of_name))]
pub fn process_tool_of_name(name: &[u8]) -> Option<ToolKind>
    ensures { result ≡ process_tool_of_name name.now }
{
    PROCESS_TOOLS
        .iter()
        .copied()
        .find(|tool| is_tool_named(name, *tool))
}

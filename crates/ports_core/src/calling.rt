use crate::Tool;

/// How the program was called.
#[derive(Clone, Copy, Debug, PartialEq, Eq)]
pub enum Calling {
    /// By its own name, with the tool's name as its first word.
    Cutters,
    /// By the tool's name, as through a link: it stands in for the system's tool.
    OwnName,
}

/// Who speaks in messages: a tool, and how it was called.
#[derive(Clone, Copy, Debug, PartialEq, Eq)]
pub struct Speaker {
    /// How the program was called.
    pub calling: Calling,
    /// The tool.
    pub tool: Tool,
}

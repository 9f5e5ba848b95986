//! What a list of words asks for.
use crate::csplit_settings::CsplitSettings;
use crate::ends_words::EndsSettings;
use crate::split_words::SplitSettings;
use crate::tail_words::TailSettings;
use crate::tee_words::TeeSettings;
use ports_core::Tool;

/// What a list of words asks for. Names are the words themselves.
#[derive(Drop)]
pub enum Settings<'a> {
    /// The first part of each input.
    Head(EndsSettings<'a>),
    /// The last part of each input, and what follows it.
    Tail(TailSettings<'a>),
    /// The input cut into files.
    Split(SplitSettings<'a>),
    /// The input cut into files where its lines match.
    Csplit(CsplitSettings<'a>),
    /// The input copied to several outputs.
    Tee(TeeSettings<'a>),
    /// A text about this tool, or the program, and nothing else.
    About(Tool, Topic),
}

/// What a text about a tool or the program says.
#[derive(Clone, Copy, PartialEq, Eq)]
pub enum Topic {
    /// How it is called.
    Help,
    /// Which version it is.
    Version,
}

/// When a header with its name goes before an input.
#[derive(Clone, Copy, PartialEq, Eq)]
pub enum Headers {
    /// If there are several inputs.
    ForSeveral,
    /// Before no input.
    Never,
    /// Before each input, also if there is only one.
    Always,
}

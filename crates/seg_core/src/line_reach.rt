//! Where a number of lines ends in a text.

/// Where a number of lines ends in a text.
#[derive(Clone, Copy, Debug, PartialEq, Eq)]
pub enum Reach {
    /// The text has at least as many complete lines as were asked for. They are its first bytes,
    /// this many.
    Ends(usize),
    /// The text has fewer delimiters. It has this many.
    Short(usize),
}

/// Where the text after a delimiter begins, if the delimiter is counted from the end.
#[derive(Clone, Copy, Debug, PartialEq, Eq)]
pub enum ReachBack {
    /// The text has at least as many delimiters. The part begins at this place, just after the delimiter that was asked for.
    Begins(usize),
    /// The text has fewer delimiters. It has this many.
    Short(usize),
}

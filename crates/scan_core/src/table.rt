//! A table of the sets that searches come to: for each set and each byte, the set that follows.

/// In place of the number of a set: the pattern's end is entered.
pub const STOP: u16 = 65_535;

/// In place of the number of a set: the table has no room for it.
pub const UNKNOWN: u16 = 65_534;

/// What is noted of a set of the table.
#[derive(Clone, Copy)]
pub struct State {
    /// How many positions it has.
    pub positions: usize,
    /// How many positions it has at the line's end.
    pub last_positions: usize,
    /// Whether the pattern's end is entered at the line's end.
    pub ends: bool,
    /// Whether every byte leads back to this set.
    pub is_fixed: bool,
}

/// The sets by number: the first is that of the line's front.
#[derive(Drop)]
pub struct Table {
    /// For each set 256 entries, one for each byte.
    pub rows: Vec<u16>,
    pub states: Vec<State>,
}

//! What goes wrong in a window.

use thiserror::Error;

/// The fault of a window that finds no room.
#[derive(Clone, Copy, Debug, PartialEq, Eq, Error)]
pub enum Fault {
    /// Memory was asked for and refused.
    #[error("memory exhausted")]
    Memory,
}

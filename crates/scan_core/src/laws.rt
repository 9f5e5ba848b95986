//! Laws of the definitions: what a pattern's code has to do with the pattern.

ghost use Rattle.std.specs.Prelude.{◌≡◌, ◌↔◌, ◌+◌, ◌≤◌, ℕ, List, length};
ghost use Rattle.bre_core.specs.{Match.Contains, Pattern.{Pattern, positions_of}};
ghost use Rattle.scan_core.specs.Code.{code_of, IsOrdered, Entered, weight};

/// A line contains a match exactly if the code's end is entered at some place of it.
pub fn end_is_entered()
    ensures { (pattern : Pattern) (line : List ℕ) → IsOrdered pattern
        → (Contains pattern line
        ↔ ((place : ℕ) × (place ≤ length line) × Entered (code_of pattern) line (length (code_of pattern)) place)) }
{}

/// The positions of a pattern's code, with its end, are those that are counted for the pattern.
#[tactic(auto, using(crate::proofs::Codes::weighs))]
pub fn code_has_positions()
    ensures { (pattern : Pattern) → IsOrdered pattern → weight (code_of pattern) + 1 ≡ positions_of pattern }
{}

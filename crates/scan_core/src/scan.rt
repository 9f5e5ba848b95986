//! Matching lines against a pattern.

ghost use Rattle.std.specs.Prelude.{◌≡◌, ◌<◌, ◌≤◌, ◌+◌, ◌-◌, ◌*◌, IsFalse, IsTrue, IfOk, IfErr, length};
ghost use Rattle.bre_core.specs.{Pattern.positions_of, Search.contains, declared.fault.BreFault.TheVariants.Memory};
ghost use Rattle.memchr.specs.Find.{Passes, is_byte};
ghost use Rattle.scan_core.specs.{Clear.IsClear, Code.code_of, Counted.{HasStepsBefore, IsStepCount}};

use crate::bre::Bre;
use crate::walk::Outcome;
use bre_core::BreFault;
use memchr::memrchr;
use std::alloc::Global;
use std::marker::Model;

/// What a line ends with.
const NEWLINE: u8 = b'\n';

/// Eleven bits.
const MOST_VAIN: u16 = 2047;

/// Room for matching lines against patterns with a given number of positions.
#[derive(Drop)]
pub struct Scan {
    /// How many positions there is room for.
    positions: u64,
    /// Room for a set of the numbers of a pattern's code.
    words: Vec<u64>,
    /// The steps of the last search.
    steps: u128,
    /// How many of the next calls of `clear_lines` return 0 without a look.
    resting: u16,
    /// A bit for each of the last looks that were in vain in turn, at most eleven.
    vain: u16,
}

impl Model for Scan {
    ghost use Rattle.std.specs.Prelude.{◌≡◌, ◌+◌, ◌*◌, ◌/◌, length};
    ghost use Rattle.scan_core.specs.ScanState.{ScanState};

    ghost Value = { ScanState };

    ghost view = { λ s. record { positions = s.positions; steps = s.steps } };

    ghost invariant = { λ s. length s.words.items ≡ 2 * s.positions / 64 + 1 };
}

impl Scan {
    /// Room for patterns of as many positions as this one. It takes one bit for each number of a node, of which there may be
    /// two for each position.
    ///
    /// # Errors
    ///
    /// `Memory` if there is no room.
    pub fn new(alloc: Global, bre: &Bre) -> Result<Scan, BreFault>
        ensures positions { IfOk result (λ scan. scan.positions ≡ positions_of bre.now) }
        ensures steps { IfOk result (λ scan. scan.steps ≡ 0) }
        ensures err { IfErr result (λ fault. fault ≡ Memory) }
    {
        let positions = bre.positions();
        let words = vec![in alloc; 0u64; 2 * positions as usize / 64 + 1]?;
        Ok(Scan {
            positions,
            words,
            steps: 0,
            resting: 0,
            vain: 0,
        })
    }

    /// Whether some stretch of the line, taken without its newline, matches the pattern (XBD 9.1). The pattern has as many
    /// positions as the one that the room was made for. It takes no memory.
    ///
    /// Afterwards `steps` returns how many steps it took: a position that is entered at one place of the line is one step. The search
    /// begins at every place, and enters a position at most once at a place. If there is no match, the steps are all positions that can be
    /// entered at each place. If there is a match, they are at least those of all places before the place at which the pattern's end is
    /// entered first.
    pub fn matches(&mut self, bre: &Bre, line: &[u8]) -> bool
        requires { self.old.positions ≡ positions_of bre.now }
        ensures exact { result ≡ contains bre.now line.now }
        ensures counted { IsFalse result → IsStepCount (code_of bre.now) line.now self.new.steps }
        ensures least { IsTrue result → HasStepsBefore (code_of bre.now) line.now self.new.steps }
        ensures bound { self.new.steps ≤ (length line.now + 1) * positions_of bre.now }
        ensures positions { self.new.positions ≡ self.old.positions }
    {
        let outcome = self.search(bre, line);
        self.steps = outcome.steps;
        outcome.found
    }

    /// The same as `matches`, with the steps beside it; `Scan::steps` returns what it returned before. It is always inlined:
    /// a caller that leaves the steps out runs the same search, and counts none.
    #[inline(always)]
    pub fn search(&mut self, bre: &Bre, line: &[u8]) -> Outcome
        requires { self.old.positions ≡ positions_of bre.now }
        ensures exact { result.found ≡ contains bre.now line.now }
        ensures counted { IsFalse result.found → IsStepCount (code_of bre.now) line.now result.steps }
        ensures least { IsTrue result.found → HasStepsBefore (code_of bre.now) line.now result.steps }
        ensures bound { result.steps ≤ (length line.now + 1) * positions_of bre.now }
        ensures same { self.new ≡ self.old }
    {
        if !line.is_empty() {
            if let Some(outcome) = bre.walk(line) {
                return outcome;
            }
        }
        bre.search(line, &mut self.words)
    }

    /// How many bytes the lines at the beginning of a text are that are seen to have no match without matching them, by
    /// `Bre::clear_before`. It is meant to be called line after line: from the fourth look in turn that is in vain, since what
    /// each line with a match has stands in nearly every line, it rests, each time about twice as long, for at most 255 calls, in
    /// which it returns 0.
    pub fn clear_lines(&mut self, bre: &Bre, text: &[u8]) -> usize
        ensures within { result ≤ length text.now }
        ensures clear { IsClear bre.now text.now result }
        ensures whole { 0 < result → Passes (is_byte NEWLINE) text.now (result - 1) }
        ensures same { self.new ≡ self.old }
    {
        if self.resting > 0 {
            self.resting -= 1;
            return 0;
        }
        let size = clear_lines(bre, text);
        self.vain = if size == 0 {
            (self.vain << 1 | 1) & MOST_VAIN
        } else {
            0
        };
        self.resting = self.vain >> 3;
        size
    }

    /// The steps of the last `matches`, 0 before the first.
    pub fn steps(&self) -> u128
        ensures { result ≡ self.now.steps }
    {
        self.steps
    }
}

/// How many bytes the lines at the beginning of a text are that are seen to have no match without matching them.
fn clear_lines(bre: &Bre, text: &[u8]) -> usize
    ensures within { result ≤ length text.now }
    ensures clear { IsClear bre.now text.now result }
    ensures whole { 0 < result → Passes (is_byte NEWLINE) text.now (result - 1) }
{
    let place = bre.clear_before(text);
    match memrchr(NEWLINE, &text[..place]) {
        Some(end) => end + 1,
        None => 0,
    }
}

//! Matching lines with the pattern that is searched for.
ghost use Rattle.std.specs.Prelude.{◌≡◌, ◌≤◌, IfOk, IfErr, length, take};
ghost use Rattle.bre_core.specs.Search.{contains};
ghost use Rattle.csplit_core.specs.{Input.without_newline, inner.Cutter.{AreClear, IsLine, IsWhole}};

use ports_core::Fault;
use scan_core::{Bre, Scan};
use seg_core::line::NEWLINE;
use std::alloc::Global;
use std::marker::Model;

/// A pattern, and what matching with it needs.
#[derive(Drop)]
pub struct Matcher<'o> {
    pattern: &'o Bre,
    scan: Scan,
}

impl<'o> Model for Matcher<'o> {
    ghost use Rattle.std.specs.Prelude.{◌≡◌};
    ghost use Rattle.bre_core.specs.{Code.pattern_code, Pattern.{Pattern, positions_of}};

    ghost Value = { Pattern };

    ghost coded = { pattern_code };

    ghost view = { λ m. m.pattern.now };

    ghost invariant = { λ m. m.scan.positions ≡ positions_of m.pattern.now };
}

impl<'o> Matcher<'o> {
    /// What matching with this pattern needs.
    ///
    /// # Errors
    ///
    /// `Memory` if there is no room for it.
    pub(crate) fn new(alloc: Global, pattern: &'o Bre) -> Result<Matcher<'o>, Fault>
        ensures ok { IfOk result (λ matcher. matcher ≡ pattern.now) }
        ensures err { IfErr result (λ fault. fault ≡ Fault.Memory) }
    {
        match Scan::new(alloc, pattern) {
            Ok(scan) => Ok(Matcher { pattern, scan }),
            Err(_) => Err(Fault::Memory),
        }
    }

    /// Whether a line contains the pattern. The text is the line without its newline.
    pub(crate) fn matches(&mut self, text: &[u8]) -> bool
        ensures exact { result ≡ contains self.old text.now }
        ensures same { self.new ≡ self.old }
    {
        self.scan.search(self.pattern, text).found
    }

    /// How many bytes at the beginning of a text of complete lines are lines that are known to have no match without
    /// matching them. It is 0 while looking for what each match contains is of no use; that is tried again later.
    pub(crate) fn clear_lines(&mut self, text: &[u8]) -> usize
        requires { IsWhole text.now }
        ensures within { result ≤ length text.now }
        ensures whole { IsWhole (take result text.now) }
        ensures clear { AreClear self.old (take result text.now) }
        ensures same { self.new ≡ self.old }
    {
        self.scan.clear_lines(self.pattern, text)
    }
}

/// A line without its newline. A newline stands only at the end of a line.
pub(crate) fn text_of(line: &[u8]) -> &[u8]
    requires { IsLine line.now }
    ensures { result.now ≡ without_newline line.now }
{
    let end = line.len() - 1;
    if line[end] == NEWLINE {
        return &line[..end];
    }
    line
}

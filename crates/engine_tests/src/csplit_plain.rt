//! `csplit` as a slow program that sees a whole text at once, to compare the engine with.
use csplit_core::{Offset, Operand, Style, Target, Times};
use plain_core::matches_plain;
use ports_core::{Fault, Verdict};
use scan_core::Bre;
use seg_core::line::NEWLINE;
use std::alloc::{AllocError, Global};

/// What is made of a text.
#[derive(Drop)]
pub(crate) struct Made<'a> {
    /// What each file gets, in their order.
    pub files: Vec<&'a [u8]>,
    /// The verdict with which the cutting ends, if it ends with one.
    pub verdict: Option<Verdict>,
}

/// Cuts a text at these operands.
///
/// # Errors
///
/// `Memory` where there is no room for it.
pub(crate) fn plain<'a>(
    alloc: Global,
    operands: &[Operand],
    style: &Style,
    text: &'a [u8],
) -> Result<Made<'a>, Fault> {
    let mut cutting = Cutting {
        text,
        elide: style.elide,
        suppress: style.suppress,
        past: u64::from(style.one_past),
        current: 1,
        last_cut: 0,
        last_match: 0,
        files: Vec::new(alloc),
    };
    for operand in operands {
        match cutting.perform(alloc, operand)? {
            Next::Operand => {}
            Next::End(verdict) => {
                return Ok(Made {
                    files: cutting.files,
                    verdict,
                });
            }
        }
    }
    cutting.put(true, u64::MAX)?;
    Ok(Made {
        files: cutting.files,
        verdict: None,
    })
}

/// What comes after an operand.
#[derive(Clone, Copy)]
enum Next {
    Operand,
    End(Option<Verdict>),
}

/// A text, and how far it is cut. Lines are numbered from 1.
#[derive(Drop)]
struct Cutting<'a> {
    text: &'a [u8],
    elide: bool,
    suppress: bool,
    /// How many lines past the last one the cut of a pattern may stand.
    past: u64,
    /// The first line of the next section.
    current: u64,
    /// The line of the last cut, 0 where there was none.
    last_cut: u64,
    /// The line that was matched last, 0 where none was.
    last_match: u64,
    files: Vec<&'a [u8]>,
}

impl<'a> Cutting<'a> {
    /// Performs an operand as often as it is asked for.
    fn perform(&mut self, alloc: Global, operand: &Operand) -> Result<Next, Fault> {
        for repetition in 0..=lines_in(self.text) {
            if let Next::End(verdict) = self.perform_once(alloc, operand, repetition)? {
                return Ok(Next::End(verdict));
            }
            match operand.times {
                Times::Count(times) => {
                    if repetition >= times {
                        return Ok(Next::Operand);
                    }
                }
                Times::Endless => {}
            }
        }
        Ok(Next::Operand)
    }

    fn perform_once(
        &mut self,
        alloc: Global,
        operand: &Operand,
        repetition: u64,
    ) -> Result<Next, Fault> {
        let is_endless = operand.times == Times::Endless;
        match &operand.target {
            Target::Number(number) => {
                let line = number.saturating_mul(repetition.saturating_add(1));
                if is_endless && line > lines_in(self.text) && line >= self.current {
                    self.put(true, u64::MAX)?;
                    return Ok(Next::End(None));
                }
                let range = Verdict::Range(operand.index, repetition);
                self.cut(true, line, lines_in(self.text), range)
            }
            Target::Search {
                pattern,
                is_kept,
                offset,
            } => {
                let Some(line) = self.find(alloc, pattern)? else {
                    self.put(*is_kept, u64::MAX)?;
                    let missed = Verdict::NoMatch(operand.index, repetition);
                    return Ok(Next::End(if is_endless { None } else { Some(missed) }));
                };
                self.last_match = line;
                let range = Verdict::Range(operand.index, repetition);
                let most = lines_in(self.text).saturating_add(self.past);
                self.cut(*is_kept, line_at(line, *offset), most, range)
            }
        }
    }

    /// Cuts at a line, unless it is above the last one where this may be or below the current one.
    fn cut(&mut self, is_kept: bool, line: u64, most: u64, range: Verdict) -> Result<Next, Fault> {
        if line > most {
            self.put(is_kept, u64::MAX)?;
            return Ok(Next::End(Some(range)));
        }
        if line < self.current {
            self.put(is_kept, self.current)?;
            return Ok(Next::End(Some(range)));
        }
        self.put(is_kept, line)?;
        self.last_cut = line;
        self.current = if self.suppress {
            line.saturating_add(1)
        } else {
            line
        };
        Ok(Next::Operand)
    }

    /// Makes a file of the lines from the current one to before another, if they are kept.
    fn put(&mut self, is_kept: bool, end: u64) -> Result<(), AllocError> {
        let section = lines_between(self.text, self.current, end);
        if is_kept && !(self.elide && section.is_empty()) {
            self.files.push(section)?;
        }
        Ok(())
    }

    /// The first line that has the pattern, from where its search begins.
    fn find(&self, alloc: Global, pattern: &Bre) -> Result<Option<u64>, Fault> {
        let is_first = self.current == 1 && self.last_match == 0;
        let passed = if is_first {
            0
        } else {
            self.last_cut.max(self.last_match)
        };
        for line in 1..=lines_in(self.text) {
            let whole = lines_between(self.text, line, line.saturating_add(1));
            let text = match whole {
                [text @ .., NEWLINE] => text,
                _ => whole,
            };
            match matches_plain(alloc, pattern, text) {
                Ok(has_match) => {
                    if has_match && line > passed {
                        return Ok(Some(line));
                    }
                }
                Err(_) => return Err(Fault::Memory),
            }
        }
        Ok(None)
    }
}

/// The line at an offset from another, 0 where there are too few before it.
fn line_at(line: u64, offset: Offset) -> u64 {
    match offset {
        Offset::Plus(lines) => line.saturating_add(lines),
        Offset::Minus(lines) => line.saturating_sub(lines),
    }
}

/// How many lines a text has; an open last line counts.
fn lines_in(text: &[u8]) -> u64 {
    let mut lines = 0u64;
    let mut is_open = false;
    for byte in text {
        is_open = *byte != NEWLINE;
        if !is_open {
            lines = lines.saturating_add(1);
        }
    }
    lines.saturating_add(u64::from(is_open))
}

/// The lines from one to before another.
fn lines_between(text: &[u8], first: u64, end: u64) -> &[u8] {
    let start = start_of(text, first);
    text.get(start..start_of(text, end)).unwrap_or(&[])
}

/// Where a line begins; the text's length where there is no such line.
fn start_of(text: &[u8], line: u64) -> usize {
    let mut start = 0usize;
    let mut number = 1u64;
    for byte in text {
        if number >= line {
            return start;
        }
        start = start.saturating_add(1);
        if *byte == NEWLINE {
            number = number.saturating_add(1);
        }
    }
    start
}

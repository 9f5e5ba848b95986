//! The stage of `csplit`: from bytes, in pieces of any length, to the lines that are cut.
ghost use Rattle.std.specs.{
  Prelude.{◌≡◌, ◌≢◌, ◌+◌, ◌-◌, ◌^◌, ◌<◌, ◌≤◌, ◌++◌, List, [], length, min, true, IsTrue, IfErr, IfOk, OnOk},
};
ghost use Rattle.seg_core.specs.Line.{delimiters, ends_with};
ghost use Rattle.engine_core.specs.{
  EngineState.HoldsIn,
  Written.{OutputsAt, StoppedBetween, nothing},
  Swept.{AreThere, HasNoFiles},
  InTurn.fault_in,
  FileWriter.{Breaks, IsReady as CanWrite},
};
ghost use Rattle.ports_core.specs.Slot.{Slot, is_writable};
ghost use Rattle.csplit_core.specs.{
  Csplit.{csplit_work, settled_by},
  Output.{manner_of, sizes_wanted},
  inner.Cutter.{Closes, Passes, Takes},
  CsplitState.{Holds, IsReady, Owns, terms, files, work},
  Cutter.{IsSound, load},
  Input.newline,
  laws.InputLaws.lawful,
};
ghost use Rattle.csplit_core.specs.declared.progress.Attempt.TheVariants as attempt_is;

use crate::line_cutter::LineCutter;
use crate::{Operand, Operands, Style};
use engine_core::{Engine, Stage};
use ports_core::{Fault, Outs};
use seg_core::line::{NEWLINE, next_line};
use seg_core::line_back::last_delimiter_end;
use std::alloc::Global;
use std::marker::Model;

/// Cuts its input into sections, each in a file of its own, where its lines match (POSIX.1-2017, XCU csplit). One file
/// is open at a time. It takes memory for the lines that wait, as many as the offset of the next pattern goes back, and
/// again for these lines while they are cut off; for the line that lacks its newline; for a pattern's matcher; and for
/// names.
#[derive(Drop)]
pub struct Csplitter<'o> {
    cutter: LineCutter<'o>,
    /// What follows the last newline; empty once later input goes nowhere.
    rest: Vec<u8>,
    /// How many bytes came in.
    taken: u64,
}

impl<'o> Model for Csplitter<'o> {
    ghost use Rattle.bre_core.specs.Code.{pattern_code};
    ghost use Rattle.csplit_core.specs.{CsplitState.CsplitState, Cutter.seen};
    ghost use Rattle.std.specs.Coded.{codes};

    ghost Value = { CsplitState };

    ghost coded = { Prim.hlevel (codes, pattern_code) };

    ghost view = { λ s. record { cutter = seen s.cutter; rest = s.rest.items; taken = s.taken } };
}

impl<'o> Csplitter<'o> {
    /// An engine that cuts at these operands, and makes files in this way. The first section begins now.
    ///
    /// # Errors
    ///
    /// `Memory` if there is no room for what the first operand needs, or for a name; `Open` if the first section's file
    /// can't be opened. No file was made then.
    pub fn open<O: Outs>(
        alloc: Global,
        operands: &'o Operands,
        style: Style,
        outs: &mut O,
    ) -> Result<Engine<Csplitter<'o>>, Fault>
        requires streams { 2 ≤ length (O.slots outs.old) }
        requires output { IsTrue (is_writable (O.slots outs.old) 0) }
        ensures holds { IfOk result (λ engine. HoldsIn Holds engine []) }
        ensures bound { IfOk result (λ engine. engine.fed < 2 ^ 63) }
        ensures does { IfOk result (λ engine. work engine.stage ≡ csplit_work style operands.now) }
        ensures ready { IfOk result (λ engine. IsReady engine.stage (O.slots outs.new)) }
        ensures owns { IfOk result (λ engine. Owns engine.stage (length (O.slots outs.old)) (O.slots outs.new)) }
        ensures there { IfOk result (λ engine. AreThere (files engine.stage) (O.slots outs.new)) }
        ensures outputs { OnOk result ((before : List Slot) → OutputsAt O.visible before nothing (O.slots outs.old)
            → OutputsAt O.visible before (settled_by style operands.now []) (O.slots outs.new)) }
        ensures cut { IfErr result
            (λ fault. (before : List Slot) → OutputsAt O.visible before nothing (O.slots outs.old)
            → StoppedBetween (sizes_wanted style) O.visible before nothing (settled_by style operands.now []) fault
            (O.slots outs.new)) }
        ensures refused { IfErr result (Breaks (manner_of style) (O.slots outs.old) (O.slots outs.new)) }
        ensures none { IfErr result (λ fault. HasNoFiles (length (O.slots outs.old)) (O.slots outs.new)) }
    {
        let cutter = LineCutter::open(alloc, operands.as_slice(), style, outs)?;
        Ok(Engine::new(Csplitter {
            cutter,
            rest: Vec::new(alloc),
            taken: 0,
        }))
    }

    /// Takes in complete lines, at least one. The open line is the beginning of the first line.
    fn take_lines<O: Outs>(&mut self, lines: &[u8], outs: &mut O) -> Result<(), Fault>
        requires fits { load self.old.cutter + length self.old.rest + length lines.now < 2 ^ 63 }
        requires whole { ends_with newline lines.now ≡ true }
        requires sound { IsSound self.old.cutter }
        requires open { delimiters newline self.old.rest ≡ 0 }
        requires ready { CanWrite self.old.cutter.writer (O.slots outs.old) }
        ensures taken { self.new.taken ≡ self.old.taken }
        ensures rest { OnOk result (self.new.rest ≡ []) }
        ensures takes { Takes O.visible self.old.cutter (self.old.rest ++ lines.now) (O.slots outs.old)
            (O.slots outs.new) self.new.cutter (fault_in result) }
    {
        if self.rest.is_empty() {
            return self.cutter.take(lines, outs);
        }
        let (end, others) = next_line(lines, NEWLINE);
        self.rest.extend_from_slice(end)?;
        self.cutter.take_line(&self.rest, outs)?;
        self.rest.clear();
        self.cutter.take(others, outs)
    }

    /// Keeps more bytes of the open line, unless later input goes nowhere.
    fn wait(&mut self, bytes: &[u8]) -> Result<(), Fault>
        ensures cutter { self.new.cutter ≡ self.old.cutter }
        ensures taken { self.new.taken ≡ self.old.taken }
        ensures past { OnOk result (self.old.cutter.aim ≡ attempt_is.Below → self.new.rest ≡ self.old.rest) }
        ensures live { OnOk result (self.old.cutter.aim ≢ attempt_is.Below
            → self.new.rest ≡ self.old.rest ++ bytes.now) }
        ensures err { IfErr result (λ fault. fault ≡ Fault.Memory) }
    {
        if self.cutter.is_past() {
            return Ok(());
        }
        Ok(self.rest.extend_from_slice(bytes)?)
    }

    /// Takes in the open line as it is, if there is one: it is the last line.
    fn take_last<O: Outs>(&mut self, outs: &mut O) -> Result<(), Fault>
        requires fits { load self.old.cutter + length self.old.rest < 2 ^ 63 }
        requires sound { IsSound self.old.cutter }
        requires open { delimiters newline self.old.rest ≡ 0 }
        requires ready { CanWrite self.old.cutter.writer (O.slots outs.old) }
        ensures taken { self.new.taken ≡ self.old.taken }
        ensures takes { Takes O.visible self.old.cutter self.old.rest (O.slots outs.old)
            (O.slots outs.new) self.new.cutter (fault_in result) }
    {
        if self.rest.is_empty() {
            return Ok(());
        }
        self.cutter.take_line(&self.rest, outs)
    }
}

impl<'o> Stage for Csplitter<'o> {
    ghost terms = { terms };

    /// Takes in a piece: its lines, the first of which may complete the open line, and what follows these lines.
    fn pass<O: Outs>(&mut self, piece: &[u8], outs: &mut O) -> Result<(), Fault>
        requires fits { self.old.taken + length piece.now < 2 ^ 63 }
        requires ready { IsReady self.old (O.slots outs.old) }
        ensures taken { self.new.taken ≡ self.old.taken + length piece.now }
        ensures passes { Passes O.visible self.old piece.now (O.slots outs.old) (O.slots outs.new) self.new result }
    {
        self.taken += piece.len() as u64;
        if self.cutter.is_past() {
            return Ok(());
        }
        match last_delimiter_end(piece, NEWLINE) {
            None => self.wait(piece),
            Some(end) => {
                self.take_lines(&piece[..end], outs)?;
                self.wait(&piece[end..])
            }
        }
    }

    /// Takes in the open line, if there is one, and ends the last section. If the work ends with a verdict, the files
    /// are removed then.
    fn finish<O: Outs>(&mut self, outs: &mut O) -> Result<(), Fault>
        requires { IsReady self.old (O.slots outs.old) }
        ensures bound { self.new.taken ≤ self.old.taken }
        ensures closes { Closes O.visible self.old (O.slots outs.old) (O.slots outs.new) self.new result }
    {
        self.take_last(outs)?;
        self.cutter.end(outs)?;
        match self.cutter.verdict() {
            None => Ok(()),
            Some(verdict) => {
                self.clear(outs);
                Err(Fault::Verdict(verdict))
            }
        }
    }

    fn clear<O: Outs>(&mut self, outs: &mut O) {
        if !self.cutter.style().keep {
            self.cutter.clear(outs);
        }
    }

    /// Always false: the last size is written at the end.
    fn is_done(&self) -> bool {
        false
    }

    /// How many bytes wait: those of the lines that came in and are in no file yet, and those of the line that lacks
    /// its newline.
    fn waits(&self) -> u64
        ensures { result ≡ min (length self.now.cutter.window.held + length self.now.rest) (2 ^ 64 - 1) }
    {
        self.cutter.held().saturating_add(self.rest.len() as u64)
    }

    fn wanted(&self) -> u64 {
        u64::MAX
    }

    fn unused(&self) -> u64 {
        0
    }

    ghost lawful = { λ stage x holds. lawful stage.cutter.style stage.cutter.operands };

    ghost there = { λ stage first slots owns. owns.writer.there };
}

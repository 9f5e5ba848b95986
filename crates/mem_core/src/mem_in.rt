ghost use Rattle.std.specs.{
  Prelude.{◌≡◌, ◌++◌, ◌∷◌, [], ◌+◌, ◌≤◌, ◌<◌, Some, None, true, false, length, option_map, take, drop, map},
  Prelude.{string_bytes, IsTrue, IfOk, IfErr, IfSome, IfNone, OnOk},
};
ghost use Rattle.ports_core.specs.{
  Slot.changed_at,
  Source.{Source, source_at, source_of, missing, gives, gets_back, fails, looks, skips, unshown, Gave, BrokeOff, Shows},
  Source.{ShowsAll, ShowsOf, count_shown, holds, cut, is_readable},
};
ghost use Rattle.mem_core.specs.{
  MemInState.{MemInState, Laid, laid_at, laid_in, breaks_in, content_in, file_of, showing, shown_by, with_break},
};

use crate::failing::{Cause, planned};
use ports_core::{Fault, Inputs, Reason};
use std::alloc::{AllocError, Global};
use std::marker::Model;

/// One input in memory.
#[derive(Drop)]
struct MemSource {
    bytes: Vec<u8>,
    /// What it shows before it is read, if it shows anything.
    shown: Option<Vec<u8>>,
    /// How many of the bytes reads have given.
    given: usize,
    breaks_off: bool,
    is_open: bool,
    is_broken: bool,
    /// Why it broke, or couldn't be opened.
    reason: Reason,
    /// The length of the largest buffer that it was to fill, by a read or a look.
    asked: usize,
    /// How many of the bytes reads gave, also if some of these were given back.
    reached: usize,
    /// How many of the bytes that the last read gave were not given back; none if bytes were passed over since.
    last: usize,
    /// Whether the last read reported the end: it gave nothing, though there was room.
    ended: bool,
    /// How many reads were made, at most 2^64-1.
    reads: u64,
}

impl Model for MemSource {
    ghost Value = { Source };

    ghost view = { λ s. record {
      left = record {
        bytes = drop s.given s.bytes.items;
        breaks_off = s.breaks_off;
        shown = option_map (λ v. v.items) s.shown;
      };
      is_open = s.is_open;
      is_broken = s.is_broken;
      reason = s.reason;
      asked = s.asked;
      taken = take s.given s.bytes.items;
      reached = s.reached;
      last = s.last;
      ended = s.ended;
      reads = s.reads;
    } };

    ghost invariant = { λ s. (s.given ≤ length s.bytes.items) × (s.last ≤ s.given)
        × IfSome s.shown (λ v. 0 < length v.items) };
}

impl MemSource {
    /// An input that holds these bytes, shows that text and hasn't been read yet.
    fn new(bytes: Vec<u8>, shown: Option<Vec<u8>>) -> Self
        requires { IfSome shown (λ v. 0 < length v.items) }
        ensures { result ≡ source_of (record {
          bytes = bytes.items;
          breaks_off = false;
          shown = option_map (λ v. v.items) shown;
        }) }
    {
        MemSource {
            bytes,
            shown,
            given: 0,
            breaks_off: false,
            is_open: true,
            is_broken: false,
            reason: Reason::Other,
            asked: 0,
            reached: 0,
            last: 0,
            ended: false,
            reads: 0,
        }
    }

    fn missing(alloc: Global, why: Reason) -> Self
        ensures { result ≡ missing why }
    {
        MemSource {
            bytes: Vec::new(alloc),
            shown: None,
            given: 0,
            breaks_off: false,
            is_open: false,
            is_broken: true,
            reason: why,
            asked: 0,
            reached: 0,
            last: 0,
            ended: false,
            reads: 0,
        }
    }

    /// Fills a beginning of the buffer with at most `most` bytes, and returns how many. None if the input breaks off, for this reason.
    fn read(&mut self, buffer: &mut [u8], most: usize, why: Reason) -> Option<usize>
        requires { 0 < most }
        ensures bound { IfSome result (λ n. n ≤ length buffer.old) }
        ensures gave { IfSome result (Gave self.old.left buffer.old buffer.new) }
        ensures rest { IfSome result (λ n. self.new ≡ gives (length buffer.old) n self.old) }
        ensures broke { IfNone result (BrokeOff self.old.left) }
        ensures broken { IfNone result (self.new ≡ fails why (length buffer.old) self.old) }
    {
        self.asked = self.asked.max(buffer.len());
        self.reads = self.reads.saturating_add(1);
        let left = self.bytes.len() - self.given;
        if left == 0 && self.breaks_off && !buffer.is_empty() {
            if !self.is_broken {
                self.reason = why;
            }
            self.is_broken = true;
            self.ended = false;
            return None;
        }
        let n = left.min(most).min(buffer.len());
        buffer[..n].copy_from_slice(&self.bytes[self.given..self.given + n]);
        self.given += n;
        self.reached = self.reached.max(self.given);
        self.last = n;
        self.ended = n == 0 && !buffer.is_empty();
        Some(n)
    }

    fn shown(&self) -> Option<u64>
        ensures some { IfSome result (λ n. 0 < n) }
        ensures counted { result ≡ count_shown self.now.left }
    {
        match &self.shown {
            Some(text) => Some(text.len() as u64),
            None => None,
        }
    }

    /// Notes how many bytes a look asked for.
    fn note_look(&mut self, size: usize)
        ensures { self.new ≡ looks size self.old }
    {
        self.asked = self.asked.max(size);
    }

    /// Fills the buffer with what is shown from a place on, if that is as much.
    fn read_at(&mut self, place: u64, buffer: &mut [u8]) -> bool
        ensures shows { IsTrue result → ShowsOf self.old.left place buffer.new }
        ensures can { ShowsAll self.old.left (place + length buffer.old) → IsTrue result }
        ensures rest { self.new ≡ looks (length buffer.old) self.old }
    {
        self.note_look(buffer.len());
        match &self.shown {
            Some(text) => copy_from(text, place, buffer),
            None => false,
        }
    }

    /// Passes over the next bytes, if there are as many.
    fn skip(&mut self, count: u64) -> bool
        ensures there { IsTrue result → count ≤ length self.old.left.bytes }
        ensures can { count ≤ length self.old.left.bytes → IsTrue result }
        ensures rest { IsTrue result → self.new ≡ skips count self.old }
        ensures unchanged { result ≡ false → self.new ≡ self.old }
    {
        if ((self.bytes.len() - self.given) as u64) < count {
            return false;
        }
        self.given += count as usize;
        self.last = if count == 0 { self.last } else { 0 };
        true
    }

    fn unread(&self) -> &[u8]
        ensures { result.now ≡ self.now.left.bytes }
    {
        &self.bytes[self.given..]
    }

    fn give_back(&mut self, count: u64)
        requires { count ≤ self.old.last }
        ensures { self.new ≡ gets_back count self.old }
    {
        self.given -= count as usize;
        self.last -= count as usize;
    }

    fn break_at(&mut self, at: usize)
        ensures { self.new ≡ cut at self.old }
    {
        if at <= self.bytes.len() - self.given {
            self.bytes.truncate(self.given + at);
            self.breaks_off = true;
        }
    }
}

/// A file in memory.
#[derive(Drop)]
struct MemFile {
    name: String,
    bytes: Vec<u8>,
    shown: Option<Vec<u8>>,
}

impl Model for MemFile {
    ghost Value = { Laid };

    ghost view = { λ f. record {
      name = string_bytes f.name;
      bytes = f.bytes.items;
      shown = option_map (λ v. v.items) f.shown;
    } };

    ghost invariant = { λ f. IfSome f.shown (λ v. 0 < length v.items) };
}

/// Where an input that isn't opened yet is to break off.
#[derive(Clone, Copy)]
struct Break {
    slot: usize,
    at: usize,
}

/// Inputs in memory, with visible bytes. For tests, reads can be made short and an input can be made to fail.
#[derive(Drop)]
pub struct MemIn {
    alloc: Global,
    sources: Vec<MemSource>,
    files: Vec<MemFile>,
    breaks: Vec<Break>,
    causes: Vec<Cause>,
    /// The most bytes that a read gives.
    piece: usize,
}

impl Model for MemIn {
    ghost Value = { MemInState };

    ghost view = { λ m. record {
      sources = m.sources.items;
      files = m.files.items;
      breaks = map (λ b. (b.slot, b.at)) m.breaks.items;
    } };

    ghost invariant = { λ m. 0 < m.piece };
}

impl MemIn {
    /// An empty standard input, and no files.
    ///
    /// # Errors
    ///
    /// `Memory` if there is no room for it.
    pub fn new(alloc: Global) -> Result<Self, Fault>
        ensures ok { IfOk result (λ inputs. inputs
            ≡ record {
              sources = source_of (unshown []) ∷ [];
              files = [];
              breaks = [];
            }) }
        ensures err { IfErr result (λ fault. fault ≡ Fault.Memory) }
    {
        let mut sources = Vec::new(alloc);
        if sources.push(MemSource::new(Vec::new(alloc), None)).is_err() {
            return Err(Fault::Memory);
        }
        Ok(MemIn {
            alloc,
            sources,
            files: Vec::new(alloc),
            breaks: Vec::new(alloc),
            causes: Vec::new(alloc),
            piece: usize::MAX,
        })
    }

    /// Gives standard input these bytes in place of those that it had, and takes memory for them. It shows nothing, as a pipe.
    ///
    /// # Errors
    ///
    /// `Memory` if there is no room for the bytes: nothing is changed.
    pub fn input(&mut self, bytes: &[u8]) -> Result<(), Fault>
        ensures ok { OnOk result (self.new
            ≡ record self.old { sources = changed_at 0 (holds bytes.now) self.old.sources }) }
        ensures err { IfErr result (λ fault. (fault ≡ Fault.Memory) × (self.new ≡ self.old)) }
    {
        self.input_showing(bytes, b"")
    }

    /// As `input`, with the text that standard input shows before it is read; nothing if that is empty.
    ///
    /// # Errors
    ///
    /// `Memory` if there is no room for the bytes and the text: nothing is changed.
    pub fn input_showing(&mut self, bytes: &[u8], shown: &[u8]) -> Result<(), Fault>
        ensures ok { OnOk result (self.new
            ≡ record self.old { sources = changed_at 0 (showing bytes.now shown.now) self.old.sources }) }
        ensures err { IfErr result (λ fault. (fault ≡ Fault.Memory) × (self.new ≡ self.old)) }
    {
        let bytes = Vec::from_slice(self.alloc, bytes)?;
        let shown = shown_by(self.alloc, shown)?;
        if let Some(standard) = self.sources.first_mut() {
            *standard = MemSource::new(bytes, shown);
        }
        Ok(())
    }

    /// Adds a file with this name and these bytes, which it shows before they are read, and takes memory for all. If several files have one
    /// name, the first counts.
    ///
    /// # Errors
    ///
    /// `Memory` if there is no room for it: nothing is changed.
    pub fn file(&mut self, name: &str, bytes: &[u8]) -> Result<(), Fault>
        ensures ok { OnOk result (self.new
            ≡ record self.old { files = self.old.files ++ file_of name.now bytes.now bytes.now ∷ [] }) }
        ensures err { IfErr result (λ fault. (fault ≡ Fault.Memory) × (self.new ≡ self.old)) }
    {
        self.file_showing(name, bytes, bytes)
    }

    /// As `file`, of a file that changes: it shows this text, or nothing if that is empty, and then gives other bytes.
    ///
    /// # Errors
    ///
    /// `Memory` if there is no room for it: nothing is changed.
    pub fn file_showing(&mut self, name: &str, bytes: &[u8], shown: &[u8]) -> Result<(), Fault>
        ensures ok { OnOk result (self.new
            ≡ record self.old { files = self.old.files ++ file_of name.now bytes.now shown.now ∷ [] }) }
        ensures err { IfErr result (λ fault. (fault ≡ Fault.Memory) × (self.new ≡ self.old)) }
    {
        let file = laid(self.alloc, name, bytes, shown)?;
        Ok(self.files.push(file)?)
    }

    /// Limits each read to `n` bytes.
    pub fn pieces(&mut self, n: usize)
        requires { 0 < n }
        ensures { self.new ≡ self.old }
    {
        self.piece = n;
    }

    /// Makes an input fail after it has given `at` more bytes; if it holds fewer, it ends as before. An input that isn't opened yet fails
    /// once it has given `at` bytes. If there are several such plans for one input, the first counts.
    ///
    /// # Errors
    ///
    /// `Memory` if there is no room for the plan: nothing is changed.
    pub fn break_at(&mut self, slot: usize, at: usize) -> Result<(), Fault>
        ensures ok { OnOk result (self.new ≡ with_break slot at self.old) }
        ensures err { IfErr result (λ fault. (fault ≡ Fault.Memory) × (self.new ≡ self.old)) }
    {
        if slot < self.sources.len() {
            self.sources[slot].break_at(at);
            return Ok(());
        }
        Ok(self.breaks.push(Break { slot, at })?)
    }

    /// The bytes of an input that are left to read; none if there is no input of that number.
    pub fn unread(&self, slot: usize) -> &[u8]
        ensures { result.now ≡ (source_at self.now.sources slot).left.bytes }
    {
        match self.sources.get(slot) {
            Some(source) => source.unread(),
            None => &[],
        }
    }

    /// Says why an input breaks or can't be opened, if so. If there are several reasons for one input, the first counts.
    ///
    /// # Errors
    ///
    /// `Memory` if there is no room to note the reason: nothing is changed.
    pub fn breaks_as(&mut self, slot: usize, why: Reason) -> Result<(), Fault>
        ensures same { self.new ≡ self.old }
        ensures err { IfErr result (λ fault. fault ≡ Fault.Memory) }
    {
        Ok(self.causes.push(Cause { slot, why })?)
    }
}

fn laid(alloc: Global, name: &str, bytes: &[u8], shown: &[u8]) -> Result<MemFile, AllocError>
    ensures { IfOk result (λ file. file ≡ file_of name.now bytes.now shown.now) }
{
    Ok(MemFile {
        name: String::from_str(alloc, name)?,
        bytes: Vec::from_slice(alloc, bytes)?,
        shown: shown_by(alloc, shown)?,
    })
}

/// A copy of a text that is shown; none of an empty one.
fn shown_by(alloc: Global, text: &[u8]) -> Result<Option<Vec<u8>>, AllocError>
    ensures shown { IfOk result (λ shown. option_map (λ v. v.items) shown ≡ shown_by text.now) }
    ensures some { IfOk result (λ shown. IfSome shown (λ v. 0 < length v.items)) }
{
    if text.is_empty() {
        return Ok(None);
    }
    Ok(Some(Vec::from_slice(alloc, text)?))
}

/// Fills the buffer with the bytes of a text from a place on, if there are as many.
fn copy_from(text: &[u8], place: u64, buffer: &mut [u8]) -> bool
    ensures shows { IsTrue result → Shows text.now place buffer.new }
    ensures can { place + length buffer.old ≤ length text.now → IsTrue result }
{
    if (text.len() as u64) < place {
        return false;
    }
    let from = &text[place as usize..];
    if from.len() < buffer.len() {
        return false;
    }
    buffer.copy_from_slice(&from[..buffer.len()]);
    true
}

/// The input that a file is as it is opened.
fn opened(alloc: Global, file: &MemFile) -> Result<MemSource, AllocError>
    ensures { IfOk result (λ source. source ≡ source_of (content_in file.now)) }
{
    let bytes = Vec::from_slice(alloc, &file.bytes)?;
    let shown = match &file.shown {
        Some(text) => Some(Vec::from_slice(alloc, text)?),
        None => None,
    };
    Ok(MemSource::new(bytes, shown))
}

/// The first file of this name.
fn find<'a>(mut files: &'a [MemFile], name: &str) -> Option<&'a MemFile>
    ensures some { IfSome result (λ file. laid_at files.entry.now name.now ≡ Some file.now) }
    ensures none { IfNone result (laid_at files.entry.now name.now ≡ None) }
{
    while let [file, rest @ ..] = files {
        if file.name.as_str() == name {
            return Some(file);
        }
        files = rest;
    }
    None
}

/// Makes an input break off at the place that is planned, by the first plan for its number.
fn break_as_planned(source: &mut MemSource, mut breaks: &[Break], slot: usize)
    ensures { source.new ≡ breaks_in (map (λ b. (b.slot, b.at)) breaks.entry.now) slot source.old }
{
    while let [plan, rest @ ..] = breaks {
        if plan.slot == slot {
            source.break_at(plan.at);
            return;
        }
        breaks = rest;
    }
}

/// Adds an input after the others, and returns whether there was memory for it.
fn keep(sources: &mut Vec<MemSource>, source: MemSource) -> bool
    ensures kept { IsTrue result → sources.new.items ≡ sources.old.items ++ source ∷ [] }
    ensures full { result ≡ false → sources.new.items ≡ sources.old.items }
{
    sources.push(source).is_ok()
}

impl Inputs for MemIn {
    ghost sources = { λ inputs. inputs.sources };

    ghost laid = { λ inputs. laid_in inputs.files inputs.breaks };

    ghost visible = { true };

    fn open(&mut self, name: &str) -> Result<usize, Fault> {
        let slot = self.sources.len();
        let Some(file) = find(&self.files, name) else {
            let why = planned(&self.causes, slot);
            if keep(&mut self.sources, MemSource::missing(self.alloc, why)) {
                return Err(Fault::Open(slot));
            }
            return Err(Fault::Memory);
        };
        let mut source = opened(self.alloc, file)?;
        break_as_planned(&mut source, &self.breaks, slot);
        if keep(&mut self.sources, source) {
            return Ok(slot);
        }
        Err(Fault::Memory)
    }

    fn read(&mut self, slot: usize, buffer: &mut [u8]) -> Result<usize, Fault> {
        let piece = self.piece;
        let why = planned(&self.causes, slot);
        let Some(n) = self.sources[slot].read(buffer, piece, why) else {
            return Err(Fault::Read(slot));
        };
        Ok(n)
    }

    /// As it was planned by `breaks_as`, once it broke.
    fn reason(&self, slot: usize) -> Reason {
        match self.sources.get(slot) {
            Some(source) => source.reason,
            None => Reason::Other,
        }
    }

    /// As many as the text that it shows has.
    fn shown(&mut self, slot: usize) -> Option<u64> {
        self.sources[slot].shown()
    }

    /// Fills the buffer wherever what it shows has as many bytes there.
    fn read_at(&mut self, slot: usize, place: u64, buffer: &mut [u8]) -> bool {
        self.sources[slot].read_at(place, buffer)
    }

    /// Nothing in memory is a device.
    fn limit(&mut self, _slot: usize) {}

    /// Passes over the next bytes, wherever there are as many.
    fn skip(&mut self, slot: usize, count: u64) -> bool
        requires { IsTrue (is_readable self.old.sources slot) }
        ensures there { IsTrue result → count ≤ length (source_at self.old.sources slot).left.bytes }
        ensures can { count ≤ length (source_at self.old.sources slot).left.bytes → IsTrue result }
        ensures rest { IsTrue result
            → self.new ≡ record self.old { sources = changed_at slot (skips count) self.old.sources } }
        ensures unchanged { result ≡ false → self.new ≡ self.old }
    {
        self.sources[slot].skip(count)
    }

    fn give_back(&mut self, slot: usize, count: u64) {
        self.sources[slot].give_back(count);
    }
}

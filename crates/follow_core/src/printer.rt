//! Where the bytes of followed names go, under headers.
ghost use Rattle.std.specs.{
  Prelude.{◌≡◌, [], Some, IsTrue, IfErr, OnOk, if◌then◌else◌, string_bytes, option_map, is_none},
};
ghost use Rattle.ports_core.specs.{Slot.{is_writable, with_written, visible_of}, Text.header_of};
ghost use Rattle.follow_core.specs.{
  Printing.{PrinterState, Short, fresh_printer},
  inner.Giving.{Puts, over_by, over_in, pen},
  Followed.{has_header, is_last},
  Title.title,
};

use crate::title::title;
use ports_core::{Calling, Fault, Outs, header, write_whole};
use std::alloc::Global;
use std::marker::Model;

/// Standard output, the name that its last header was of, and how `tail` was called.
#[derive(Drop)]
pub(crate) struct Printer {
    alloc: Global,
    calling: Calling,
    headers: bool,
    last: Option<String>,
}

impl Model for Printer {
    ghost Value = { PrinterState };

    ghost view = { λ p. record {
      calling = p.calling;
      headers = p.headers;
      last = option_map (λ name. string_bytes name) p.last;
    } };
}

impl Printer {
    /// A printer that has written nothing yet.
    pub(crate) fn new(alloc: Global, calling: Calling, headers: bool) -> Self
        ensures { result ≡ fresh_printer calling headers }
    {
        Printer {
            alloc,
            calling,
            headers,
            last: None,
        }
    }

    /// How `tail` was called.
    pub(crate) fn calling(&self) -> Calling
        ensures { result ≡ self.now.calling }
    {
        self.calling
    }

    /// Writes bytes of a name, after its header where one is due: where its file was just opened, if headers are written, or where there
    /// are bytes and the last header was not of this name.
    ///
    /// # Errors
    ///
    /// `Memory` where there is no room for the header, `Write(0)` where standard output broke.
    pub(crate) fn put<O: Outs>(
        &mut self,
        opened: bool,
        name: &str,
        bytes: &[u8],
        outs: &mut O,
    ) -> Result<(), Fault>
        requires { IsTrue (is_writable (O.slots outs.old) 0) }
        ensures puts { Puts O.visible opened name.now bytes.now (pen self.old (O.slots outs.old))
            (pen self.new (O.slots outs.new)) (over_by (over_in result)) }
        ensures writable { OnOk result (IsTrue (is_writable (O.slots outs.new) 0)) }
    {
        if let Err(fault) = self.show(self.is_due(opened, name, bytes), name, outs) {
            return Err(fault);
        }
        match write_whole(outs, 0, bytes) {
            Ok(()) => Ok(()),
            Err(_) => Err(Fault::Write(0)),
        }
    }

    /// Whether a header is due before bytes of a name.
    fn is_due(&self, opened: bool, name: &str, bytes: &[u8]) -> bool
        ensures { result ≡ has_header self.now.headers self.now.last opened name.now bytes.now }
    {
        self.headers && (opened || (!bytes.is_empty() && !self.is_last(name)))
    }

    /// Writes the header of a name, if one is due.
    ///
    /// # Errors
    ///
    /// `Memory` where there is no room for the header, `Write(0)` where standard output broke.
    #[tactic(auto, using(crate::proofs::CallLemmas::no_memory))]
    fn show<O: Outs>(&mut self, due: bool, name: &str, outs: &mut O) -> Result<(), Fault>
        requires { IsTrue (is_writable (O.slots outs.old) 0) }
        ensures out { OnOk result (O.slots outs.new
            ≡ with_written 0
            (visible_of O.visible (if due then header_of (title name.now) (is_none self.old.last) else []))
            (O.slots outs.old)) }
        ensures last { OnOk result (self.new
            ≡ record self.old { last = if due then Some name.now else self.old.last }) }
        ensures writable { OnOk result (IsTrue (is_writable (O.slots outs.new) 0)) }
        ensures short { IfErr result
            (Short O.visible (if due then header_of (title name.now) (is_none self.old.last) else []) (O.slots outs.old)
            (O.slots outs.new)) }
    {
        if !due {
            return Ok(());
        }
        let Ok(text) = header(self.alloc, title(name), self.is_first()) else {
            return Err(Fault::Memory);
        };
        let Ok(kept) = String::from_str(self.alloc, name) else {
            return Err(Fault::Memory);
        };
        match write_whole(outs, 0, &text) {
            Ok(()) => {
                self.last = Some(kept);
                Ok(())
            }
            Err(_) => Err(Fault::Write(0)),
        }
    }

    /// Whether no header was written yet.
    fn is_first(&self) -> bool
        ensures { result ≡ is_none self.now.last }
    {
        self.last.is_none()
    }

    /// Whether the last header was of this name.
    fn is_last(&self, name: &str) -> bool
        ensures { result ≡ is_last name.now self.now.last }
    {
        match &self.last {
            Some(last) => last.as_str() == name,
            None => false,
        }
    }
}

ghost use Rattle.std.specs.{
  Prelude.{◌≡◌, ◌<◌, ◌^◌, ◌++◌, ◌∷◌, [], length, false, string_bytes, IsTrue, IfOk, IfErr, IfSome, IfNone, OnOk},
};
ghost use Rattle.ports_core.specs.{
  Name.numbering_of,
  Slot.{is_writable, opened},
  declared.slot.Mode.TheVariants.Fresh,
};
ghost use Rattle.engine_core.specs.{
  Draft.{opening_line, output_of, told_before},
  Names.{next_name, has_next, told_next, with_one_drawn, CanTell, OpensNone},
  InTurn.fault_in,
  inner.Names.TellsOpening,
};

use crate::Tells;
use ports_core::{
    Alphabet, Fault, Mode, Naming, Numbering, Outs, Verdict, write_quoted, write_whole,
};
use std::alloc::{AllocError, Global};

/// Names that are drawn one after another.
#[derive(Drop)]
pub struct Names {
    /// How the names are made.
    pub naming: Naming,
    /// How many names were drawn.
    pub drawn: u64,
}

impl Names {
    /// Names with numbers of this width, in characters, between the prefix and the ending, from number 0 on. With
    /// `auto` the numbers widen, and this is the first width.
    ///
    /// # Errors
    ///
    /// `Memory` if there is no room for the names' prefix and ending.
    pub fn new(
        alloc: Global,
        prefix: &str,
        alphabet: Alphabet,
        width: u32,
        auto: bool,
        ending: &str,
    ) -> Result<Self, Fault>
        requires some { 0 < width }
        requires few { width < 256 }
        ensures ok { IfOk result (λ names. names
            ≡ record {
              naming = record {
                prefix = prefix.now;
                numbering = numbering_of alphabet width auto 0;
                ending = ending.now;
              };
              drawn = 0;
            }) }
        ensures err { IfErr result (λ fault. fault ≡ Fault.Memory) }
    {
        let numbering = if auto {
            Numbering::Widening(alphabet, width)
        } else {
            Numbering::Fixed(alphabet, width, 0)
        };
        Ok(Names {
            naming: Naming::new(alloc, prefix, numbering, ending)?,
            drawn: 0,
        })
    }

    /// Draws the next name. None if a fixed width has no further name, and from then on always.
    ///
    /// # Errors
    ///
    /// `Memory` if there is no room for the name, or if 2^64-1 names were drawn. No name is drawn then.
    pub fn next(&mut self) -> Result<Option<String>, Fault>
        ensures few { self.old.drawn < 2 ^ 64 }
        ensures name { IfOk result (λ drawn. IfSome drawn (λ name. string_bytes name ≡ next_name self.old)) }
        ensures left { IfOk result (λ drawn. IfSome drawn (λ _. IsTrue (has_next self.old))) }
        ensures drew { IfOk result (λ drawn. IfSome drawn (λ _. self.new ≡ with_one_drawn self.old)) }
        ensures none { IfOk result (λ drawn. IfNone drawn (has_next self.old ≡ false)) }
        ensures ended { IfOk result (λ drawn. IfNone drawn (self.new ≡ self.old)) }
        ensures err { IfErr result (λ fault. (fault ≡ Fault.Memory) × (self.new ≡ self.old)) }
        ensures refused { IfErr result (λ _. IsTrue (has_next self.old)) }
    {
        let Some(name) = self.naming.name_at(self.drawn)? else {
            return Ok(None);
        };
        let Some(drawn) = self.drawn.checked_add(1) else {
            return Err(Fault::Memory);
        };
        self.drawn = drawn;
        Ok(Some(name))
    }

    /// Writes the line about the next file to standard output, if it gets such lines; opens the file, and returns its
    /// output's number. It takes memory for the name, and for the line.
    ///
    /// # Errors
    ///
    /// `Suffixes` if no name is left, `Memory` if there is no room for the name or for the line, `Write` if standard
    /// output broke: then the file isn't opened. `Open` if the file can't be opened.
    pub fn open_next<O: Outs>(&mut self, tells: Tells, outs: &mut O) -> Result<usize, Fault>
        requires { CanTell tells (O.slots outs.old) }
        ensures slot { IfOk result (λ slot. slot ≡ length (O.slots outs.old)) }
        ensures few { self.old.drawn < 2 ^ 64 }
        ensures named { OnOk result (IsTrue (has_next self.old)) }
        ensures drew { OnOk result (self.new ≡ with_one_drawn self.old) }
        ensures opened { OnOk result (O.slots outs.new ≡ told_next O.visible tells self.old (O.slots outs.old)
            ++ opened (next_name self.old) Fresh ∷ []) }
        ensures same { self.new.naming ≡ self.old.naming }
        ensures err { IfErr result (OpensNone O.visible tells self.old self.new (O.slots outs.old) (O.slots outs.new)) }
        ensures left { IfErr result (λ fault. fault ≡ Fault.Memory → IsTrue (has_next self.old)) }
    {
        let Some(name) = self.next()? else {
            return Err(Fault::Verdict(Verdict::Suffixes));
        };
        tell_opening(self.naming.alloc(), tells, name.as_str(), outs)?;
        outs.open(name.as_str(), Mode::Fresh)
    }
}

/// Writes to standard output that a file is to be opened, if it gets such lines.
fn tell_opening<O: Outs>(alloc: Global, tells: Tells, name: &str, outs: &mut O) -> Result<(), Fault>
    requires { CanTell tells (O.slots outs.old) }
    ensures { TellsOpening O.visible (told_before (output_of tells) name.now) (O.slots outs.old) (O.slots outs.new)
        (fault_in result) }
{
    match tells {
        Tells::Nothing => Ok(()),
        Tells::Sizes => Ok(()),
        Tells::Openings => write_opening(alloc, name, outs),
    }
}

/// Writes to standard output that a file is to be opened, as one line.
fn write_opening<O: Outs>(alloc: Global, name: &str, outs: &mut O) -> Result<(), Fault>
    requires { IsTrue (is_writable (O.slots outs.old) 0) }
    ensures { TellsOpening O.visible (opening_line name.now) (O.slots outs.old) (O.slots outs.new) (fault_in result) }
{
    let line = line_of(alloc, name)?;
    Ok(write_whole(outs, 0, &line)?)
}

/// The line for a file that is to be opened.
fn line_of(alloc: Global, name: &str) -> Result<Vec<u8>, AllocError>
    ensures { IfOk result (λ line. line.items ≡ opening_line name.now) }
{
    let mut line = Vec::from_slice(alloc, b"creating file ")?;
    write_quoted(&mut line, name)?;
    line.extend_from_slice(b"\n")?;
    Ok(line)
}

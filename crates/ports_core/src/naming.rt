ghost use Rattle.std.specs.Prelude.{◌≡◌, false, string_bytes, IsTrue, IfOk, IfErr, IfSome, IfNone};
ghost use Rattle.ports_core.specs.Name.{Naming as Named, IsWide, has_name, has_suffix, name_at, numbered_name};

use crate::numbering::push_decimal;
use crate::{Fault, Numbering};
use std::alloc::{AllocError, Global};
use std::marker::Model;

/// How files are named, by their place: a prefix, the place's number, and an ending. All names have the same prefix and
/// ending.
#[derive(Drop)]
pub struct Naming {
    alloc: Global,
    prefix: String,
    numbering: Numbering,
    ending: String,
}

impl Model for Naming {
    ghost use Rattle.std.specs.Prelude.{string_bytes};
    ghost use Rattle.ports_core.specs.Name.{Naming as Named, IsWide};

    ghost Value = { Named };

    ghost view = { λ n. record {
      prefix = string_bytes n.prefix;
      numbering = n.numbering;
      ending = string_bytes n.ending;
    } };

    ghost invariant = { λ n. IsWide n.numbering };
}

impl Naming {
    /// Names with this prefix and ending, which it keeps. Numbers that widen have at least one character.
    ///
    /// # Errors
    ///
    /// `Memory` if there is no room for the prefix and the ending.
    pub fn new(
        alloc: Global,
        prefix: &str,
        numbering: Numbering,
        ending: &str,
    ) -> Result<Self, Fault>
        requires { IsWide numbering }
        ensures ok { IfOk result (λ naming. naming
            ≡ record { prefix = prefix.now; numbering = numbering; ending = ending.now }) }
        ensures err { IfErr result (λ fault. fault ≡ Fault.Memory) }
    {
        Ok(Naming {
            alloc,
            prefix: String::from_str(alloc, prefix)?,
            numbering,
            ending: String::from_str(alloc, ending)?,
        })
    }

    /// Where names take their memory.
    pub fn alloc(&self) -> Global {
        self.alloc
    }

    /// The name of the file at a place, from 0 on. None if a fixed width has no further name.
    ///
    /// # Errors
    ///
    /// `Memory` if there is no room for the name.
    pub fn name_at(&self, place: u64) -> Result<Option<String>, Fault>
        ensures name { IfOk result (λ found. IfSome found (λ name. string_bytes name ≡ name_at self.now place)) }
        ensures has { IfOk result (λ found. IfSome found (λ _. IsTrue (has_name self.now place))) }
        ensures none { IfOk result (λ found. IfNone found (has_name self.now place ≡ false)) }
        ensures err { IfErr result (λ fault. fault ≡ Fault.Memory) }
        ensures refused { IfErr result (λ _. IsTrue (has_name self.now place)) }
    {
        if !self.numbering.has(place) {
            return Ok(None);
        }
        let name = write_name(
            self.alloc,
            &self.prefix,
            self.numbering,
            &self.ending,
            place,
        )?;
        Ok(Some(name))
    }
}

/// Room for a number; a longer one takes more as it is written.
const ROOM: usize = 16;

/// The name at a place that has a name.
fn write_name(
    alloc: Global,
    prefix: &str,
    numbering: Numbering,
    ending: &str,
    place: u64,
) -> Result<String, AllocError>
    requires wide { IsWide numbering }
    requires has { IsTrue (has_suffix numbering place) }
    ensures { IfOk result (λ name. string_bytes name
        ≡ name_at (record { prefix = prefix.now; numbering = numbering; ending = ending.now }) place) }
{
    let ends = prefix.len().saturating_add(ending.len());
    let mut name = String::with_capacity(alloc, ends.saturating_add(ROOM))?;
    name.push_str(prefix)?;
    numbering.push(&mut name, place)?;
    name.push_str(ending)?;
    Ok(name)
}

/// A prefix and a number in decimal. The number is filled with zeros on the left to `digits` digits, and is whole if it
/// has more (XCU csplit, the names of the files).
///
/// # Errors
///
/// `Memory` if the name found no room.
pub fn numbered(alloc: Global, prefix: &str, digits: u32, number: u64) -> Result<String, Fault>
    ensures ok { IfOk result (λ name. string_bytes name ≡ numbered_name prefix.now digits number) }
    ensures err { IfErr result (λ fault. fault ≡ Fault.Memory) }
{
    let mut name = String::from_str(alloc, prefix)?;
    push_decimal(&mut name, digits as usize, number)?;
    Ok(name)
}

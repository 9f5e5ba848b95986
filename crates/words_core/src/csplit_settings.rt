//! What `csplit` is to do, with the operands that its words spell.
ghost use Rattle.std.specs.Prelude.{◌≡◌, ◌⊎◌, [], map, slice_index_or, IfOk, IfErr};
ghost use Rattle.operand_core.specs.Reading.{Asks};
ghost use Rattle.words_core.specs.{
  CsplitWords.{HasBadOperand, HasRead, asked_with, operand_fault, pattern_kind, style_in},
  Given.operand_seen,
};

use crate::spelled::{Operand, places_of, texts_of};
use operand_core::{OperandFault, OperandFaultKind, Operands, Style, read_operands};
use ports_core::{Calling, Fault, UsageKind};
use std::alloc::Global;
use std::marker::Model;

/// What `csplit` is to do with its input. Its operands are those that their words spell.
#[derive(Drop)]
pub struct CsplitSettings<'a> {
    /// How the program is called. By the tool's own name patterns may be in GNU's spelling, and may cut one line past
    /// the last.
    pub calling: Calling,
    /// How files are made.
    pub style: Style,
    /// The input's name; `-` is standard input.
    pub input: &'a str,
    words: Vec<&'a str>,
    places: Vec<usize>,
    operands: Operands,
}

impl<'a> Model for CsplitSettings<'a> {
    ghost use Rattle.std.specs.Prelude.{map};
    ghost use Rattle.operand_core.specs.Reading.{Asks};
    ghost use Rattle.words_core.specs.CsplitWords.{CsplitAsked};

    ghost Value = { CsplitAsked };

    ghost view = { λ s. record {
      calling = s.calling;
      style = s.style;
      input = s.input.now;
      operands = map (λ word. word.now) s.words.items;
      places = s.places.items;
    } };

    ghost invariant = { λ s. Asks s.calling (map (λ word. word.now) s.words.items) s.operands };
}

impl<'a> CsplitSettings<'a> {
    /// The operands, with their patterns compiled.
    pub fn operands(&self) -> &Operands
        ensures { Asks self.now.calling self.now.operands result.now }
    {
        &self.operands
    }

    /// The word of the operand at this index, empty if there is none.
    pub fn word(&self, index: usize) -> &'a str
        ensures { result.now ≡ slice_index_or self.now.operands index [] }
    {
        self.words.get(index).copied().unwrap_or("")
    }
}

/// Reads the operands of `csplit`. It takes memory for each pattern, and a fixed amount for each operand.
///
/// # Errors
///
/// `Usage` with `BadOperand`, `BadPattern` or `PatternTooLarge`, and the place of the word: the first operand that is
/// wrong. `Memory` if there is no room.
pub fn read_settings<'a>(
    alloc: Global,
    calling: Calling,
    style: Style,
    input: &'a str,
    operands: &[Operand<'a>],
) -> Result<CsplitSettings<'a>, Fault>
    ensures ok { IfOk result (λ settings.
        settings ≡ asked_with calling style input.now (map operand_seen operands.now)) }
    ensures operands { IfOk result HasRead }
    ensures err { IfErr result
        (λ fault. (fault ≡ Fault.Memory)
        ⊎ HasBadOperand (asked_with calling style input.now (map operand_seen operands.now)) fault) }
{
    let style = style_in(calling, style);
    let words = texts_of(alloc, operands)?;
    let places = places_of(alloc, operands)?;
    match read_operands(alloc, calling, &words) {
        Ok(operands) => Ok(CsplitSettings {
            calling,
            style,
            input,
            words,
            places,
            operands,
        }),
        Err(fault) => Err(operand_fault(&places, &fault)),
    }
}

/// How files are made by this call: by the tool's own name the cut of a pattern may stand one line past the last.
fn style_in(calling: Calling, mut style: Style) -> Style
    ensures { result ≡ style_in calling style }
{
    match calling {
        Calling::Cutters => {}
        Calling::OwnName => style.one_past = true,
    }
    style
}

/// The fault that reports what is wrong with an operand, whose word stands at the place of its index.
fn operand_fault(places: &[usize], fault: &OperandFault) -> Fault
    ensures { result ≡ operand_fault places.now fault.now }
{
    let word = places.get(fault.index).copied().unwrap_or(0);
    match fault.kind {
        OperandFaultKind::Memory => Fault::Memory,
        OperandFaultKind::Bre(refused) => {
            Fault::Usage(pattern_kind(refused.number(), refused.offset()), word)
        }
        kind => Fault::Usage(UsageKind::BadOperand(kind.number()), word),
    }
}

/// The fault of a pattern that is refused: the number of the rule, and the place in the pattern, if there is such a
/// place.
fn pattern_kind(number: u8, offset: Option<usize>) -> UsageKind
    ensures { result ≡ pattern_kind number offset }
{
    match offset {
        Some(offset) => UsageKind::BadPattern(number, offset),
        None => UsageKind::PatternTooLarge,
    }
}

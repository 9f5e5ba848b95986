//! Reading a list of operands (POSIX.1-2017, XCU csplit, OPERANDS; `{*}` is GNU's).
ghost use Rattle.std.specs.Prelude.{◌≡◌, ◌≤◌, ◌∷◌, ◌++◌, [], map, length, IfOk, IfErr, OnOk};
ghost use Rattle.operand_core.specs.{
  Reading.{Asks, IsFault, times_by},
  inner.Repeating.{SayTimes, least_by},
  Word.spelling,
};

use crate::target::read_target;
use crate::word::{Word, read_word};
use crate::{Operand, OperandFault, OperandFaultKind, Target, Times};
use ports_core::Calling;
use std::alloc::Global;
use std::marker::Model;

/// Operands that were read, in their order.
#[derive(Drop)]
pub struct Operands {
    list: Vec<Operand>,
}

impl Model for Operands {
    ghost use Rattle.bre_core.specs.Code.{pattern_code};
    ghost use Rattle.std.specs.{Coded.codes, Prelude.List};
    ghost use Rattle.operand_core.specs.declared.operand.Operand.{Operand};

    ghost Value = { List Operand };

    ghost coded = { Prim.hlevel (codes, pattern_code) };

    ghost view = { λ o. o.list.items };
}

impl Operands {
    /// The operands one after another.
    pub fn as_slice(&self) -> &[Operand]
        ensures { result.now ≡ self.now }
    {
        &self.list
    }
}

/// Reads the words that are `csplit`'s operands after its file: line numbers, patterns and repetitions. If the tool was
/// called by its own name, a pattern may be in GNU's spelling. It takes memory for each pattern, and a fixed amount for
/// each operand.
///
/// # Errors
///
/// The first fault in the order of the words, with the word's index. Of one word, what is wrong with the word by itself
/// comes before what is wrong with its place: `RepeatText` before `RepeatFirst`; `Unclosed`, then `Offset`, then `Bre`;
/// `Number`, then `LineZero`, then `LineOrder`. `Missing` if there is no word, at index 0. `Memory` if there is no
/// room, at any word.
pub fn read_operands(
    alloc: Global,
    calling: Calling,
    words: &[&str],
) -> Result<Operands, OperandFault>
    ensures ok { IfOk result (Asks calling (map (λ word. word.now) words.now)) }
    ensures err { IfErr result (IsFault calling (map (λ word. word.now) words.now)) }
{
    if words.is_empty() {
        return Err(OperandFault {
            kind: OperandFaultKind::Missing,
            index: 0,
        });
    }
    let mut list = Vec::new(alloc);
    let mut least = 0;
    let mut left = words;
    while let [word, rest @ ..] = left {
        let index = words.len() - left.len();
        let target = match read_target(alloc, calling, least, word.as_bytes()) {
            Ok(target) => target,
            Err(kind) => return Err(OperandFault { kind, index }),
        };
        least = least_after(least, &target);
        let (times, said) = times_before(rest);
        let operand = Operand {
            index,
            target,
            times,
        };
        if let Err(kind) = keep(&mut list, operand) {
            return Err(OperandFault { kind, index });
        }
        left = &rest[said..];
    }
    Ok(Operands { list })
}

/// Puts an operand after those that were read.
fn keep(list: &mut Vec<Operand>, operand: Operand) -> Result<(), OperandFaultKind>
    ensures ok { OnOk result (list.new.items ≡ list.old.items ++ operand ∷ []) }
    ensures err { IfErr result (λ kind. kind ≡ OperandFaultKind.Memory) }
{
    list.push(operand)?;
    Ok(())
}

/// The nearest line number before what follows an operand.
fn least_after(least: u64, target: &Target) -> u64
    ensures { result ≡ least_by least target.now }
{
    match target {
        Target::Number(number) => *number,
        Target::Search { .. } => least,
    }
}

/// How often the operand before these words is performed again, and how many of them say it: one or none.
fn times_before(words: &[&str]) -> (Times, usize)
    ensures says { SayTimes (map (λ word. word.now) words.now) result.0 result.1 }
    ensures within { result.1 ≤ length words.now }
{
    let [word, ..] = words else {
        return (Times::Count(0), 0);
    };
    match read_again(word.as_bytes()) {
        Some(times) => (times, 1),
        None => (Times::Count(0), 0),
    }
}

/// The repetition that a word spells, if it spells one.
fn read_again(word: &[u8]) -> Option<Times>
    ensures { result ≡ times_by (spelling word.now) }
{
    match read_word(word) {
        Ok(word) => word.again(),
        Err(_) => None,
    }
}

//! What words spell: options with their values, and operands.
ghost use Rattle.std.specs.Prelude.{◌≡◌, [], map, IfOk, IfErr};
ghost use Rattle.words_core.specs.{
  Given.{Given, joined, one_operand, one_option, operand_seen, option_seen, places_of, texts_of},
  Choice.seen,
};

use crate::choice::Choice;
use ports_core::Fault;
use std::alloc::Global;
use std::marker::Model;

/// An option that was given.
#[derive(Clone, Copy, PartialEq, Eq)]
pub struct Chosen<'a> {
    /// What the option asks for.
    pub choice: Choice<'a>,
    /// The place of the word in which the option stands; the tool's name is word 0.
    pub word: usize,
}

/// An operand that was given.
#[derive(Clone, Copy, PartialEq, Eq)]
pub struct Operand<'a> {
    /// The word itself.
    pub text: &'a str,
    /// The place of the word; the tool's name is word 0.
    pub word: usize,
}

/// The options and operands that words spell, each in their order.
#[derive(Drop)]
pub struct Spelled<'a> {
    /// The options, in the order in which they were given.
    pub options: Vec<Chosen<'a>>,
    /// The operands, in the order in which they were given.
    pub operands: Vec<Operand<'a>>,
}

impl<'a> Model for Spelled<'a> {
    ghost Value = { Given };

    ghost view = { λ s. record {
      options = map option_seen s.options.items;
      operands = map operand_seen s.operands.items;
    } };
}

impl<'a> Spelled<'a> {
    /// No options and no operands. It takes no memory.
    pub fn new(alloc: Global) -> Self
        ensures { result ≡ record { options = []; operands = [] } }
    {
        Spelled {
            options: Vec::new(alloc),
            operands: Vec::new(alloc),
        }
    }

    /// Adds an option.
    ///
    /// # Errors
    ///
    /// `Memory` if there is no room for it.
    pub fn add_option(&mut self, choice: Choice<'a>, word: usize) -> Result<(), Fault>
        ensures ok { IfOk result (λ _. self.new ≡ joined self.old (one_option (seen choice.entry) word)) }
        ensures err { IfErr result (λ fault. fault ≡ Fault.Memory) }
    {
        Ok(self.options.push(Chosen { choice, word })?)
    }

    /// Adds an operand.
    ///
    /// # Errors
    ///
    /// `Memory` if there is no room for it.
    pub fn add_operand(&mut self, text: &'a str, word: usize) -> Result<(), Fault>
        ensures ok { IfOk result (λ _. self.new ≡ joined self.old (one_operand text.now word)) }
        ensures err { IfErr result (λ fault. fault ≡ Fault.Memory) }
    {
        Ok(self.operands.push(Operand { text, word })?)
    }
}

/// The texts of operands, in their order.
///
/// # Errors
///
/// `Memory` if there is no room for them.
pub fn texts_of<'a>(alloc: Global, operands: &[Operand<'a>]) -> Result<Vec<&'a str>, Fault>
    ensures ok { IfOk result (λ texts. map (λ text. text.now) texts.items ≡ texts_of (map operand_seen operands.now)) }
    ensures err { IfErr result (λ fault. fault ≡ Fault.Memory) }
{
    let mut texts = Vec::new(alloc);
    for operand in operands {
        texts.push(operand.text)?;
    }
    Ok(texts)
}

/// The places of the words of operands, in their order.
///
/// # Errors
///
/// `Memory` if there is no room for them.
pub fn places_of(alloc: Global, operands: &[Operand<'_>]) -> Result<Vec<usize>, Fault>
    ensures ok { IfOk result (λ places. places.items ≡ places_of (map operand_seen operands.now)) }
    ensures err { IfErr result (λ fault. fault ≡ Fault.Memory) }
{
    let mut places = Vec::new(alloc);
    for operand in operands {
        places.push(operand.word)?;
    }
    Ok(places)
}

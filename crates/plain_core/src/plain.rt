//! The plain matcher: it goes over a pattern with tables of which stretches there are.

ghost use Rattle.std.specs.Prelude.{◌≡◌, List, [], None, IfOk, OnOk, IfErr, length};
ghost use Rattle.bre_core.specs.{
  Flat.{current_after, around_after},
  Pattern.{Pattern, nothing},
  Search.{contains, matches},
  declared.fault.BreFault.TheVariants.Memory,
};
ghost use Rattle.plain_core.specs.inner.{Plain.{FrameIs, Means}, Table.IsTable};

use crate::table::Table;
use bre_core::{BreFault, Expression, Token};
use scan_core::Bre;
use std::alloc::Global;
use std::mem;

/// The tables of the concatenation that is gone over, with its last item apart, and of the concatenations around it, the innermost last.
#[derive(Drop)]
struct Plain {
    around: Vec<Table>,
    before: Table,
    last: Option<Table>,
}

impl Plain {
    /// Before the first token: the empty concatenation.
    fn new(alloc: Global, line: &[u8]) -> Result<Plain, BreFault>
        ensures ok { IfOk result (Means line.now nothing []) }
        ensures err { IfErr result (λ fault. fault ≡ Memory) }
    {
        let before = Table::of_token(alloc, &Token::Open, line)?;
        Ok(Plain {
            around: Vec::new(alloc),
            before,
            last: None,
        })
    }

    /// Appends the last item to the items before it.
    fn settle(&mut self, alloc: Global, line: &[u8]) -> Result<(), BreFault>
        ensures around { OnOk result (self.new.around ≡ self.old.around) }
        ensures before { (current : Pattern) → FrameIs line.now current self.old.before self.old.last
            → OnOk result (IsTable (length line.now) (matches current line.now) self.new.before) }
        ensures last { OnOk result (self.new.last ≡ None) }
        ensures err { IfErr result (λ fault. fault ≡ Memory) }
    {
        if let Some(item) = self.last.take() {
            self.before = self.before.with_after(alloc, line, &item)?;
        }
        Ok(())
    }

    /// Goes on by one token.
    fn take(&mut self, alloc: Global, token: &Token, line: &[u8]) -> Result<(), BreFault>
        ensures ok { (current : Pattern) (around : List Pattern) → Means line.now current around self.old
            → OnOk result
            (Means line.now (current_after token.now current around) (around_after token.now current around) self.new) }
        ensures err { IfErr result (λ fault. fault ≡ Memory) }
    {
        match token {
            Token::Set(_) | Token::Front | Token::End => {
                self.settle(alloc, line)?;
                self.last = Some(Table::of_token(alloc, token, line)?);
                Ok(())
            }
            Token::Open => {
                self.settle(alloc, line)?;
                let inner = Table::of_token(alloc, token, line)?;
                let outer = mem::replace(&mut self.before, inner);
                Ok(self.around.push(outer)?)
            }
            Token::Close => {
                let Some(outer) = self.around.pop() else {
                    return Ok(());
                };
                self.settle(alloc, line)?;
                let inner = mem::replace(&mut self.before, outer);
                self.last = Some(inner);
                Ok(())
            }
            Token::Repeat(low, high) => {
                let Some(item) = self.last.take() else {
                    return Ok(());
                };
                self.last = Some(item.repeated(alloc, line, *low, *high)?);
                Ok(())
            }
        }
    }
}

/// Whether some stretch of the line, taken without its newline, matches the pattern (XBD 9.1).
///
/// For a line of n bytes it keeps (n + 1) times (n + 1) flags for what it has gone over and for each open group. While an item is repeated,
/// it keeps as many for each number of parts, of which n are tried beyond the least one. Each token takes up to n to the power of 3 steps,
/// a duplication as many for each number of parts: this is the plain program that a faster one is compared with.
///
/// # Errors
///
/// `Memory` alone.
pub fn matches_expression(
    alloc: Global,
    expression: &Expression,
    line: &[u8],
) -> Result<bool, BreFault>
    ensures exact { IfOk result (λ found. found ≡ contains expression.now line.now) }
    ensures err { IfErr result (λ fault. fault ≡ Memory) }
{
    let mut plain = Plain::new(alloc, line)?;
    for token in expression.tokens() {
        plain.take(alloc, token, line)?;
    }
    plain.settle(alloc, line)?;
    Ok(plain.before.has_any(line))
}

/// Whether some stretch of the line, taken without its newline, matches the pattern (XBD 9.1), as `matches_expression`
/// finds it, and with as much memory: the pattern's code isn't looked at. `Scan::matches` of `scan_core` returns the same
/// fast, and without memory.
///
/// # Errors
///
/// `Memory` alone.
pub fn matches_plain(alloc: Global, bre: &Bre, line: &[u8]) -> Result<bool, BreFault>
    ensures exact { IfOk result (λ found. found ≡ contains bre.now line.now) }
    ensures err { IfErr result (λ fault. fault ≡ Memory) }
{
    matches_expression(alloc, bre.expression(), line)
}

ghost use Rattle.std.specs.Prelude.{◌≡◌, IfOk};
ghost use Rattle.bre_core.specs.{Pattern.{Pattern, Reads}, Search.contains};

use bre_core::{BreFault, Expression};
use plain_core::matches_expression;
use std::alloc::Global;

/// Whether a line contains a match of the pattern that a text spells.
pub(crate) fn has_match(alloc: Global, text: &[u8], line: &[u8]) -> Result<bool, BreFault>
    ensures { IfOk result (λ found. (pattern : Pattern) × Reads text.now pattern × (found ≡ contains pattern line.now)) }
{
    let expression = Expression::read(alloc, text)?;
    matches_expression(alloc, &expression, line)
}

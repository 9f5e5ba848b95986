ghost use Rattle.std.specs.Prelude.{◌≡◌, IfOk};
ghost use Rattle.bre_core.specs.Pattern.{Pattern, Reads, positions_of};

use bre_core::{BreFault, Expression};
use std::alloc::Global;

/// How many positions the pattern has that a text spells.
pub(crate) fn count_positions(alloc: Global, text: &[u8]) -> Result<u64, BreFault>
    ensures { IfOk result (λ count. (pattern : Pattern) × Reads text.now pattern × (count ≡ positions_of pattern)) }
{
    let expression = Expression::read(alloc, text)?;
    Ok(expression.positions())
}

ghost use Rattle.std.specs.Prelude.{◌≡◌, List, length, map, IfOk};
ghost use Rattle.operand_core.specs.{Reading.Asks, declared.operand.Operand.Operand};

use operand_core::{OperandFault, read_operands};
use ports_core::Calling;
use std::alloc::Global;

/// How many operands words ask for; a repetition belongs to the one before it.
pub(crate) fn count_operands(
    alloc: Global,
    calling: Calling,
    words: &[&str],
) -> Result<usize, OperandFault>
    ensures { IfOk result (λ count. (operands : List Operand) × Asks calling (map (λ word. word.now) words.now) operands
        × (count ≡ length operands)) }
{
    let operands = read_operands(alloc, calling, words)?;
    Ok(operands.as_slice().len())
}

ghost use Rattle.std.specs.Prelude.{◌≡◌, IfOk};
ghost use Rattle.bre_core.specs.Search.{contains};

use scan_core::{Bre, BreFault, Scan};
use std::alloc::Global;

/// Which of two lines contain a match: the pattern was read once, and matching takes no memory.
pub(crate) fn which_match(
    alloc: Global,
    bre: &Bre,
    first: &[u8],
    second: &[u8],
) -> Result<(bool, bool), BreFault>
    ensures first { IfOk result (λ found. found.0 ≡ contains bre.now first.now) }
    ensures second { IfOk result (λ found. found.1 ≡ contains bre.now second.now) }
{
    let mut scan = Scan::new(alloc, bre)?;
    let has_first = scan.search(bre, first).found;
    let has_second = scan.search(bre, second).found;
    Ok((has_first, has_second))
}

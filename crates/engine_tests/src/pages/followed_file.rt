ghost use Rattle.std.specs.Prelude.{◌≡◌, []};
ghost use Rattle.ports_core.specs.Slot.{streams};

use ends_core::Unit;
use follow_core::{Limits, Method, Start, follow_files};
use ports_core::{Calling, Outs};
use std::alloc::Global;
use watch_core::Watch;

/// The last line at first.
const LAST_LINE: Start = Start {
    unit: Unit::Lines,
    from_nth: false,
    count: 1,
    delim: b'\n',
};

/// Follows `log` by its name, in this many looks, and returns the status.
pub(crate) fn follow_file<W: Watch, O: Outs>(
    alloc: Global,
    looks: u64,
    watch: &mut W,
    outs: &mut O,
) -> u8
    requires unseen { W.seen watch.old ≡ [] }
    requires unwatched { W.watched watch.old ≡ [] }
    requires outputs { O.slots outs.old ≡ streams }
{
    let limits = Limits {
        looks,
        process: None,
    };
    let calling = Calling::Cutters;
    follow_files(
        alloc,
        calling,
        &["log"],
        LAST_LINE,
        Method::Name,
        false,
        limits,
        watch,
        outs,
    )
}

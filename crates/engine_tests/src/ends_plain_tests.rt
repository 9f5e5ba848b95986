//! The engines beside the plain programs: short texts, each cut into pieces in each way.
ghost use Rattle.std.specs.Prelude.{IsTrue};
ghost use Rattle.ports_core.specs.Slot.{is_writable};

use crate::ends_plain::{Asked, Side, plain};
use crate::play::{close, feed_all, open_ends};
use crate::test_texts::{DELIMITERS, Short, short_texts};
use ends_core::{Portion, Unit};
use engine_core::Engine;
use mem_core::MemOut;
use ports_core::Fault;
use std::alloc::Global;
use std::test::Fail;

#[test]
fn do_as_the_plain_programs(rt: HostRuntime) -> Result<(), Fail> {
    for delim in DELIMITERS {
        for short in short_texts(rt.alloc(), delim)? {
            assert!(rt;
                agree_on_short(rt.alloc(), &short, delim)?,
                "on {:?}, ended with {delim}",
                short.text()
            );
        }
    }
    Ok(())
}

/// Whether all engines agree with the plain programs on a text, in each way to cut it.
fn agree_on_short(alloc: Global, short: &Short, delim: u8) -> Result<bool, Fault> {
    let cuttings = short.cuttings(alloc)?;
    for unit in [Unit::Lines, Unit::Bytes] {
        for count in 0..5 {
            if !agree_on_count(alloc, unit, count, delim, short.text(), &cuttings)? {
                return Ok(false);
            }
        }
    }
    Ok(true)
}

fn agree_on_count(
    alloc: Global,
    unit: Unit,
    count: u64,
    delim: u8,
    text: &[u8],
    cuttings: &[Vec<&[u8]>],
) -> Result<bool, Fault> {
    for side in [Side::First, Side::ButLast, Side::Last, Side::FromNth] {
        let asked = Asked {
            side,
            unit,
            count,
            delim,
        };
        if !agree_on(alloc, asked, text, cuttings)? {
            return Ok(false);
        }
    }
    Ok(true)
}

fn agree_on(
    alloc: Global,
    asked: Asked,
    text: &[u8],
    cuttings: &[Vec<&[u8]>],
) -> Result<bool, Fault> {
    let wanted = plain(alloc, asked, text)?;
    for pieces in cuttings {
        if !agrees(alloc, asked, pieces, &wanted)? {
            return Ok(false);
        }
    }
    Ok(true)
}

/// Whether all that is wanted is written at the end. Before it all is written too, or nothing where the last are
/// wanted.
fn agrees(alloc: Global, asked: Asked, pieces: &[&[u8]], wanted: &[u8]) -> Result<bool, Fault> {
    let settled: &[u8] = match asked.side {
        Side::Last => &[],
        _ => wanted,
    };
    let mut outs = MemOut::new(alloc)?;
    let mut engine = open_ends(alloc, asked)?;
    writes(&mut engine, &mut outs, pieces, settled, wanted)
}

fn writes(
    engine: &mut Engine<Portion>,
    outs: &mut MemOut,
    pieces: &[&[u8]],
    settled: &[u8],
    wanted: &[u8],
) -> Result<bool, Fault>
    requires { IsTrue (is_writable outs.old 0) }
{
    feed_all(engine, outs, pieces)?;
    let is_early = outs.bytes(0) == settled;
    close(engine, outs)?;
    Ok(is_early && outs.bytes(0) == wanted)
}

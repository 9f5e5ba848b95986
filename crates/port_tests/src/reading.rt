//! Inputs as tables: what is asked of an input call by call, and what it must answer.
ghost use Rattle.std.specs.Prelude.{◌≡◌, ℕ, false, nat_eq, IfOk, OnOk, IsTrue};
ghost use Rattle.ports_core.specs.Source.{is_readable};

use crate::compare::same;
use mem_core::MemIn;
use ports_core::{DirIn, Fault, InputFiles, Inputs};
use std::alloc::Global;
use std::process::Abort;

/// A call for an input, and its answer. One buffer serves all calls of a table.
#[derive(Clone, Copy)]
pub(crate) enum Call<'a> {
    /// A read into this much of the buffer gives this many bytes, and the buffer then begins with these.
    Read(usize, usize, &'a [u8]),
    /// A read into this much of the buffer returns this fault. It is the last call of a table.
    Fails(usize, Fault),
    /// So many bytes are shown.
    Shown(Option<u64>),
    /// These bytes are shown from a place on.
    Shows(u64, &'a [u8]),
    /// From a place on, this many bytes can't be shown.
    Hides(u64, usize),
    /// So many bytes are passed over.
    Skip(u64),
    /// So many bytes can't be passed over.
    Keeps(u64),
}

/// Inputs of which the first has these bytes and shows them, and breaks off after this many.
pub(crate) fn broken_input(alloc: Global, bytes: &[u8], at: usize) -> Result<MemIn, Fault>
    ensures { IfOk result (λ inputs. IsTrue (is_readable inputs.sources 0)) }
{
    let mut inputs = MemIn::new(alloc)?;
    inputs.input_showing(bytes, bytes)?;
    inputs.break_at(0, at)?;
    Ok(inputs)
}

/// Opens an input, which gets this number.
pub(crate) fn open_input<I: Inputs>(
    rt: &impl Abort,
    inputs: &mut I,
    name: &str,
    number: usize,
) -> Result<(), Fault>
    ensures opened { OnOk result (IsTrue (is_readable (I.sources inputs.new) number)) }
    ensures others { (other : ℕ) → IsTrue (is_readable (I.sources inputs.old) other) → IsTrue (is_readable (I.sources inputs.new) other) }
{
    match inputs.open(name) {
        Ok(slot) => {
            assert!(rt; slot == number, "{name} is input {slot}");
            Ok(())
        }
        Err(fault) => Err(fault),
    }
}

/// The inputs of a run, which notes their files there.
pub(crate) fn inputs_of<'a>(rt: HostRuntime, noted: &'a InputFiles) -> DirIn<'a, HostRuntime>
    ensures { IsTrue (is_readable result 0) }
{
    DirIn::new(rt, rt.alloc(), rt.stdin(), noted)
}

/// Opens an input, which gets this number, and makes all calls for it.
pub(crate) fn open_and_ask<I: Inputs>(
    rt: &impl Abort,
    inputs: &mut I,
    name: &str,
    number: usize,
    calls: &[Call<'_>],
) -> Result<(), Fault> {
    open_input(rt, inputs, name, number)?;
    ask(rt, inputs, number, calls);
    Ok(())
}

/// Makes all calls for an input, one after another, and returns whether it can still be read.
pub(crate) fn ask<I: Inputs>(
    rt: &impl Abort,
    inputs: &mut I,
    slot: usize,
    calls: &[Call<'_>],
) -> bool
    requires { IsTrue (is_readable (I.sources inputs.old) slot) }
    ensures sound { IsTrue result → IsTrue (is_readable (I.sources inputs.new) slot) }
    ensures others { (other : ℕ) → nat_eq other slot ≡ false → is_readable (I.sources inputs.new) other ≡ is_readable (I.sources inputs.old) other }
{
    let mut buffer = [0u8; 9];
    let mut is_sound = true;
    let mut number = 0usize;
    for call in calls {
        assert!(rt; is_sound, "broken before call {number}");
        is_sound = answers(rt, inputs, slot, &mut buffer, call);
        number = number.saturating_add(1);
    }
    is_sound
}

/// Makes a call for an input, and returns whether it can still be read.
fn answers<I: Inputs>(
    rt: &impl Abort,
    inputs: &mut I,
    slot: usize,
    buffer: &mut [u8],
    call: &Call<'_>,
) -> bool
    requires { IsTrue (is_readable (I.sources inputs.old) slot) }
    ensures sound { IsTrue result → IsTrue (is_readable (I.sources inputs.new) slot) }
    ensures others { (other : ℕ) → nat_eq other slot ≡ false → is_readable (I.sources inputs.new) other ≡ is_readable (I.sources inputs.old) other }
{
    match call {
        Call::Read(size, count, front) => {
            let given = read(rt, inputs, slot, buffer, *size);
            same(rt, &given, &Ok(*count));
            assert!(rt; begins(buffer, front));
            given.is_ok()
        }
        Call::Fails(size, fault) => {
            same(rt, &read(rt, inputs, slot, buffer, *size), &Err(*fault));
            false
        }
        _ => {
            assert!(rt; is_so(rt, inputs, slot, buffer, call));
            true
        }
    }
}

/// Reads into this much of a buffer.
fn read<I: Inputs>(
    rt: &impl Abort,
    inputs: &mut I,
    slot: usize,
    buffer: &mut [u8],
    size: usize,
) -> Result<usize, Fault>
    requires { IsTrue (is_readable (I.sources inputs.old) slot) }
    ensures sound { OnOk result (IsTrue (is_readable (I.sources inputs.new) slot)) }
    ensures others { (other : ℕ) → nat_eq other slot ≡ false → is_readable (I.sources inputs.new) other ≡ is_readable (I.sources inputs.old) other }
{
    assert!(rt; size <= buffer.len());
    match inputs.read(slot, &mut buffer[..size]) {
        Ok(count) => Ok(count),
        Err(fault) => Err(fault),
    }
}

/// Whether a buffer begins with these bytes.
fn begins(buffer: &[u8], front: &[u8]) -> bool {
    buffer.starts_with(front)
}

/// Passes over bytes.
fn passes<I: Inputs>(inputs: &mut I, slot: usize, count: u64) -> bool
    requires { IsTrue (is_readable (I.sources inputs.old) slot) }
    ensures sound { IsTrue (is_readable (I.sources inputs.new) slot) }
    ensures others { (other : ℕ) → nat_eq other slot ≡ false → is_readable (I.sources inputs.new) other ≡ is_readable (I.sources inputs.old) other }
{
    inputs.skip(slot, count)
}

/// Looks at a place, into this much of a buffer.
fn look<I: Inputs>(
    rt: &impl Abort,
    inputs: &mut I,
    slot: usize,
    buffer: &mut [u8],
    place: u64,
    size: usize,
) -> bool
    requires { IsTrue (is_readable (I.sources inputs.old) slot) }
    ensures sound { IsTrue (is_readable (I.sources inputs.new) slot) }
    ensures others { (other : ℕ) → nat_eq other slot ≡ false → is_readable (I.sources inputs.new) other ≡ is_readable (I.sources inputs.old) other }
{
    assert!(rt; size <= buffer.len());
    inputs.read_at(slot, place, &mut buffer[..size])
}

/// Whether a call that is no read returns what it must.
fn is_so<I: Inputs>(
    rt: &impl Abort,
    inputs: &mut I,
    slot: usize,
    buffer: &mut [u8],
    call: &Call<'_>,
) -> bool
    requires { IsTrue (is_readable (I.sources inputs.old) slot) }
    ensures sound { IsTrue (is_readable (I.sources inputs.new) slot) }
    ensures others { (other : ℕ) → nat_eq other slot ≡ false → is_readable (I.sources inputs.new) other ≡ is_readable (I.sources inputs.old) other }
{
    match call {
        Call::Shown(count) => inputs.shown(slot) == *count,
        Call::Shows(place, bytes) => {
            look(rt, inputs, slot, buffer, *place, bytes.len()) && begins(buffer, bytes)
        }
        Call::Hides(place, size) => !look(rt, inputs, slot, buffer, *place, *size),
        Call::Skip(count) => passes(inputs, slot, *count),
        Call::Keeps(count) => !passes(inputs, slot, *count),
        _ => false,
    }
}

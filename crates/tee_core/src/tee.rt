//! An input's copies.
ghost use Rattle.std.specs.{
  Prelude.{◌≡◌, ◌++◌, ◌+◌, ◌≤◌, ◌<◌, ◌^◌, ◌-◌, ℕ, List, true, false, length, map, IfOk, IfErr, OnOk},
};
ghost use Rattle.ports_core.specs.Slot.{Slot, adds, is_open, slot_at, visible_of};
ghost use Rattle.tee_core.specs.{
  Opening.{Opens, OpensSome},
  inner.{Opening.OpensOne, ChangesSome.ChangesSome},
  Outputs.{ChangesEach, Closes, Gets, IsFile, IsOutput, IsReady, IsUsable, newly_broken},
  TeeState.TeeState,
};

use ports_core::{Fault, Mode, Outs, write_whole};
use std::alloc::Global;
use std::marker::Model;
use std::mem::replace;

/// The number of standard output.
const STANDARD_OUTPUT: usize = 0;

/// Copies an input to standard output and then to each file in order (POSIX.1-2017, XCU tee). An output that breaks is left
/// out from then on, and the others go on. Each piece goes straight to every output: nothing is held, and no memory is
/// taken.
#[derive(Drop)]
pub struct Tee {
    /// The slot of the first file; the other files follow.
    first: usize,
    /// How many files there are.
    count: usize,
    /// Whether it was closed.
    is_over: bool,
}

impl Model for Tee {
    ghost Value = { TeeState };

    ghost view = { λ t. record { first = t.first; count = t.count; is_over = t.is_over } };

    ghost invariant = { λ t. (t.first + t.count ≤ 2 ^ 64) × (0 < t.count → 2 ≤ t.first) };
}

impl Tee {
    /// Opens the files, in order; there may be none. A file that can't be opened is a broken output, and is left out. A tee itself takes no
    /// memory: it knows outputs by their numbers, and those of the files follow one another.
    ///
    /// # Errors
    ///
    /// `Memory` if there are more files than numbers left for outputs: the files before are open.
    pub fn open<O: Outs>(
        alloc: Global,
        names: &[&str],
        mode: Mode,
        outs: &mut O,
    ) -> Result<Tee, Fault>
        requires streams { 2 ≤ length (O.slots outs.old) }
        requires output { is_open (slot_at (O.slots outs.old) 0).state ≡ true }
        ensures live { IfOk result (λ tee. tee.is_over ≡ false) }
        ensures files { IfOk result (λ tee. (tee.count ≡ length names.now)
            × (0 < tee.count → tee.first ≡ length (O.slots outs.old))) }
        ensures opens { OnOk result (Opens mode (map (λ name. name.now) names.now) (O.slots outs.old)
            (O.slots outs.new)) }
        ensures ready { IfOk result (λ tee. IsReady tee (O.slots outs.new)) }
        ensures err { IfErr result
            (λ fault. (fault ≡ Fault.Memory) × (2 ^ 64 - 1 < length (O.slots outs.old) + length names.now)) }
        ensures some { IfErr result
            (λ _. OpensSome mode (map (λ name. name.now) names.now) (O.slots outs.old) (O.slots outs.new)) }
    {
        let _ = alloc;
        let [name, rest @ ..] = names else {
            return Ok(Tee {
                first: 0,
                count: 0,
                is_over: false,
            });
        };
        let first = open_file(name, mode, outs)?;
        open_files(rest, mode, outs)?;
        Ok(Tee {
            first,
            count: names.len(),
            is_over: false,
        })
    }

    /// Writes the piece to standard output, and then to each file in order, and returns how many of them broke. An output that
    /// breaks keeps a beginning of the piece, and the others get all of it. After `close` it writes nothing and returns 0.
    /// It takes no memory.
    pub fn feed<O: Outs>(&mut self, piece: &[u8], outs: &mut O) -> u64
        requires { self.old.is_over ≡ false → IsReady self.old (O.slots outs.old) }
        ensures same { self.new ≡ self.old }
        ensures gets { self.old.is_over ≡ false
            → ChangesEach (Gets O.visible piece.now) (IsOutput self.old) (O.slots outs.old) (O.slots outs.new) }
        ensures sound { self.old.is_over ≡ false → (place : ℕ) → IsOutput self.old place
            → (slot_at (O.slots outs.new) place).is_broken ≡ false
            → slot_at (O.slots outs.new) place
            ≡ adds (visible_of O.visible piece.now) (slot_at (O.slots outs.old) place) }
        ensures so_far { self.old.is_over ≡ false → (start : List Slot) (x : List ℕ)
            → ChangesEach (Gets O.visible x) (IsOutput self.old) start (O.slots outs.old)
            → ChangesEach (Gets O.visible (x ++ piece.now)) (IsOutput self.old) start (O.slots outs.new) }
        ensures broke { result ≡ newly_broken (O.slots outs.old) (O.slots outs.new) }
        ensures ready { self.old.is_over ≡ false → IsReady self.old (O.slots outs.new) }
        ensures over { self.old.is_over ≡ true → (result ≡ 0) × (O.slots outs.new ≡ O.slots outs.old) }
    {
        if self.is_over {
            return 0;
        }
        let broke = write_piece(STANDARD_OUTPUT, piece, outs);
        broke + self.write_files(piece, outs)
    }

    /// Closes the files in order, and returns how many of them broke. Standard output stays open. After that it does nothing
    /// and returns 0. It takes no memory.
    pub fn close<O: Outs>(&mut self, outs: &mut O) -> u64
        requires { self.old.is_over ≡ false → IsReady self.old (O.slots outs.old) }
        ensures closes { self.old.is_over ≡ false
            → ChangesEach Closes (IsFile self.old) (O.slots outs.old) (O.slots outs.new) }
        ensures broke { result ≡ newly_broken (O.slots outs.old) (O.slots outs.new) }
        ensures is_over { self.new ≡ record self.old { is_over = true } }
        ensures over { self.old.is_over ≡ true → (result ≡ 0) × (O.slots outs.new ≡ O.slots outs.old) }
    {
        if replace(&mut self.is_over, true) {
            return 0;
        }
        self.close_files(outs)
    }

    /// Writes the piece to each file in order, and returns how many broke.
    fn write_files<O: Outs>(&self, piece: &[u8], outs: &mut O) -> u64
        requires { (place : ℕ) → IsFile self.now place → IsUsable (slot_at (O.slots outs.old) place) }
        ensures turned { ChangesSome (Gets O.visible piece.now) (IsFile self.now) (O.slots outs.old)
            (O.slots outs.new) result }
        ensures few { result ≤ self.now.count }
    {
        let mut broke = 0;
        for n in 0..self.count {
            broke += write_piece(self.first + n, piece, outs);
        }
        broke
    }

    /// Closes each file in order, and returns how many broke.
    fn close_files<O: Outs>(&self, outs: &mut O) -> u64
        requires { (place : ℕ) → IsFile self.now place → IsUsable (slot_at (O.slots outs.old) place) }
        ensures { ChangesSome Closes (IsFile self.now) (O.slots outs.old) (O.slots outs.new) result }
    {
        let mut broke = 0;
        for n in 0..self.count {
            broke += close_file(self.first + n, outs);
        }
        broke
    }
}

/// Opens files in order.
///
/// # Errors
///
/// `Memory` if no number is left for a file: the files before are open.
fn open_files<O: Outs>(names: &[&str], mode: Mode, outs: &mut O) -> Result<(), Fault>
    requires { length (O.slots outs.old) ≤ 2 ^ 64 }
    ensures ok { OnOk result (Opens mode (map (λ name. name.now) names.now) (O.slots outs.old) (O.slots outs.new)) }
    ensures bound { OnOk result (length (O.slots outs.new) ≤ 2 ^ 64) }
    ensures err { IfErr result
        (λ fault. (fault ≡ Fault.Memory) × (2 ^ 64 - 1 < length (O.slots outs.old) + length names.now)) }
    ensures some { IfErr result
        (λ _. OpensSome mode (map (λ name. name.now) names.now) (O.slots outs.old) (O.slots outs.new)) }
{
    let mut left = names;
    while let [name, rest @ ..] = left {
        open_file(name, mode, outs)?;
        left = rest;
    }
    Ok(())
}

/// Opens a file, and returns its number, also if it can't be opened.
///
/// # Errors
///
/// `Memory` if no number is left.
fn open_file<O: Outs>(name: &str, mode: Mode, outs: &mut O) -> Result<usize, Fault>
    ensures ok { IfOk result (λ slot. (slot ≡ length (O.slots outs.old))
        × OpensOne mode name.now (O.slots outs.old) (O.slots outs.new)) }
    ensures bound { IfOk result (λ slot. slot < 2 ^ 64) }
    ensures err { IfErr result
        (λ fault. (fault ≡ Fault.Memory) × (2 ^ 64 - 1 ≤ length (O.slots outs.old))
        × (O.slots outs.new ≡ O.slots outs.old)) }
{
    match outs.open(name, mode) {
        Ok(slot) => Ok(slot),
        Err(Fault::Open(slot)) => Ok(slot),
        Err(_) => Err(Fault::Memory),
    }
}

/// Writes the piece to an output, unless that is broken. Returns 1 if it broke, and else 0.
fn write_piece<O: Outs>(slot: usize, piece: &[u8], outs: &mut O) -> u64
    requires { IsUsable (slot_at (O.slots outs.old) slot) }
    ensures turned { ChangesSome (Gets O.visible piece.now) (λ place. place ≡ slot) (O.slots outs.old)
        (O.slots outs.new) result }
    ensures few { result ≤ 1 }
{
    if outs.broken(slot) {
        return 0;
    }
    match write_whole(outs, slot, piece) {
        Ok(()) => 0,
        Err(_) => 1,
    }
}

/// Closes a file, unless it is broken. Returns 1 if it broke, and else 0.
fn close_file<O: Outs>(slot: usize, outs: &mut O) -> u64
    requires file { 2 ≤ slot }
    requires usable { IsUsable (slot_at (O.slots outs.old) slot) }
    ensures turned { ChangesSome Closes (λ place. place ≡ slot) (O.slots outs.old) (O.slots outs.new) result }
    ensures few { result ≤ 1 }
{
    if outs.broken(slot) {
        return 0;
    }
    match outs.close(slot) {
        Ok(()) => 0,
        Err(_) => 1,
    }
}

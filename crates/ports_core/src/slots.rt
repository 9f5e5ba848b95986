ghost use Rattle.std.specs.{
  Prelude.{◌≡◌, [], ◌≤◌, ◌<◌, ◌+◌, ◌-◌, ◌^◌, ◌∷◌, ◌++◌, ℕ, List, false, length, string_bytes, IsTrue, IfOk, IfSome},
  Prelude.{IfNone, OnOk, vec_capacity, vec_len},
};
ghost use Rattle.ports_core.specs.Slot.{with_lost};

use std::alloc::{AllocError, Global};

/// What is kept of an output. Something is kept even of an output whose file couldn't be opened.
pub trait Unopened {
    /// What is kept of an output of this name whose file couldn't be opened.
    ghost unopened: { List ℕ → Self };

    /// Makes what is kept of an output whose file couldn't be opened. It takes no memory.
    fn unopened(alloc: Global, name: String) -> Self
        ensures { result ≡ unopened (string_bytes name) };
}

/// What is kept of outputs, in the order in which they were opened. An output for which there is no memory can't be
/// opened: it is counted, and gets a place of its own, without its name, once there is memory.
#[derive(Drop)]
pub struct Slots<S: Drop> {
    /// What is kept of each output.
    pub kept: Vec<S>,
    /// How many outputs after these couldn't be opened, and found no memory to be kept.
    pub lost: usize,
}

impl<S: Unopened + Drop> Slots<S> {
    /// No outputs.
    pub fn new(alloc: Global) -> Self
        ensures kept { result.kept.items ≡ [] }
        ensures lost { result.lost ≡ 0 }
    {
        Slots {
            kept: Vec::new(alloc),
            lost: 0,
        }
    }

    /// The number of the next output, if `before` other outputs stand before these. None if no number is left.
    pub fn next(&self, before: usize) -> Option<usize>
        ensures next { IfSome result
            (λ number. (number ≡ before + (length self.now.kept.items + self.now.lost)) × (number < 2 ^ 64 - 1)) }
        ensures full { IfNone result (2 ^ 64 - 1 ≤ before + (length self.now.kept.items + self.now.lost)) }
    {
        let number = self.kept.len().checked_add(self.lost)?.checked_add(before)?;
        if number == usize::MAX {
            return None;
        }
        Some(number)
    }

    /// What an output needs before its file is touched: room in the list, and a copy of its name, which is returned.
    /// None if there is no memory: then the output can't be opened, and is counted among the others, without its name.
    pub fn room_for(&mut self, alloc: Global, name: &str) -> Option<String>
        requires { self.old.lost < 2 ^ 64 - 1 }
        ensures name { IfSome result (λ copy. string_bytes copy ≡ name.now) }
        ensures all { IfSome result (λ _. self.new.lost ≡ 0) }
        ensures same { IfSome result
            (λ _. self.new.kept.items ≡ with_lost (S.unopened []) self.old.kept.items self.old.lost) }
        ensures lost { IfNone result
            (with_lost (S.unopened []) self.new.kept.items self.new.lost
            ≡ with_lost (S.unopened []) self.old.kept.items self.old.lost ++ S.unopened [] ∷ []) }
        ensures room { IfSome result (λ _. vec_len self.new.kept < vec_capacity self.new.kept) }
    {
        restore(alloc, &mut self.kept, &mut self.lost);
        if self.lost > 0 {
            self.lost += 1;
            return None;
        }
        let Ok(copy) = copy_with_room(alloc, &mut self.kept, name) else {
            self.lost += 1;
            return None;
        };
        Some(copy)
    }

    /// Adds an output after the others, and returns whether there was memory for it, as there is after `room_for`. If
    /// there was none, an output that can't be opened is added in its place.
    pub fn keep(&mut self, slot: S) -> bool
        requires { self.old.lost ≡ 0 }
        ensures kept { IsTrue result
            → with_lost (S.unopened []) self.new.kept.items self.new.lost ≡ self.old.kept.items ++ slot ∷ [] }
        ensures lost { result ≡ false
            → with_lost (S.unopened []) self.new.kept.items self.new.lost ≡ self.old.kept.items ++ S.unopened [] ∷ [] }
        ensures always { vec_len self.old.kept < vec_capacity self.old.kept → IsTrue result }
    {
        if self.kept.push(slot).is_ok() {
            return true;
        }
        self.lost += 1;
        false
    }
}

/// Gives outputs that were lost their own places in the list, as far as there is memory.
fn restore<S: Unopened + Drop>(alloc: Global, kept: &mut Vec<S>, lost: &mut usize)
    ensures same { with_lost (S.unopened []) kept.new.items lost.new
        ≡ with_lost (S.unopened []) kept.old.items lost.old }
    ensures fewer { lost.new ≤ lost.old }
{
    while *lost > 0 {
        if kept.push(S::unopened(alloc, String::new(alloc))).is_err() {
            return;
        }
        *lost -= 1;
    }
}

/// Copies a name, and makes room for one more.
fn copy_with_room<S: Drop>(
    alloc: Global,
    kept: &mut Vec<S>,
    name: &str,
) -> Result<String, AllocError>
    ensures name { IfOk result (λ copy. string_bytes copy ≡ name.now) }
    ensures same { kept.new.items ≡ kept.old.items }
    ensures room { OnOk result (vec_len kept.new < vec_capacity kept.new) }
{
    let copy = String::from_str(alloc, name)?;
    kept.reserve(1)?;
    Ok(copy)
}

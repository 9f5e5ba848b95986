//! Laws of the definitions, with no code: each stands on the contract of a function that does nothing.
ghost use Rattle.std.specs.{
  Prelude.{◌≡◌, ◌<◌, ◌≤◌, ◌+◌, ◌-◌, ◌++◌, ◌⊎◌, ◌↔◌, ℕ, Bool, List, [], length, None, Some, true, false},
};
ghost use Rattle.seg_core.specs.Line.{delimiters, ends_with, line_count};
ghost use Rattle.ends_core.specs.{
  Ends.{after_of, but_last_of, first_of, last_of, measure, size, tail_of},
  Head.{head_waiting, head_work},
  Place.{between_spots, head_spots, tail_spots},
  Shown.{head_shown, place_of, tail_shown},
  Stage.{Holds, all_but_last, count_of, delim_of, terms, keeps, may_lack, stretch_of, the_last, unit_of, waiting_of},
  Stage.work,
  Tail.{tail_waiting, tail_work},
  declared.ends.Portion.Portion,
};
ghost use Rattle.engine_core.specs.{
  Agreed.{ArePlaced, CanCome, IsAgreed, IsUndecided, NoFewerWait},
  Work.IsNeeded,
  EngineState.{EngineState, HoldsIn, IsRefusedWith},
};
ghost use Rattle.ports_core.specs.Slot.{Slot};

use crate::Unit;
use ports_core::{Fault, Verdict};

/// What a head has of a text x and of y that follows it. Of the first lines or bytes it has those of x, and then those of y that are still
/// to come. Of all but the last it has all but the last of x, and then all but the last of what waited with y after it. So what is written
/// never changes. What waits in a head of all but the last are the last of what came in.
pub fn head_goes_on(unit: Unit, delim: u8)
    ensures first { (n : ℕ) (x y : List ℕ)
        → first_of delim unit n (x ++ y) ≡ first_of delim unit n x ++ first_of delim unit (n - measure delim unit x) y }
    ensures but_last { (n : ℕ) (x y : List ℕ)
        → but_last_of delim unit n (x ++ y)
        ≡ but_last_of delim unit n x ++ but_last_of delim unit n (last_of delim unit n x ++ y) }
    ensures waits { (head : EngineState Portion) (x : List ℕ) → HoldsIn Holds head x
        → stretch_of head.stage ≡ all_but_last
        → waiting_of head.stage ≡ last_of (delim_of head.stage) (unit_of head.stage) (count_of head.stage) x }
{
    let _ = (unit, delim);
}

/// The first lines or bytes of a text and what stands after them are together the text, and so are all but the last and the last. If all
/// but the last are asked for, what is written and what waits are together what came in.
pub fn nothing_is_lost(unit: Unit, delim: u8)
    ensures first { (n : ℕ) (x : List ℕ) → first_of delim unit n x ++ after_of delim unit n x ≡ x }
    ensures last { (n : ℕ) (x : List ℕ) → but_last_of delim unit n x ++ last_of delim unit n x ≡ x }
    ensures waits { (head : EngineState Portion) (x : List ℕ) → HoldsIn Holds head x
        → stretch_of head.stage ≡ all_but_last
        → ((work head.stage).settled x).out ++ waiting_of head.stage ≡ x }
{
    let _ = (unit, delim);
}

/// A head of the first lines or bytes uses exactly what it writes. If what it used of a text was needed to the last byte,
/// and was enough, as it is after a run over an input, then that is the head of the text, and what is left is what stands
/// after it.
pub fn head_uses_what_it_writes(unit: Unit, delim: u8)
    ensures used { (n : ℕ) (used rest : List ℕ) → IsNeeded (head_work delim unit false n).is_complete 1 used
        → (rest ≡ []) ⊎ ((head_work delim unit false n).is_complete used ≡ true)
        → first_of delim unit n (used ++ rest) ≡ used }
    ensures left { (n : ℕ) (used rest : List ℕ) → IsNeeded (head_work delim unit false n).is_complete 1 used
        → (rest ≡ []) ⊎ ((head_work delim unit false n).is_complete used ≡ true)
        → after_of delim unit n (used ++ rest) ≡ rest }
{
    let _ = (unit, delim);
}

/// What a tail has of a text x and of y that follows it. From number n on it has what it has of x, and then what stands in y after those
/// that are still to be passed over. The last are the last of what waited with y after it. So only the last of what came in have to be
/// kept, and these are what waits: no more than was asked for.
pub fn tail_goes_on(unit: Unit, delim: u8)
    ensures from_nth { (n : ℕ) (x y : List ℕ)
        → tail_of delim unit true n (x ++ y)
        ≡ tail_of delim unit true n x ++ after_of delim unit (n - 1 - measure delim unit x) y }
    ensures last { (n : ℕ) (x y : List ℕ)
        → last_of delim unit n (x ++ y) ≡ last_of delim unit n (last_of delim unit n x ++ y) }
    ensures waits { (tail : EngineState Portion) (x : List ℕ) → HoldsIn Holds tail x → stretch_of tail.stage ≡ the_last
        → waiting_of tail.stage ≡ last_of (delim_of tail.stage) (unit_of tail.stage) (count_of tail.stage) x }
    ensures few { (n : ℕ) (x : List ℕ) → size delim unit (last_of delim unit n x) ≤ n }
{
    let _ = (unit, delim);
}

/// What is settled is what all continuations agree on, and the bytes that wait are those that two continuations put to different places, or
/// that only one of the two writes. So nothing is written that could still change, and nothing is kept back that can't. This is true of
/// every count, 0 too, after any bytes. Spots say where a byte goes, and each output has at each spot just the one byte that goes there. By
/// no right spots do fewer bytes wait.
pub fn agreed_is_settled(unit: Unit, delim: u8)
    ensures head { (but_last : Bool) (n : ℕ) (x : List ℕ)
        → IsAgreed (head_work delim unit but_last n) x ((head_work delim unit but_last n).settled x) }
    ensures head_waits { (but_last : Bool) (n : ℕ) (x : List ℕ)
        → IsUndecided (head_spots delim unit but_last n) x (head_waiting delim unit but_last n x) }
    ensures head_placed { (but_last : Bool) (n : ℕ)
        → ArePlaced (head_work delim unit but_last n) (head_spots delim unit but_last n) }
    ensures head_least { (but_last : Bool) (n : ℕ) (x : List ℕ)
        → NoFewerWait CanCome (head_work delim unit but_last n) x (head_waiting delim unit but_last n x) }
    ensures tail { (from_nth : Bool) (n : ℕ) (x : List ℕ)
        → IsAgreed (tail_work delim unit from_nth n) x ((tail_work delim unit from_nth n).settled x) }
    ensures tail_waits { (from_nth : Bool) (n : ℕ) (x : List ℕ)
        → IsUndecided (tail_spots delim unit from_nth n) x (tail_waiting delim unit from_nth n x) }
    ensures tail_placed { (from_nth : Bool) (n : ℕ)
        → ArePlaced (tail_work delim unit from_nth n) (tail_spots delim unit from_nth n) }
    ensures tail_least { (from_nth : Bool) (n : ℕ) (x : List ℕ)
        → NoFewerWait CanCome (tail_work delim unit from_nth n) x (tail_waiting delim unit from_nth n x) }
{
    let _ = (unit, delim);
}

/// The same if the input shows its bytes before they are read. Nothing waits then, whatever it showed and whatever comes. If the text comes
/// that it showed, the outputs are at the end those that it would have without showing it, whatever comes after it, and the work ends well.
/// The output of a head is complete once all before the last came, and that of a tail once as many bytes came as were shown: then no more
/// is read. If fewer come, the work ends with `Changed`.
pub fn shown_is_settled(unit: Unit, delim: u8)
    ensures head { (n : ℕ) (text x : List ℕ)
        → IsAgreed (head_shown delim unit n text) x ((head_shown delim unit n text).settled x) }
    ensures head_waits { (n : ℕ) (text x : List ℕ)
        → IsUndecided (between_spots 0 (place_of delim unit n text)) x [] }
    ensures head_placed { (n : ℕ) (text : List ℕ)
        → ArePlaced (head_shown delim unit n text) (between_spots 0 (place_of delim unit n text)) }
    ensures head_whole { (n : ℕ) (text more : List ℕ)
        → ((head_shown delim unit n text).whole (text ++ more) ≡ (head_work delim unit true n).whole text)
        × ((head_shown delim unit n text).verdict (text ++ more) ≡ None) }
    ensures tail { (n : ℕ) (text x : List ℕ)
        → IsAgreed (tail_shown delim unit n text) x ((tail_shown delim unit n text).settled x) }
    ensures tail_waits { (n : ℕ) (text x : List ℕ)
        → IsUndecided (between_spots (place_of delim unit n text) (length text)) x [] }
    ensures tail_placed { (n : ℕ) (text : List ℕ)
        → ArePlaced (tail_shown delim unit n text) (between_spots (place_of delim unit n text) (length text)) }
    ensures tail_whole { (n : ℕ) (text more : List ℕ)
        → ((tail_shown delim unit n text).whole (text ++ more) ≡ (tail_work delim unit false n).whole text)
        × ((tail_shown delim unit n text).verdict (text ++ more) ≡ None) }
    ensures done { (n : ℕ) (text x : List ℕ)
        → ((head_shown delim unit n text).is_complete x ≡ true ↔ place_of delim unit n text ≤ length x)
        × ((tail_shown delim unit n text).is_complete x ≡ true ↔ length text ≤ length x) }
    ensures short { (n : ℕ) (text x : List ℕ)
        → (length x < place_of delim unit n text → (head_shown delim unit n text).verdict x ≡ Some Verdict.Changed)
        × (length x < length text → (tail_shown delim unit n text).verdict x ≡ Some Verdict.Changed) }
{
    let _ = (unit, delim);
}

/// No memory can be lacking for a piece if nothing waits, whatever came in: in a head of the first lines or bytes, and a tail from number n
/// on. Nor if bytes wait, once as many came in as are to wait. Then `feed` fails only if standard output breaks, or if the input is too
/// long.
pub fn full_windows_lack_nothing()
    ensures full { (engine : EngineState Portion) (x : List ℕ) → HoldsIn Holds engine x
        → unit_of engine.stage ≡ Unit.Bytes
        → count_of engine.stage ≤ length x → may_lack engine.stage ≡ false }
    ensures none { (engine : EngineState Portion) (x : List ℕ) → HoldsIn Holds engine x
        → keeps (stretch_of engine.stage) ≡ false → may_lack engine.stage ≡ false }
    ensures fails { (engine : EngineState Portion) (x piece : List ℕ) (old new : List Slot) (why : Fault)
        → HoldsIn Holds engine x → may_lack engine.stage ≡ false → IsRefusedWith terms piece engine old new why
        → (why ≡ Fault.Write 0) ⊎ (why ≡ Fault.TooLong) }
{}

/// How many lines a text has: as many as delimiters, and one more if its last line is open.
pub fn lines_are_counted(delim: u8)
    ensures ended { (x : List ℕ) → ends_with delim x ≡ true → line_count delim x ≡ delimiters delim x }
    ensures open { (x : List ℕ) → 0 < length x → ends_with delim x ≡ false
        → line_count delim x ≡ delimiters delim x + 1 }
{
    let _ = delim;
}

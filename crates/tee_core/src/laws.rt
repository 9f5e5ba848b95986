//! Laws of the definitions, with no code: each stands on the contract of a function whose body is empty.
ghost use Rattle.std.specs.Prelude.{Bool, List, [], ℕ};
ghost use Rattle.engine_core.specs.{Agreed.{ArePlaced, IsAgreed, IsUndecided}, Written.OutputsAt};
ghost use Rattle.ports_core.specs.{Slot.{Slot, streams}, Source.{Content, Source}};
ghost use Rattle.tee_core.specs.{Copy.{tee_spots, tee_work}, Left.LeftBy, Run.{EndsAs, TeeRun, all_copied}};

use ports_core::Mode;

/// What is settled is what all continuations agree on: all that came in, in each output. So no byte waits, and each goes to its spot in
/// every output. If nothing breaks, a run leaves the outputs at the whole.
pub fn agreed_is_settled()
    ensures outputs { (mode : Mode) (names : List (List ℕ)) (x : List ℕ)
        → IsAgreed (tee_work mode names) x ((tee_work mode names).settled x) }
    ensures waits { (names : List (List ℕ)) (x : List ℕ) → IsUndecided (tee_spots names) x [] }
    ensures placed { (mode : Mode) (names : List (List ℕ)) → ArePlaced (tee_work mode names) (tee_spots names) }
    ensures whole { (visible : Bool) (mode : Mode) (names : List (List ℕ)) (x : List ℕ)
        → OutputsAt visible streams ((tee_work mode names).whole x) (all_copied visible mode names x) }
{}

/// What each output has at the end of a run. An output that never broke has all pieces that came. One that broke in a piece has all
/// pieces before it, and a beginning of this piece. One that broke as it was closed has all. If there was no memory for the run, no file
/// was opened.
pub fn outputs_end()
    ensures { (run : TeeRun) (visible_in : Bool) (content : Content) (source : Source) (new : List Slot) (status : ℕ)
        → EndsAs run visible_in content source new status → LeftBy run visible_in content source new }
{}

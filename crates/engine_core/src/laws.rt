//! Laws of the definitions, with no code: each stands on the contract of a function whose body is empty.
ghost use Rattle.std.specs.Prelude.{◌≡◌, ◌↔◌, ℕ, List};
ghost use Rattle.engine_core.specs.{
  Agreed.{AreWaiting, GoesBy, IsAgreed, IsUndecided, Spot, files_there, outputs_of},
  Written.Written,
  Work.Work,
};

/// All continuations of an input agree on at most one list of outputs, and on which files are there, open or closed. At
/// most one stretch of bytes is undecided, once it is given to which spots bytes go, however lists name these. Where
/// bytes are equal, other spots can be right, too, and let more bytes wait. But there is at most one stretch than which
/// no right spots let fewer bytes wait. So a tool that writes less or more than is settled, or keeps back more than it
/// must, can't prove its law `agreed_is_settled`. `csplit` and the chunks of `split` have definitions of their own, of
/// which nothing is said here.
pub fn one_is_agreed()
    ensures outputs { (work : Work) (x : List ℕ) (one other : Written) → IsAgreed work x one → IsAgreed work x other
        → outputs_of one ≡ outputs_of other }
    ensures states { (work : Work) (x : List ℕ) (one other : Written) → IsAgreed work x one → IsAgreed work x other
        → files_there one ≡ files_there other }
    ensures waits { (spots_of others : List ℕ → ℕ → List Spot) (x one other : List ℕ)
        → ((x : List ℕ) (i : ℕ) (at : Spot) → GoesBy spots_of x i at ↔ GoesBy others x i at)
        → IsUndecided spots_of x one → IsUndecided others x other → one ≡ other }
    ensures least { (work : Work) (x one other : List ℕ)
        → AreWaiting work x one → AreWaiting work x other → one ≡ other }
{}

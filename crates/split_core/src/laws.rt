//! Laws of the definitions, with no code: each stands on the contract of a function that does nothing.
ghost use Rattle.std.specs.{
  Prelude.{◌≡◌, ◌<◌, ◌≤◌, ◌+◌, ◌*◌, ◌++◌, ℕ, List, [], true, get_or, length, map, take, drop, All, false},
};
ghost use Rattle.engine_core.specs.{
  Agreed.{ArePlaced, CanCome, IsAgreed, IsUndecided, NoFewerWait},
  Draft.opening_line,
  Written.{gets_bytes, openings_for},
  EngineState.{EngineState, HoldsIn},
  Work.Judges,
};
ghost use Rattle.ports_core.specs.declared.{slot.State.TheVariants.Closed, verdict.Verdict.TheVariants.Suffixes};
ghost use Rattle.seg_core.specs.{
  Line.{delimiters, joined, line_count, lines_of},
  declared.cut.Limit.TheVariants.{Bytes, LineBytes, Lines},
  Cut.{most, IsPositive},
};
ghost use Rattle.split_core.specs.{
  Parts.{cut_up, dealt, parts, round_robin, settled_rest, waiting_rest},
  Place.{beside_output, split_spots},
  Sections.{AreLineByteParts, byte_parts, line_parts},
  Split.{Plan, Share, dealt_files, is_short, settled_by, settled_parts, share, split_work, whole_by},
  Alike.as_if,
  Ways.{terms, work},
  declared.splitter.Splitter.Splitter,
};

use crate::Limit;

/// Parts of n lines, or of n bytes, are runs: part i has the lines, or the bytes, at the places from i * n to less
/// than (i + 1) * n. There are as many parts as hold all of them, and no more (POSIX.1-2017, XCU split, `-l` and
/// `-b`).
#[tactic(auto, using(crate::proofs::SectionLemmas::lines_are_runs, crate::proofs::SectionLemmas::bytes_are_runs, crate::proofs::SectionLemmas::part_lines, crate::proofs::SectionLemmas::part_bytes, crate::proofs::SectionLemmas::lines_count, crate::proofs::SectionLemmas::bytes_count))]
pub fn parts_are_runs()
    ensures lines { (delim n : ℕ) (x : List ℕ) → 0 < n → parts (Lines n delim) x ≡ line_parts delim n x }
    ensures bytes { (n : ℕ) (x : List ℕ) → 0 < n → parts (Bytes n) x ≡ byte_parts n x }
    ensures lines_at { (delim n i : ℕ) (x : List ℕ) → 0 < n
        → lines_of delim (get_or (parts (Lines n delim) x) i []) ≡ take n (drop (i * n) (lines_of delim x)) }
    ensures bytes_at { (n i : ℕ) (x : List ℕ) → 0 < n → get_or (parts (Bytes n) x) i [] ≡ take n (drop (i * n) x) }
    ensures all_lines { (delim n : ℕ) (x : List ℕ) → 0 < n → line_count delim x ≤ length (parts (Lines n delim) x) * n }
    ensures few_by_lines { (delim n : ℕ) (x : List ℕ) → 0 < n
        → length (parts (Lines n delim) x) * n < line_count delim x + n }
    ensures all_bytes { (n : ℕ) (x : List ℕ) → 0 < n → length x ≤ length (parts (Bytes n) x) * n }
    ensures few_by_bytes { (n : ℕ) (x : List ℕ) → 0 < n → length (parts (Bytes n) x) * n < length x + n }
{}

/// Parts of whole lines within n bytes are those of the definition by what remains, and no other list is. None is
/// empty, and none has more than n bytes (GNU coreutils manual, split, `-C`).
pub fn line_byte_parts()
    ensures are { (delim n : ℕ) (x : List ℕ) → 0 < n → AreLineByteParts delim n x (parts (LineBytes n delim) x) }
    ensures once { (delim n : ℕ) (x : List ℕ) (those : List (List ℕ)) → 0 < n → AreLineByteParts delim n x those
        → those ≡ parts (LineBytes n delim) x }
    ensures within { (delim n : ℕ) (x : List ℕ) → 0 < n
        → All (λ part. (0 < length part) × (length part ≤ n)) (parts (LineBytes n delim) x) }
{}

/// What a text and what follows it are cut into: the parts that the text has in full, and then those of its rest and what follows. So a
/// part that is full never changes. Nothing is lost: the parts are together the text, and what is settled and what waits are together what
/// came in. What waits is shorter than a part.
pub fn parts_go_on(limit: Limit)
    ensures parts { (x y : List ℕ)
        → parts limit (x ++ y) ≡ (cut_up limit x).full ++ parts limit ((cut_up limit x).rest ++ y) }
    ensures settled { (x y : List ℕ)
        → settled_parts limit (x ++ y)
        ≡ map (share Closed) (cut_up limit x).full ++ settled_parts limit ((cut_up limit x).rest ++ y) }
    ensures all { (x : List ℕ) → joined (parts limit x) ≡ x }
    ensures left { (rest : List ℕ) → settled_rest limit rest ++ waiting_rest limit rest ≡ rest }
    ensures came_in { (x : List ℕ)
        → joined (map (λ (file : Share). file.bytes) (settled_parts limit x))
        ++ waiting_rest limit (cut_up limit x).rest ≡ x }
    ensures few_wait { (x : List ℕ) → 0 < most limit → length (waiting_rest limit (cut_up limit x).rest) < most limit }
{
    let _ = limit;
}

/// Lines that are dealt in turn to n files: line k of the file at a place is the line of the text at that place plus k times n, and no byte
/// is lost. A file has of a longer text what it has of the text, and then its lines of what follows, in the turn after the text's last
/// delimiter. If files that get no line are left out, the first files are left: as many as there are lines (GNU coreutils manual, split,
/// `-n r/N` and `-e`).
pub fn lines_are_dealt()
    ensures at { (delim n file k : ℕ) (x : List ℕ) → file < n
        → get_or (lines_of delim (get_or (round_robin delim n x) file [])) k []
        ≡ get_or (lines_of delim x) (file + k * n) [] }
    ensures all { (delim n : ℕ) (x : List ℕ) → 0 < n → length (joined (round_robin delim n x)) ≡ length x }
    ensures files { (delim n : ℕ) (x : List ℕ) → length (round_robin delim n x) ≡ n }
    ensures goes_on { (delim n file place : ℕ) (x y : List ℕ)
        → dealt n file place (lines_of delim (x ++ y))
        ≡ dealt n file place (lines_of delim x) ++ dealt n file (place + delimiters delim x) (lines_of delim y) }
    ensures elided { (delim n : ℕ) (x : List ℕ)
        → dealt_files delim true n x ≡ take (line_count delim x) (round_robin delim n x) }
{}

/// What is settled is what all continuations agree on, and the bytes that wait are those that two continuations put to different places, or
/// that only one of the two writes. So nothing is written that could still go into another file, and nothing is kept back that can't. This
/// is true of all four ways to cut, of any byte that lines end with, and of both values of `elide`; of waiting, if the input so far needs
/// no more files than there are names. Spots say where a byte goes, and each file has at each spot just the one byte that goes there; no
/// spot is on standard output. By no right spots do fewer bytes wait.
pub fn agreed_is_settled()
    ensures outputs { (plan : Plan) → IsPositive plan.cut → (x : List ℕ)
        → IsAgreed (split_work plan) x ((split_work plan).settled x) }
    ensures waits { (plan : Plan) → IsPositive plan.cut → (x : List ℕ) → is_short plan x ≡ false
        → IsUndecided (split_spots plan) x ((split_work plan).waiting x) }
    ensures placed { (plan : Plan) → IsPositive plan.cut → plan.filing.verbose ≡ false
        → ArePlaced (split_work plan) (split_spots plan) }
    ensures files { (plan : Plan) → IsPositive plan.cut
        → ArePlaced (beside_output (split_work plan)) (split_spots plan) }
    ensures least { (plan : Plan) → IsPositive plan.cut → (x : List ℕ) → is_short plan x ≡ false
        → NoFewerWait CanCome (beside_output (split_work plan)) x ((split_work plan).waiting x) }
{}

/// If standard output gets lines about files, it has a line for each file that was opened, in order, and nothing else: once some bytes came
/// in, and at the end. Else it has nothing.
pub fn lines_are_of_opened_files()
    ensures settled { (plan : Plan) → plan.filing.verbose ≡ true → (x : List ℕ)
        → (settled_by plan x).out ≡ openings_for opening_line (settled_by plan x).files }
    ensures whole { (plan : Plan) → plan.filing.verbose ≡ true → (x : List ℕ)
        → (whole_by plan x).out ≡ openings_for opening_line (whole_by plan x).files }
    ensures none { (plan : Plan) → plan.filing.verbose ≡ false → (x : List ℕ)
        → (settled_by plan x).out ++ (whole_by plan x).out ≡ [] }
{}

/// An engine that has returned no fault has named all files that its input needs: names that ran out are always reported. And unless it
/// writes what one file would have, more that comes can still change its output.
pub fn all_files_have_names()
    ensures named { (engine : EngineState Splitter) (x : List ℕ) → HoldsIn (as_if terms).Holds engine x
        → Judges (work engine.stage) x Suffixes → ⊥ }
    ensures goes_on { (engine : EngineState Splitter) (x : List ℕ) → HoldsIn (as_if terms).Holds engine x
        → ((work engine.stage).means.output ≡ gets_bytes → ⊥) → (work engine.stage).is_complete x ≡ false }
{}

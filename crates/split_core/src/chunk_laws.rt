//! Laws of chunks, with no code: each stands on the contract of a function whose body is empty.
ghost use Rattle.std.specs.{
  Prelude.{◌≡◌, ◌<◌, ◌≤◌, ◌+◌, ◌-◌, ◌++◌, ℕ, List, [], Option, Some, drop, false, get_or, length, take, true},
  List.{filter, flat_map, range_with_len},
};
ghost use Rattle.engine_core.specs.{
  Agreed.{ArePlaced, DifferOn, GoesBy, IsAgreed, NoFewerWait, file_bytes},
  Draft.opening_line,
  Written.{only_out, openings_for},
};
ghost use Rattle.ports_core.specs.declared.verdict.Verdict.TheVariants.{Changed};
ghost use Rattle.seg_core.specs.{
  Line.joined,
  declared.{cut.{Chunks.Chunks, Cut.TheVariants.Round}, unit.Unit.TheVariants.{Bytes, Lines}},
};
ghost use Rattle.split_core.specs.{
  Chunks.{AreEven, BeginInChunks, KeepLines, chunk_start, chunks_in, is_as_said, is_longer},
  ChunkAgreed.{AgreeAt, AreMade, CanFollow, chunk_spots, one_chunk_spots},
  ChunkEnds.{EndAlike, IfNamed, TwoEndApart, WritesFile},
  Place.beside_output,
  ChunkWork.{ChunksPlan, chunk_work, chunks_settled, chunks_whole, chunks_work, turn_work},
  Split.{Filing, are_named, has_bytes},
};
ghost use Rattle.seg_core.specs.declared.cut.Way.TheVariants as way;

/// What goes with each chunk of a whole text: there are as many of these pieces as were asked for, and together they are the text. A chunk
/// of bytes has the bytes from where it begins to where the next chunk does. All have the same length, except that the first ones have one
/// more byte if the length of the text asks for it. Under lines no line is cut, and each goes with the chunk in which its first byte is
/// (GNU coreutils manual, split, `-n N` and `-n l/N`).
pub fn chunks_are_even()
    ensures count { (chunks : Chunks) (x : List ℕ) → 0 < chunks.count
        → length (chunks_in chunks x) ≡ chunks.count }
    ensures all { (chunks : Chunks) (x : List ℕ) → 0 < chunks.count → joined (chunks_in chunks x) ≡ x }
    ensures bytes { (chunks : Chunks) (x : List ℕ) (place : ℕ) → place < chunks.count → chunks.unit ≡ Bytes
        → let from = chunk_start chunks.count (length x) in get_or (chunks_in chunks x) place []
        ≡ take (from (place + 1) - from place) (drop (from place) x) }
    ensures even { (chunks : Chunks) (x : List ℕ) → chunks.unit ≡ Bytes
        → AreEven chunks.count x (chunks_in chunks x) }
    ensures lines { (chunks : Chunks) (x : List ℕ) → 0 < chunks.count → chunks.unit ≡ Lines
        → KeepLines chunks.delim x (chunks_in chunks x) }
    ensures first_byte { (chunks : Chunks) (x : List ℕ) → chunks.unit ≡ Lines
        → BeginInChunks chunks.delim chunks.count x (chunks_in chunks x) }
{}

/// What one chunk alone, or the lines of one file alone, write to standard output is what the file at that place would have, if all files
/// have names and none is left out. So all chunks, one after another, are the text.
pub fn one_chunk_is_its_file()
    ensures chunk { (plan : ChunksPlan) (place : ℕ)
        → IfNamed plan (WritesFile place plan.filing (way.Chunk place plan.chunks) (way.Chunks plan.chunks)) }
    ensures turn { (count delim : ℕ) (filing : Filing) (place : ℕ) → place < count
        → are_named filing.names count ≡ true
        → WritesFile place filing (way.Turn place count delim) (way.Cut (Round count delim)) }
    ensures all { (chunks : Chunks) (said : Option ℕ) (x : List ℕ)
        → 0 < chunks.count → is_as_said said x ≡ true
        → flat_map (λ place. ((chunk_work place chunks said).whole x).out) (range_with_len 0 chunks.count) ≡ x }
{}

/// What is settled is what all continuations agree on, and the bytes that wait are those that two continuations put to different places, or
/// that only one of the two writes. So nothing is written that could still go into another file, and nothing is kept back that can't. If
/// the input showed its size, continuations are those with which the input has it, and no byte waits. Spots say where a byte goes, and are
/// right. By no right spots do fewer bytes wait for files; this isn't said of one chunk alone. Files are closed as soon as all continuations
/// end with these files, empty ones too, and with all files before them. One more is open once it has a byte.
pub fn chunks_agree()
    ensures outputs { (plan : ChunksPlan) (said : Option ℕ) (x : List ℕ)
        → IfNamed plan (plan.filing.verbose ≡ false → is_longer said x ≡ false
        → AgreeAt (CanFollow said x) (chunks_work plan said) x ((chunks_work plan said).settled x)) }
    ensures files { (plan : ChunksPlan) (said : Option ℕ) (x : List ℕ)
        → IfNamed plan (is_longer said x ≡ false → AgreeAt (CanFollow said x) (beside_output (chunks_work plan said)) x
        (record ((chunks_work plan said).settled x) { out = [] })) }
    ensures made { (plan : ChunksPlan) (said : Option ℕ) (x : List ℕ)
        → IfNamed plan (is_longer said x ≡ false
        → AreMade (CanFollow said x) (chunks_work plan said) x ((chunks_work plan said).settled x).files) }
    ensures waits { (plan : ChunksPlan) (said : Option ℕ) (x : List ℕ)
        → IfNamed plan (is_longer said x ≡ false
        → DifferOn (CanFollow said x) (GoesBy (chunk_spots plan said)) x ((chunks_work plan said).waiting x)) }
    ensures placed { (plan : ChunksPlan) (said : Option ℕ)
        → IfNamed plan (ArePlaced (beside_output (chunks_work plan said)) (chunk_spots plan said)) }
    ensures least { (plan : ChunksPlan) (said : Option ℕ) (x : List ℕ)
        → IfNamed plan (NoFewerWait (CanFollow said x) (beside_output (chunks_work plan said)) x
        ((chunks_work plan said).waiting x)) }
    ensures chunk { (place : ℕ) (chunks : Chunks) (said : Option ℕ) (x : List ℕ)
        → place < chunks.count → is_longer said x ≡ false
        → AgreeAt (CanFollow said x) (chunk_work place chunks said) x ((chunk_work place chunks said).settled x) }
    ensures chunk_waits { (place : ℕ) (chunks : Chunks) (said : Option ℕ) (x : List ℕ) → place < chunks.count
        → DifferOn (CanFollow said x) (GoesBy (one_chunk_spots place chunks said)) x
        ((chunk_work place chunks said).waiting x) }
    ensures chunk_placed { (place : ℕ) (chunks : Chunks) (said : Option ℕ) → place < chunks.count
        → ArePlaced (chunk_work place chunks said) (one_chunk_spots place chunks said) }
    ensures turn { (place count delim : ℕ) (x : List ℕ)
        → IsAgreed (turn_work place count delim) x ((turn_work place count delim).settled x) }
{}

/// The output of one chunk is complete as soon as what that chunk and those before it have stays, whatever comes: an empty chunk is
/// complete with those before it. That is only so if the input showed its size.
pub fn one_chunk_is_complete()
    ensures complete { (place : ℕ) (chunks : Chunks) (said : Option ℕ) (x : List ℕ) → place < chunks.count
        → (chunk_work place chunks said).is_complete x ≡ true
        → (at : ℕ) → at ≤ place → EndAlike (chunk_work at chunks said) x }
    ensures going { (place : ℕ) (chunks : Chunks) (said : Option ℕ) (x : List ℕ) → place < chunks.count
        → is_longer said x ≡ false → (chunk_work place chunks said).is_complete x ≡ false
        → (at : ℕ) × (at ≤ place) × TwoEndApart said (chunk_work at chunks said) x }
{}

/// If empty files are left out, the files have what those have that aren't empty if none is left out: once some bytes came in, and at the
/// end.
pub fn empty_chunks_are_left_out()
    ensures settled { (plan : ChunksPlan) (said : Option ℕ) (x : List ℕ)
        → IfNamed plan (file_bytes (chunks_settled (record plan { elide = true }) said x)
        ≡ filter has_bytes (file_bytes (chunks_settled (record plan { elide = false }) said x))) }
    ensures whole { (plan : ChunksPlan) (said : Option ℕ) (x : List ℕ)
        → IfNamed plan (file_bytes (chunks_whole (record plan { elide = true }) said x)
        ≡ filter has_bytes (file_bytes (chunks_whole (record plan { elide = false }) said x))) }
{}

/// An input that has another length than it showed has changed. If only one chunk is written, that is seen as long as the output isn't
/// complete. With more bytes than were shown there are all chunks as they were shown, and with fewer what came: the files have it where
/// they had it before the end.
pub fn other_lengths_are_changes()
    ensures files { (plan : ChunksPlan) (size : ℕ) (x : List ℕ) → (length x ≡ size → ⊥)
        → (chunks_work plan (Some size)).verdict x ≡ Some Changed }
    ensures alone { (place : ℕ) (chunks : Chunks) (size : ℕ) (x : List ℕ) → (length x ≡ size → ⊥)
        → (chunk_work place chunks (Some size)).is_complete x ≡ false
        → (chunk_work place chunks (Some size)).verdict x ≡ Some Changed }
    ensures more { (plan : ChunksPlan) (size : ℕ) (x : List ℕ)
        → (chunks_work plan (Some size)).whole x ≡ (chunks_work plan (Some size)).whole (take size x) }
    ensures all { (plan : ChunksPlan) (size : ℕ) (x : List ℕ)
        → IfNamed plan (joined (file_bytes ((chunks_work plan (Some size)).whole x)) ≡ take size x) }
    ensures same { (plan : ChunksPlan) (size : ℕ) (x : List ℕ)
        → IfNamed plan (file_bytes ((chunks_work plan (Some size)).whole x)
        ≡ file_bytes ((chunks_work plan (Some size)).settled x)) }
{}

/// If standard output gets lines about the files of chunks, it has a line for each file that was opened, in order, and nothing else: once
/// some bytes came in, and at the end. Else it has nothing.
pub fn lines_are_of_chunk_files()
    ensures settled { (plan : ChunksPlan) (said : Option ℕ) → plan.filing.verbose ≡ true → (x : List ℕ)
        → (chunks_settled plan said x).out ≡ openings_for opening_line (chunks_settled plan said x).files }
    ensures whole { (plan : ChunksPlan) (said : Option ℕ) → plan.filing.verbose ≡ true → (x : List ℕ)
        → (chunks_whole plan said x).out ≡ openings_for opening_line (chunks_whole plan said x).files }
    ensures none { (plan : ChunksPlan) (said : Option ℕ) → plan.filing.verbose ≡ false → (x : List ℕ)
        → (chunks_settled plan said x).out ++ (chunks_whole plan said x).out ≡ [] }
{}

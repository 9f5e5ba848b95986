//! What people rest on, as laws of runs, with no code: each law stands on the contract of a function whose body is
//! empty. The laws speak of runs over inputs and outputs whose bytes are visible, as those in memory are, and of what
//! `run` and `run_follow` ensure of each run. If nothing else is said, they speak of runs whose status is 0.
//! `program_makes_these_runs` says of which runs of the program they speak.
ghost use Rattle.std.specs.{
  Prelude.{◌≡◌, ◌<◌, ◌^◌, ◌⊎◌, ◌+◌, ◌*◌, ◌++◌, ◌∷◌, [], ℕ, List, Ok, true, false, length, map, if◌then◌else◌},
  List.range_with_len,
};
ghost use Rattle.follow_core.specs.Run.{AreKept, name_text};
ghost use Rattle.ports_core.specs.Slot.{slot_at};
ghost use Rattle.seg_core.specs.{
  Line.{joined, line_count, lines_of},
  declared.{
    count.Sign.TheVariants.{Minus, Plain, Plus},
    cut.{
      Cut.TheVariants.{Parts, Round},
      Limit.TheVariants.{Bytes, LineBytes, Lines},
      Way.TheVariants.Cut,
      Chunks.Chunks,
    },
  },
};
ghost use Rattle.run_core.specs.Input.{Input};
ghost use Rattle.split_core.specs.Chunks.{AreEven, BeginInChunks, KeepLines, chunks_in};
ghost use Rattle.operand_core.specs.{Reading.Asks, declared.operand.Operand.Operand};
ghost use Rattle.promises_core.specs.{
  Promises.{AllSplit, AreChunks, AreCopies, AreDealt, AreLinePieces, AreListed, AreNumbered, ArePieces, AreSections},
  Promises.{AreUncut, BeginsEach, Completes, CountAlike, Does, AsksToFollow, EndsWithBreak, FindAlike, Follows},
  Promises.{FollowsOne, HasInput, HasLong, IsBare, IsChunkAsShown, IsCutAsShown, IsHead, IsOfProgram, IsSilent},
  Promises.{IsStopped, IsTold, IsTail, SaysWhy, LeaveAlike, IsGrowing, Ran, SkipNothing, Splits, SplitsOther},
  Promises.{content_at, contents_of, files_of, lines_telling, held, makes_files, output_of, output_of_all, tail_part},
  Promises.{text_at, versions_of},
};
ghost use Rattle.tools_core.specs.Run.{IsUnread, Run};
ghost use Rattle.words_core.specs.{
  CsplitWords.CsplitAsked,
  EndsWords.EndsAsked,
  SplitWords.SplitAsked,
  TeeWords.TeeAsked,
  Words.{HasOperands, follows, settings_of},
  declared.{settings.Settings.{Settings, TheVariants.{Csplit, Split, Tee}}, value.Followed.Followed},
};
ghost use Rattle.seg_core.specs.declared.cut.Way.TheVariants as way;
ghost use Rattle.seg_core.specs.declared.unit.Unit.TheVariants as unit;

/// The program makes runs of two kinds, and these laws speak of both. If the words of a run of `run_words` ask to
/// follow nothing, it ended as `run` ensures, and no file was watched. If they ask `tail` to follow files, without
/// `--pid`, and the status is 0, it ended as `run_follow` ensures, in as many looks as the words ask for, and no input
/// was opened or read.
pub fn program_makes_these_runs()
    ensures runs { (run : Run) (asked : Settings) → IsOfProgram run → settings_of run.calling run.words ≡ Ok asked
        → follows run.calling run.fed asked ≡ false → Ran run asked × (run.seen ≡ []) × (run.watched ≡ []) }
    ensures followed { (run : Run) (options : EndsAsked) (followed : Followed) (looks : ℕ) → IsOfProgram run
        → AsksToFollow run options followed looks → run.status ≡ 0 → Follows run looks options followed
        × IsUnread run }
{}

/// The first N lines of an input, and all lines from the next line on, written one after another, are the input:
/// `head -n N` and then `tail -n +M`, where M is N + 1. All lines but the last N, and the last N lines, are the input,
/// too: `head -n -N` and then `tail -n N`. The same is true of bytes (`-c`), and of lines that end with byte 0 (`-z`),
/// if both runs have that option. Neither run may write a header. If an input shows a text before it is read, and gives
/// this text first, the last two runs speak of this text: a file may grow while they run. If bytes are counted, it may be
/// any text of this length.
pub fn head_and_tail_meet()
    ensures first { (head tail : Run) (first rest : EndsAsked) (n : ℕ) (input : List ℕ) → CountAlike first rest
        → IsHead head first Plain n → IsTail tail rest Plus (n + 1) → HasInput head input → HasInput tail input
        → output_of head ++ output_of tail ≡ input }
    ensures last { (head tail : Run) (first rest : EndsAsked) (n : ℕ) (input : List ℕ) → CountAlike first rest
        → IsHead head first Minus n → IsTail tail rest Plain n → HasInput head input → HasInput tail input
        → output_of head ++ output_of tail ≡ input }
{}

/// After `tee` standard output and each file that is named once have the input's bytes; with `-a` each file has them
/// after the bytes that it had. A run, whatever its status, leaves input unread for three reasons alone: an output
/// ended it, or no output was left, or there was no memory, which is reported. With `--output-error=exit` each output
/// that breaks ends the run; with `exit-nopipe` an output that breaks although it still has a reader; and by the tool's
/// own name, if no option says it, an output whose reader is gone. Then each sound output has all that was read. An
/// output that ended the run lacks at most a part of its last 65,536 bytes. Each other output has a beginning of it.
/// Nothing was read if there was no memory, or if a file that couldn't be opened ended the run.
pub fn tee_copies()
    ensures output { (tee : Run) (asked : TeeAsked) (input : List ℕ) → Does tee (Tee asked) → HasInput tee input
        → output_of tee ≡ input }
    ensures files { (tee : Run) (asked : TeeAsked) (input : List ℕ) → Does tee (Tee asked) → HasInput tee input
        → AreCopies asked.mode asked.names input (files_of tee) }
    ensures stops { (tee : Run) (asked : TeeAsked) → Ran tee (Tee asked) → length tee.world.standard.bytes < 2 ^ 63
        → EndsWithBreak tee asked }
{}

/// How an input comes changes nothing. Two runs that are asked for the same, over inputs of the same bytes, leave the
/// same outputs, whether a read gives one byte or all of them. What lies at a name doesn't say how much a read gives.
/// What an input shows before it is read changes nothing, either, as far as the tool doesn't look at that: only the length
/// of it matters where bytes are counted, and to `split`.
/// If the status is 1 and no fault stopped the runs, as for an input that breaks off or a pattern that isn't found,
/// they leave the same status, too, and the same bytes under the same names, and report the same lines; but a file that
/// was to be removed may stay in one of them. A fault that stops a run is reported, as far as standard error takes
/// lines, and the status is 1: no memory, too much input, operands of `csplit` that are wrong, or an output that broke,
/// by its name. If an output of `tee` breaks, the run goes on with the other outputs, or ends; then the break is
/// reported, and this law says no more of that run. By a tool's own name a reader that is gone isn't reported, and the
/// status is 141. `tee` doesn't report it if its words or its own name ask for that.
pub fn cutting_changes_nothing()
    ensures same { (one other : Run) (asked : Settings) → Does one asked → Does other asked → FindAlike asked one other
        → one.outputs ≡ other.outputs }
    ensures ended { (run : Run) (asked : Settings) → Ran run asked
        → Completes run asked ⊎ IsStopped run asked ⊎ IsSilent run asked }
    ensures alike { (one other : Run) (asked : Settings) → Completes one asked → Completes other asked
        → FindAlike asked one other → LeaveAlike asked one other }
{}

/// `split` loses nothing. Its files have the names that were asked for, and come in the order of these names, byte by
/// byte. With `-l N` and `-b N` the files joined are the input, and each but the last has N lines or bytes; `-l` cuts
/// no line. With `-C N` the files joined are the input, each has as many lines as fit into N bytes, and a line is cut
/// only if it is longer than that; an open last line counts with a delimiter. Each input has exactly one such list of
/// pieces. With `-n r/N` each line is in exactly one file, in turn. With `-n N` and `-n l/N` the input is N pieces, and
/// each piece has its file, or with `-e` each piece that has a byte. The pieces joined are the input, and `-n l/N` cuts
/// no line. With `-n N` any two pieces have equally many bytes, or the earlier piece has one byte more. With `-n l/N`
/// each line is in the piece in whose chunk its first byte is. Standard output has nothing; with `--verbose` it has a
/// line for each file, in their order. With K there is no file, and standard output has piece K. With `-n r/K/N` it has
/// what file K has without `-e`: the lines from the Kth on, each N lines after the line before it. So `split -n K/N`,
/// for K from 1 to N, writes the input, and `-n r/K/N` writes each of its lines once. If an input shows a length before
/// it is read, and gives more, the runs with `-n K/N` speak of its first bytes, up to this length: a file may grow while
/// they run. If an input gives fewer or more bytes than it showed before it was read, the files of `-n N` and `-n l/N`
/// have the bytes that came, up to the length that was shown, as the chunks of this length are. That the input changed
/// is reported with its name, and the status is 1. With K standard output has what came of that chunk, and the change is
/// reported unless the chunk got all that goes with it.
pub fn split_loses_nothing()
    ensures listed { (split : Run) (asked : SplitAsked) (input : List ℕ) → Does split (Split asked)
        → HasInput split input → AreListed asked (files_of split) }
    ensures told { (split : Run) (asked : SplitAsked) (input : List ℕ) → Does split (Split asked)
        → HasInput split input → makes_files asked.way ≡ true
        → output_of split ≡ (if asked.verbose then lines_telling (files_of split) else []) }
    ensures lines { (split : Run) (asked : SplitAsked) (n delim : ℕ) (input : List ℕ) → Does split (Split asked)
        → HasInput split input → asked.way ≡ Cut (Parts (Lines n delim))
        → ArePieces (line_count delim) n input (contents_of split) }
    ensures uncut { (split : Run) (asked : SplitAsked) (n delim : ℕ) (input : List ℕ) → Does split (Split asked)
        → HasInput split input → asked.way ≡ Cut (Parts (Lines n delim)) → AreUncut delim (contents_of split) }
    ensures bytes { (split : Run) (asked : SplitAsked) (n : ℕ) (input : List ℕ) → Does split (Split asked)
        → HasInput split input → asked.way ≡ Cut (Parts (Bytes n))
        → ArePieces length n input (contents_of split) }
    ensures line_bytes { (split : Run) (asked : SplitAsked) (n delim : ℕ) (input : List ℕ) → Does split (Split asked)
        → HasInput split input → asked.way ≡ Cut (Parts (LineBytes n delim))
        → AreLinePieces delim n input (contents_of split) }
    ensures one_list { (delim n : ℕ) (input : List ℕ) (some other : List (List ℕ)) → 0 < n
        → AreLinePieces delim n input some → AreLinePieces delim n input other → some ≡ other }
    ensures dealt { (split : Run) (asked : SplitAsked) (n delim : ℕ) (input : List ℕ) → Does split (Split asked)
        → HasInput split input → asked.way ≡ Cut (Round n delim)
        → AreDealt delim n asked.elide input (contents_of split) }
    ensures chunks { (split : Run) (asked : SplitAsked) (chunks : Chunks) (input : List ℕ)
        → Splits split asked (way.Chunks chunks) input
        → AreChunks chunks.count asked.elide input (chunks_in chunks input) (contents_of split) }
    ensures even { (chunks : Chunks) (input : List ℕ) → chunks.unit ≡ unit.Bytes
        → AreEven chunks.count input (chunks_in chunks input) }
    ensures whole_lines { (split : Run) (asked : SplitAsked) (chunks : Chunks) (input : List ℕ)
        → Splits split asked (way.Chunks chunks) input → chunks.unit ≡ unit.Lines
        → KeepLines chunks.delim input (contents_of split) }
    ensures first_bytes { (chunks : Chunks) (input : List ℕ) → chunks.unit ≡ unit.Lines
        → BeginInChunks chunks.delim chunks.count input (chunks_in chunks input) }
    ensures alone { (one : Run) (asked : SplitAsked) (input : List ℕ) → Does one (Split asked) → HasInput one input
        → makes_files asked.way ≡ false → files_of one ≡ [] }
    ensures chunk { (one : Run) (asked : SplitAsked) (place : ℕ) (chunks : Chunks) (input : List ℕ)
        → Splits one asked (way.Chunk place chunks) input → output_of one ≡ text_at (chunks_in chunks input) place }
    ensures turn { (one all : Run) (alone asked : SplitAsked) (place n delim : ℕ) (input : List ℕ)
        → Splits one alone (way.Turn place n delim) input → Splits all asked (Cut (Round n delim)) input
        → asked.elide ≡ false → output_of one ≡ content_at all place }
    ensures turn_lines { (one : Run) (asked : SplitAsked) (place n delim k : ℕ) (input : List ℕ)
        → Splits one asked (way.Turn place n delim) input
        → text_at (lines_of delim (output_of one)) k ≡ text_at (lines_of delim input) (place + k * n) }
    ensures together { (runs : ℕ → Run) (asked : ℕ → SplitAsked) (chunks : Chunks) (input : List ℕ)
        → 0 < chunks.count
        → AllSplit runs asked chunks.count (λ place. way.Chunk place chunks) input
        → output_of_all runs chunks.count ≡ input }
    ensures turns { (runs : ℕ → Run) (asked : ℕ → SplitAsked) (n delim : ℕ) (input : List ℕ) → 0 < n
        → AllSplit runs asked n (λ place. way.Turn place n delim) input
        → AreDealt delim n false input (map (λ place. output_of (runs place)) (range_with_len 0 n)) }
    ensures changed { (split : Run) (asked : SplitAsked) (chunks : Chunks) (input : Input) (shown bytes : List ℕ)
        → SplitsOther split asked (way.Chunks chunks) input shown bytes
        → IsCutAsShown split asked chunks input.name shown bytes }
    ensures chunk_changed { (one : Run) (asked : SplitAsked) (place : ℕ) (chunks : Chunks) (input : Input)
        (shown bytes : List ℕ) → SplitsOther one asked (way.Chunk place chunks) input shown bytes
        → IsChunkAsShown one asked place chunks input.name shown bytes }
{}

/// `csplit` loses nothing. Its files are numbered in their order, and no two have the same name. They come in the order
/// of their names, byte by byte, as long as no number has more digits than its precision says (`-n`), or than a width
/// that zeros fill, and no `#` marks numbers. If no section is skipped (`%`) and no line is left out at a cut
/// (`--suppress-matched`), the files joined are the input. In any case each line is in exactly one section, in the
/// order of the input, or is left out at a cut. The files have exactly the sections that are kept; with `-z` an empty
/// section has no file.
pub fn csplit_loses_nothing()
    ensures numbered { (csplit : Run) (asked : CsplitAsked) (input : List ℕ) → Does csplit (Csplit asked)
        → HasInput csplit input → AreNumbered asked.style (files_of csplit) }
    ensures joined { (csplit : Run) (asked : CsplitAsked) (input : List ℕ) → Does csplit (Csplit asked)
        → HasInput csplit input → asked.style.suppress ≡ false → SkipNothing asked.operands
        → joined (contents_of csplit) ≡ input }
    ensures sections { (run : Run) (asked : CsplitAsked) (input : List ℕ) → Does run (Csplit asked)
        → HasInput run input → (operands : List Operand) × Asks asked.calling asked.operands operands
        × AreSections asked.style operands input (contents_of run) }
{}

/// A fault leaves nothing but a beginning. Whatever a run met over its inputs, standard output and each file have a
/// beginning of what they have after a run that is asked for the same, over the same inputs, and that no fault stopped.
/// There is such a run, unless operands of `csplit` are wrong or an input has more than any tool takes. A run whose
/// status is 1 reported a fault that it met, as far as standard error takes lines, and each line reports such a fault.
/// If standard output or a file broke, the status is 1, and a line with the name of the output says that it can't be
/// opened or written. If the run may be silent about a reader that is gone, the status may be another, and an output
/// that lost its reader may go unreported; any other output that broke is reported. A file of `csplit` that couldn't be
/// removed may go unreported, and so may what broke it before; then each other file of that run is gone, or broken,
/// too.
pub fn faults_leave_a_beginning()
    ensures begins { (run well : Run) (asked : Settings) → Ran run asked → Completes well asked
        → FindAlike asked run well → BeginsEach run well }
    ensures beside { (run : Run) (asked : Settings) → Ran run asked → HasOperands asked → (HasLong run asked → ⊥)
        → (well : Run) × FindAlike asked run well × Completes well asked }
    ensures says { (run : Run) (asked : Settings) → Ran run asked → run.status ≡ 1 → SaysWhy run asked }
    ensures broken { (run : Run) (asked : Settings) (place : ℕ) → Ran run asked → (place ≡ 1 → ⊥)
        → (slot_at run.outputs place).is_broken ≡ true → IsTold run asked place }
{}

/// `tail -f` writes all, once. Of one file that only grows, if no header is written, it writes the last lines or bytes
/// that the file has at the first look, or all from the Nth on, and then all that came by the last look, in order, and
/// nothing twice. It does so in as many looks as it is asked for, by descriptor and by name. If the file is truncated
/// or replaced, and a file that isn't seen shorter has kept its bytes, `tail` writes the text of its name: the text of
/// each stretch of looks in which the file only grew, and from the second stretch on all that the file came to have.
/// What the file has between looks doesn't matter. If `tail` was called by its own name and follows names, a name that
/// can't be read at a look is missing then.
pub fn tail_follows()
    ensures grows { (run : Run) (options : EndsAsked) (n file : ℕ) (came : List ℕ)
        → (one : FollowsOne run (n + 1) options) → IsGrowing one file
        → held one n file ≡ held one 0 file ++ came
        → output_of run ≡ tail_part options (held one 0 file) ++ came }
    ensures text { (run : Run) (count : ℕ) (options : EndsAsked) (one : FollowsOne run count options)
        → AreKept (versions_of one) → output_of run ≡ name_text (tail_part options) (versions_of one) }
{}

//! More callers of `run_words` that rest on the laws of `promises_core`, as those of `law_tests` do: by both ways to call the program, over a
//! file that shows its bytes or another text, and of runs that a fault may stop.
ghost use Rattle.std.specs.{
  Prelude.{◌≡◌, ◌<◌, ◌^◌, ◌⊎◌, ◌∷◌, ◌++◌, [], ℕ, List, Ok, true, false, length, map, codes, IfOk, IfSome},
};
ghost use Rattle.mem_core.specs.MemInState.{shown_by, with_break};
ghost use Rattle.engine_core.specs.Written.{IsBeginning};
ghost use Rattle.ports_core.specs.{Slot.{slot_at, streams}, Source.IsFresh};
ghost use Rattle.run_tests.specs.inner.Calls.{IsCutShort, in_file, in_pipe, run_of};
ghost use Rattle.seg_core.specs.declared.{count.Sign.TheVariants.{Minus, Plain}, cut.Chunks.{Chunks}};
ghost use Rattle.promises_core.specs.{
  Promises.{AreDealt, BeginsEach, Completes, CountAlike, EndsWithBreak, FindAlike, IsChunkAsShown, IsCutAsShown},
  Promises.{LeaveAlike, Ran, SaysWhy, ShowAlike, Splits, counted, output_of, takes_shown},
};
ghost use Rattle.tools_core.specs.Tasks.{names_of};
ghost use Rattle.words_core.specs.{
  CsplitWords.CsplitAsked,
  EndsWords.EndsAsked,
  SplitWords.SplitAsked,
  TeeWords.TeeAsked,
  Words.{HasOperands, follows, settings_of},
  declared.{settings.Settings.{Settings, TheVariants.{Csplit, Head, Split, Tail, Tee}}, tail_words.TailSettings.TailSettings},
};
ghost use Rattle.ports_core.specs.declared.calling.Calling.TheVariants.{OwnName};
ghost use Rattle.seg_core.specs.declared.cut.Way.TheVariants as way;
ghost use Rattle.tools_core.specs.Run.{Run};

use crate::law_tests::{left_of, left_over, ran, ran_over};
use mem_core::{MemIn, MemOut};
use ports_core::{Calling, Fault, Outs, Reason};
use promises_core::{
    cutting_changes_nothing, faults_leave_a_beginning, head_and_tail_meet, split_loses_nothing,
    tee_copies,
};
use std::alloc::Global;
use std::process::Abort;
use std::test::Fail;

/// An empty standard input, and a file `f` with these bytes, which shows that text before it is read.
fn file_input(alloc: Global, bytes: &[u8], shown: &[u8]) -> Result<MemIn, Fault>
    ensures { IfOk result (λ inputs. inputs ≡ in_file bytes.now shown.now) }
{
    let mut inputs = MemIn::new(alloc)?;
    inputs.file_showing("f", bytes, shown)?;
    inputs.pieces(3);
    Ok(inputs)
}

/// What a `split` of `f` leaves, which shows as many bytes as it has, if it goes well.
fn split_of(
    alloc: Global,
    calling: Calling,
    words: &[&str],
    bytes: &[u8],
    shown: &[u8],
) -> Result<Option<MemOut>, Fault>
    ensures { (asked : SplitAsked) → settings_of calling (map (λ word. word.now) words.now) ≡ Ok (Split asked)
        → asked.input ≡ codes "f" → length shown.now ≡ length bytes.now
        → IfOk result
        (λ left. IfSome left
        (λ outs. (rest : Run) × Splits
        (run_of calling (map (λ word. word.now) words.now) (in_file bytes.now shown.now) rest outs 0) asked asked.way
        bytes.now)) }
{
    let mut inputs = file_input(alloc, bytes, shown)?;
    left_over(alloc, calling, words, &mut inputs)
}

/// What two runs write of `f`, each of them one half, if both go well: joined it is all that `f` has, whatever bytes it showed, if these
/// were as many.
fn halves(
    alloc: Global,
    calling: Calling,
    first: &[&str],
    second: &[&str],
    bytes: &[u8],
    shown: &[u8],
) -> Result<Option<Vec<u8>>, Fault>
    ensures { (one other : SplitAsked) (chunks : Chunks) → chunks.count ≡ 2
        → settings_of calling (map (λ word. word.now) first.now) ≡ Ok (Split one)
        → settings_of calling (map (λ word. word.now) second.now) ≡ Ok (Split other)
        → one.input ≡ codes "f" → other.input ≡ codes "f"
        → one.way ≡ way.Chunk 0 chunks → other.way ≡ way.Chunk 1 chunks
        → length shown.now ≡ length bytes.now
        → IfOk result (λ both. IfSome both (λ all. all.items ≡ bytes.now)) }
{
    split_loses_nothing();
    let Some(front) = split_of(alloc, calling, first, bytes, shown)? else {
        return Ok(None);
    };
    let Some(back) = split_of(alloc, calling, second, bytes, shown)? else {
        return Ok(None);
    };
    let mut all = Vec::from_slice(alloc, front.bytes(0))?;
    all.extend_from_slice(back.bytes(0))?;
    Ok(Some(all))
}

/// What `split -n K/N` leaves of `f`, which gives as many bytes as it showed, and then more, if that goes well: it writes the same as any run
/// that goes well and gets these first bytes alone.
fn chunk_of_grown(
    alloc: Global,
    calling: Calling,
    words: &[&str],
    bytes: &[u8],
    shown: &[u8],
) -> Result<Option<MemOut>, Fault>
    ensures { (asked : SplitAsked) (place : ℕ) (chunks : Chunks) (first more : List ℕ)
        → settings_of calling (map (λ word. word.now) words.now) ≡ Ok (Split asked)
        → asked.input ≡ codes "f" → asked.way ≡ way.Chunk place chunks → takes_shown (Split asked) ≡ true
        → 0 < length first → length shown.now ≡ length first → bytes.now ≡ first ++ more
        → IfOk result
        (λ left. IfSome left
        (λ outs. (other : Run) (same : SplitAsked) → Splits other same (way.Chunk place chunks) first
        → (slot_at outs 0).written ≡ output_of other)) }
{
    split_loses_nothing();
    let mut inputs = file_input(alloc, bytes, shown)?;
    left_over(alloc, calling, words, &mut inputs)
}

/// What `head` writes of `f` but for its last lines or bytes, and then `tail`, which writes these, if both go well. Joined it is the text
/// that `f` showed, if it gives this first, and then perhaps more.
fn parted(
    alloc: Global,
    calling: Calling,
    head: &[&str],
    tail: &[&str],
    bytes: &[u8],
    shown: &[u8],
) -> Result<Option<Vec<u8>>, Fault>
    ensures { (first rest : EndsAsked) (asked : TailSettings) (n : ℕ) (more : List ℕ)
        → settings_of calling (map (λ word. word.now) head.now) ≡ Ok (Head (counted first Minus n))
        → settings_of calling (map (λ word. word.now) tail.now) ≡ Ok (Tail asked)
        → asked.ends ≡ counted rest Plain n → follows calling false (Tail asked) ≡ false → CountAlike first rest
        → first.names ≡ codes "f" ∷ [] → rest.names ≡ codes "f" ∷ []
        → 0 < length shown.now → bytes.now ≡ shown.now ++ more
        → IfOk result (λ both. IfSome both (λ all. all.items ≡ shown.now)) }
{
    head_and_tail_meet();
    let mut inputs = file_input(alloc, bytes, shown)?;
    let Some(front) = left_over(alloc, calling, head, &mut inputs)? else {
        return Ok(None);
    };
    let mut again = file_input(alloc, bytes, shown)?;
    let Some(back) = left_over(alloc, calling, tail, &mut again)? else {
        return Ok(None);
    };
    let mut all = Vec::from_slice(alloc, front.bytes(0))?;
    all.extend_from_slice(back.bytes(0))?;
    Ok(Some(all))
}

/// What two runs write of standard input, each of them the lines of one file of two, if both go well: each line is in one of them, in turn.
fn dealt(
    alloc: Global,
    calling: Calling,
    first: &[&str],
    second: &[&str],
    bytes: &[u8],
) -> Result<Option<(MemOut, MemOut)>, Fault>
    ensures { (one other : SplitAsked) (delim : ℕ)
        → settings_of calling (map (λ word. word.now) first.now) ≡ Ok (Split one)
        → settings_of calling (map (λ word. word.now) second.now) ≡ Ok (Split other)
        → one.input ≡ codes "-" → other.input ≡ codes "-"
        → one.way ≡ way.Turn 0 2 delim → other.way ≡ way.Turn 1 2 delim
        → IfOk result
        (λ left. IfSome left
        (λ both. AreDealt delim 2 false bytes.now
        ((slot_at both.0 0).written ∷ (slot_at both.1 0).written ∷ []))) }
{
    split_loses_nothing();
    let Some(one) = left_of(alloc, calling, first, bytes, 3)? else {
        return Ok(None);
    };
    let Some(other) = left_of(alloc, calling, second, bytes, 64)? else {
        return Ok(None);
    };
    Ok(Some((one, other)))
}

/// What the words leave of these bytes where they come byte by byte, and where they come whole, whatever the status is: the same, unless
/// a fault stopped one of both runs.
fn left_twice(
    alloc: Global,
    calling: Calling,
    words: &[&str],
    bytes: &[u8],
) -> Result<(MemOut, MemOut), Fault>
    ensures { (asked : Settings) → settings_of calling (map (λ word. word.now) words.now) ≡ Ok asked
        → follows calling false asked ≡ false
        → IfOk result
        (λ left. (one other : Run) × (one.outputs ≡ left.0) × (other.outputs ≡ left.1)
        × (LeaveAlike asked one other ⊎ IsCutShort one asked ⊎ IsCutShort other asked)) }
{
    cutting_changes_nothing();
    let mut one = MemOut::new(alloc)?;
    ran_over(alloc, calling, words, bytes, 1, &mut one)?;
    let mut other = MemOut::new(alloc)?;
    ran_over(alloc, calling, words, bytes, 64, &mut other)?;
    Ok((one, other))
}

/// Runs the words over a file `f` that shows this text, gives this many of the bytes, and then breaks off. It returns
/// the status.
fn ran_broken(
    alloc: Global,
    calling: Calling,
    words: &[&str],
    bytes: &[u8],
    shown: &[u8],
    at: usize,
    outs: &mut MemOut,
) -> Result<u8, Fault>
    requires { outs.old ≡ streams }
    ensures { (asked : Settings) → settings_of calling (map (λ word. word.now) words.now) ≡ Ok asked
        → follows calling false asked ≡ false
        → IfOk result
        (λ status. (rest : Run) × Ran
        (run_of calling (map (λ word. word.now) words.now) (with_break 1 at (in_file bytes.now shown.now)) rest outs.new
        status) asked) }
{
    let mut inputs = file_input(alloc, bytes, shown)?;
    inputs.break_at(1, at)?;
    ran(alloc, calling, words, &mut inputs, outs)
}

/// What the words leave of `f`, which breaks off, if it shows one text, and if it shows the other: the same, as far as the tool doesn't
/// look at that, unless a fault stopped one of both runs.
fn left_broken(
    alloc: Global,
    calling: Calling,
    words: &[&str],
    bytes: &[u8],
    shown: &[u8],
    instead: &[u8],
    at: usize,
) -> Result<(MemOut, MemOut), Fault>
    ensures { (asked : Settings) → settings_of calling (map (λ word. word.now) words.now) ≡ Ok asked
        → follows calling false asked ≡ false → names_of asked ≡ codes "f" ∷ []
        → ShowAlike asked (shown_by shown.now) (shown_by instead.now)
        → IfOk result
        (λ left. (one other : Run) × (one.outputs ≡ left.0) × (other.outputs ≡ left.1)
        × (LeaveAlike asked one other ⊎ IsCutShort one asked ⊎ IsCutShort other asked)) }
{
    cutting_changes_nothing();
    let mut one = MemOut::new(alloc)?;
    ran_broken(alloc, calling, words, bytes, shown, at, &mut one)?;
    let mut other = MemOut::new(alloc)?;
    ran_broken(alloc, calling, words, bytes, instead, at, &mut other)?;
    Ok((one, other))
}

/// What `csplit` leaves of `f`, which breaks off, if it shows one text, and if it shows the other: the same, unless a fault stopped one of
/// both runs. For `csplit` doesn't look at what its input shows.
fn sections_broken(
    alloc: Global,
    words: &[&str],
    bytes: &[u8],
    shown: &[u8],
    instead: &[u8],
    at: usize,
) -> Result<(MemOut, MemOut), Fault>
    ensures { (asked : CsplitAsked) → settings_of OwnName (map (λ word. word.now) words.now) ≡ Ok (Csplit asked)
        → asked.input ≡ codes "f" → IfOk result
        (λ left. (one : Run) × (other : Run) × (one.outputs ≡ left.0) × (other.outputs ≡ left.1)
        × (LeaveAlike (Csplit asked) one other ⊎ IsCutShort one (Csplit asked) ⊎ IsCutShort other (Csplit asked))) }
{
    left_broken(alloc, Calling::OwnName, words, bytes, shown, instead, at)
}

/// What `split -n N` and `split -n K/N` leave of `f`, which showed this text and then gave these bytes, and the status: what came, cut as
/// chunks of a text of the length that was shown, or what came of one of these. That `f` changed is told, unless it is one chunk that has
/// all that goes with it, or a fault stopped the run.
fn cut_as_shown(
    alloc: Global,
    calling: Calling,
    words: &[&str],
    bytes: &[u8],
    shown: &[u8],
) -> Result<(MemOut, u8), Fault>
    ensures files { (asked : SplitAsked) (chunks : Chunks)
        → settings_of calling (map (λ word. word.now) words.now) ≡ Ok (Split asked)
        → asked.input ≡ codes "f" → asked.way ≡ way.Chunks chunks
        → 0 < length shown.now → (length bytes.now ≡ length shown.now → ⊥)
        → IfOk result
        (λ left. (one : Run) × (one.outputs ≡ left.0) × (one.status ≡ left.1)
        × (IsCutAsShown one asked chunks (codes "f") shown.now bytes.now ⊎ IsCutShort one (Split asked))) }
    ensures chunk { (asked : SplitAsked) (place : ℕ) (chunks : Chunks)
        → settings_of calling (map (λ word. word.now) words.now) ≡ Ok (Split asked)
        → asked.input ≡ codes "f" → asked.way ≡ way.Chunk place chunks
        → 0 < length shown.now → (length bytes.now ≡ length shown.now → ⊥)
        → IfOk result
        (λ left. (one : Run) × (one.outputs ≡ left.0) × (one.status ≡ left.1)
        × (IsChunkAsShown one asked place chunks (codes "f") shown.now bytes.now ⊎ IsCutShort one (Split asked))) }
{
    cutting_changes_nothing();
    split_loses_nothing();
    let mut inputs = file_input(alloc, bytes, shown)?;
    let mut outs = MemOut::new(alloc)?;
    let status = ran(alloc, calling, words, &mut inputs, &mut outs)?;
    Ok((outs, status))
}

/// Runs `tee` over these bytes, into outputs that may break, and returns the status. It read to the end, or to where an output ended the
/// run or none was left, or there was no memory; and each output has a beginning of the bytes.
fn copied_so_far(
    alloc: Global,
    calling: Calling,
    words: &[&str],
    bytes: &[u8],
    outs: &mut MemOut,
) -> Result<u8, Fault>
    requires { outs.old ≡ streams }
    ensures ends { (asked : TeeAsked) → settings_of calling (map (λ word. word.now) words.now) ≡ Ok (Tee asked)
        → length bytes.now < 2 ^ 63
        → IfOk result
        (λ status. (rest : Run) × EndsWithBreak
        (run_of calling (map (λ word. word.now) words.now) (in_pipe bytes.now) rest outs.new status) asked) }
    ensures begins { (asked : TeeAsked) (place : ℕ)
        → settings_of calling (map (λ word. word.now) words.now) ≡ Ok (Tee asked)
        → length bytes.now < 2 ^ 63 → (place ≡ 1 → ⊥) → place < length outs.new
        → IfOk result (λ status. IsBeginning (slot_at outs.new place).written bytes.now) }
{
    tee_copies();
    ran_over(alloc, calling, words, bytes, 3, outs)
}

/// Runs the words over these inputs, into outputs that may break, and returns the status. If it is 1, a fault that was met was told.
fn told_why(
    alloc: Global,
    calling: Calling,
    words: &[&str],
    inputs: &mut MemIn,
    outs: &mut MemOut,
) -> Result<u8, Fault>
    requires fresh { IsFresh inputs.old.sources }
    requires empty { outs.old ≡ streams }
    ensures { (asked : Settings) → settings_of calling (map (λ word. word.now) words.now) ≡ Ok asked
        → follows calling false asked ≡ false
        → IfOk result
        (λ status. status ≡ 1 → (rest : Run) × SaysWhy
        (run_of calling (map (λ word. word.now) words.now) inputs.old rest outs.new status) asked) }
{
    faults_leave_a_beginning();
    ran(alloc, calling, words, inputs, outs)
}

/// Runs `head` over these bytes, into outputs that may break, and returns the status. Where standard output broke it is 1, or by the tool's
/// own name 141, which tells that a reader is gone.
fn status_of(
    alloc: Global,
    calling: Calling,
    words: &[&str],
    bytes: &[u8],
    outs: &mut MemOut,
) -> Result<u8, Fault>
    requires { outs.old ≡ streams }
    ensures { (asked : EndsAsked) → settings_of calling (map (λ word. word.now) words.now) ≡ Ok (Head asked)
        → IfOk result
        (λ status. (slot_at outs.new 0).is_broken ≡ true
        → (status ≡ 1) ⊎ ((calling ≡ Calling.OwnName) × (status ≡ 141))) }
{
    faults_leave_a_beginning();
    ran_over(alloc, calling, words, bytes, 3, outs)
}

/// Runs the words over these bytes, into outputs that may break, and returns the status. Each output has a beginning of what a run of the
/// same words over the same input gives it that no fault stops; and there is such a run.
fn begun(
    alloc: Global,
    calling: Calling,
    words: &[&str],
    bytes: &[u8],
    outs: &mut MemOut,
) -> Result<u8, Fault>
    requires { outs.old ≡ streams }
    ensures { (asked : Settings) → settings_of calling (map (λ word. word.now) words.now) ≡ Ok asked
        → names_of asked ≡ codes "-" ∷ [] → follows calling false asked ≡ false → HasOperands asked
        → length bytes.now < 2 ^ 63
        → IfOk result
        (λ status. (one well : Run) × (one.outputs ≡ outs.new) × FindAlike asked one well × Completes well asked
        × BeginsEach one well) }
{
    faults_leave_a_beginning();
    ran_over(alloc, calling, words, bytes, 3, outs)
}

/// Three lines, the last of them open.
const TEXT: &[u8] = b"a\nbb\nccc";

/// Both ways to call the program.
const CALLINGS: [Calling; 2] = [Calling::Cutters, Calling::OwnName];

/// Whether an output has these bytes.
fn has(outs: &MemOut, slot: usize, bytes: &[u8]) -> bool {
    outs.bytes(slot) == bytes
}

#[test]
fn halves_meet(rt: HostRuntime) -> Result<(), Fail> {
    for calling in CALLINGS {
        let first = ["split", "-n", "1/2", "f"];
        let second = ["split", "-n", "2/2", "f"];
        let found = halves(rt.alloc(), calling, &first, &second, TEXT, b"stuvwxyz")?;
        assert!(rt; found.is_some_and(|all| all.as_slice() == TEXT));
    }
    Ok(())
}

#[test]
fn parts_meet_though_more_comes(rt: HostRuntime) -> Result<(), Fail> {
    for calling in CALLINGS {
        let head = ["head", "-n", "-1", "f"];
        let tail = ["tail", "-n", "1", "f"];
        let found = parted(rt.alloc(), calling, &head, &tail, b"a\nbb\nccc\nd", TEXT)?;
        assert!(rt; found.is_some_and(|all| all.as_slice() == TEXT));
    }
    Ok(())
}

#[test]
fn chunk_is_of_what_was_shown(rt: HostRuntime) -> Result<(), Fail> {
    let words = ["split", "-n", "2/2", "f"];
    let found = chunk_of_grown(rt.alloc(), Calling::OwnName, &words, b"abcdefg", b"wxyz")?;
    assert!(rt; found.is_some_and(|outs| has(&outs, 0, b"cd")));
    Ok(())
}

#[test]
fn lines_are_dealt(rt: HostRuntime) -> Result<(), Fail> {
    let first = ["split", "-n", "r/1/2"];
    let second = ["split", "-n", "r/2/2"];
    let found = dealt(rt.alloc(), Calling::OwnName, &first, &second, TEXT)?;
    assert!(rt; found.is_some_and(|both| has(&both.0, 0, b"a\nccc") && has(&both.1, 0, b"bb\n")));
    Ok(())
}

#[test]
fn no_match_leaves_the_same(rt: HostRuntime) -> Result<(), Fail> {
    let words = ["csplit", "-k", "-", "/bb/", "/z/"];
    let (one, other) = left_twice(rt.alloc(), Calling::OwnName, &words, TEXT)?;
    assert!(rt; has(&one, 2, b"a\n") && has(&other, 2, b"a\n"));
    assert!(rt; one.bytes(1) == other.bytes(1));
    Ok(())
}

#[test]
fn what_a_broken_file_shows_is_no_matter(rt: HostRuntime) -> Result<(), Fail> {
    for words in [["split", "-l", "2", "f"], ["split", "-n", "l/2", "f"]] {
        let alloc = rt.alloc();
        let (one, other) = left_broken(
            alloc,
            Calling::Cutters,
            &words,
            TEXT,
            TEXT,
            b"stuvwxyz",
            6,
        )?;
        assert!(rt; has(&one, 2, b"a\nbb\n") && has(&other, 2, b"a\nbb\n"));
        assert!(rt; has(&one, 3, b"c") && has(&other, 3, b"c") && one.bytes(1) == other.bytes(1));
    }
    let words = ["csplit", "f", "2"];
    let (one, other) = sections_broken(rt.alloc(), &words, TEXT, TEXT, b"stuvwxyz", 6)?;
    assert!(rt; has(&one, 2, b"a\n") && has(&other, 2, b"a\n") && one.bytes(1) == other.bytes(1));
    Ok(())
}

#[test]
fn change_is_told(rt: HostRuntime) -> Result<(), Fail> {
    let words = ["split", "-n", "3", "f"];
    let (outs, status) = cut_as_shown(rt.alloc(), Calling::Cutters, &words, b"vwxyz", TEXT)?;
    assert!(rt; has(&outs, 2, b"vwx") && has(&outs, 3, b"yz") && status == 1);
    let words = ["split", "-n", "2/3", "f"];
    let (outs, status) = cut_as_shown(rt.alloc(), Calling::OwnName, &words, b"vwxyz", TEXT)?;
    assert!(rt; has(&outs, 0, b"yz") && status == 1);
    Ok(())
}

#[test]
fn broken_copy_ends_the_run(rt: HostRuntime) -> Result<(), Fail> {
    let mut outs = MemOut::new(rt.alloc())?;
    outs.limit(2, 4)?;
    let words = ["tee", "--output-error=exit", "s"];
    let status = copied_so_far(rt.alloc(), Calling::OwnName, &words, TEXT, &mut outs)?;
    assert!(rt; has(&outs, 0, b"a\nbb\nc") && has(&outs, 2, b"a\nbb") && status == 1);
    Ok(())
}

#[test]
fn missing_file_is_told(rt: HostRuntime) -> Result<(), Fail> {
    for calling in CALLINGS {
        let mut inputs = file_input(rt.alloc(), TEXT, TEXT)?;
        let mut outs = MemOut::new(rt.alloc())?;
        let status = told_why(
            rt.alloc(),
            calling,
            &["head", "f", "g"],
            &mut inputs,
            &mut outs,
        )?;
        assert!(rt; status == 1 && outs.bytes(1).starts_with(b"head: cannot open 'g'"));
    }
    Ok(())
}

#[test]
fn broken_output_has_a_beginning(rt: HostRuntime) -> Result<(), Fail> {
    let mut outs = MemOut::new(rt.alloc())?;
    outs.limit(0, 3)?;
    let status = begun(
        rt.alloc(),
        Calling::OwnName,
        &["tail", "-n", "2"],
        TEXT,
        &mut outs,
    )?;
    assert!(rt; has(&outs, 0, b"bb\n") && status == 1);
    Ok(())
}

#[test]
fn broken_output_is_told_by_the_status(rt: HostRuntime) -> Result<(), Fail> {
    for (why, calling, told) in [
        (Reason::Full, Calling::OwnName, 1),
        (Reason::Gone, Calling::OwnName, 141),
        (Reason::Gone, Calling::Cutters, 1),
    ] {
        let mut outs = MemOut::new(rt.alloc())?;
        outs.limit(0, 3)?;
        outs.breaks_as(0, why)?;
        let status = status_of(rt.alloc(), calling, &["head"], TEXT, &mut outs)?;
        assert!(rt; outs.broken(0) && status == told);
    }
    Ok(())
}

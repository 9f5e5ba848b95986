//! Callers of `run_words`, as the program is one, that rest on the laws of `promises_core`: what each of them ensures follows by one law
//! from what `run_words` ensures, and nothing is known here of what the tools do.
ghost use Rattle.std.specs.{
  Prelude.{◌≡◌, ◌+◌, ◌++◌, ◌∷◌, [], ℕ, List, Option, None, Some, map, drop, codes, true, false, IfOk, IfSome},
};
ghost use Rattle.follow_core.specs.{Run.{AreKept, name_text}, Version.entries_of};
ghost use Rattle.mem_core.specs.MemWatchState.{seen, shows};
ghost use Rattle.seg_core.specs.{
  Line.joined,
  declared.{
    count.Sign.TheVariants.{Plain, Plus},
    cut.{Cut.TheVariants.Parts, Limit.TheVariants.Bytes, Way.TheVariants.Cut},
  },
};
ghost use Rattle.ports_core.specs.{Slot.{Slot, slot_at, streams}, Source.IsFresh};
ghost use Rattle.run_tests.specs.inner.Calls.{in_pipe, run_of};
ghost use Rattle.tools_core.specs.Following.{is_name};
ghost use Rattle.promises_core.specs.{
  Promises.{forgives_gone, AreCopies, Does, CountAlike, IsBare, OnlyGrows, Ran, SkipNothing, counted, tail_part},
  Promises.to_follow,
};
ghost use Rattle.words_core.specs.{
  CsplitWords.CsplitAsked,
  EndsWords.EndsAsked,
  SplitWords.SplitAsked,
  TailWords.has_dash,
  TeeWords.TeeAsked,
  Words.{follows, settings_of},
  declared.{
    value.Followed.Followed,
    settings.Settings.{Settings, TheVariants.{Csplit, Head, Split, Tail, Tee}},
  },
};
ghost use Rattle.tools_core.specs.Run.{Run};

use mem_core::{Edit, MemIn, MemOut, MemWatch};
use ports_core::{Calling, Fault, Outs};
use promises_core::{
    csplit_loses_nothing, cutting_changes_nothing, head_and_tail_meet, program_makes_these_runs,
    split_loses_nothing, tail_follows, tee_copies,
};
use std::alloc::Global;
use std::process::Abort;
use std::test::Fail;
use tools_core::run_words;

/// Standard input with these bytes, of which a read gives this many, and no files.
fn standard_input(alloc: Global, bytes: &[u8], pieces: usize) -> Result<MemIn, Fault>
    ensures { IfOk result (λ inputs. inputs ≡ in_pipe bytes.now) }
{
    let mut inputs = MemIn::new(alloc)?;
    inputs.input(bytes)?;
    inputs.pieces(pieces.max(1));
    Ok(inputs)
}

/// Runs the words over these inputs, and returns the status. There is no file to be watched.
pub(crate) fn ran(
    alloc: Global,
    calling: Calling,
    words: &[&str],
    inputs: &mut MemIn,
    outs: &mut MemOut,
) -> Result<u8, Fault>
    requires fresh { IsFresh inputs.old.sources }
    requires empty { outs.old ≡ streams }
    ensures { (asked : Settings) → settings_of calling (map (λ word. word.now) words.now) ≡ Ok asked
        → follows calling false asked ≡ false
        → IfOk result
        (λ status. (rest : Run) × Ran
        (run_of calling (map (λ word. word.now) words.now) inputs.old rest outs.new status) asked) }
{
    program_makes_these_runs();
    let mut watch = MemWatch::new(alloc)?;
    Ok(run_words(alloc, calling, words, inputs, &mut watch, outs))
}

/// The same over standard input with these bytes, which come by this many at once.
pub(crate) fn ran_over(
    alloc: Global,
    calling: Calling,
    words: &[&str],
    bytes: &[u8],
    pieces: usize,
    outs: &mut MemOut,
) -> Result<u8, Fault>
    requires { outs.old ≡ streams }
    ensures { (asked : Settings) → settings_of calling (map (λ word. word.now) words.now) ≡ Ok asked
        → follows calling false asked ≡ false
        → IfOk result
        (λ status. (rest : Run) × Ran
        (run_of calling (map (λ word. word.now) words.now) (in_pipe bytes.now) rest outs.new status) asked) }
{
    let mut inputs = standard_input(alloc, bytes, pieces)?;
    ran(alloc, calling, words, &mut inputs, outs)
}

/// What a run of the words leaves over these inputs, if its status is 0. A reader that is gone is a fault for them.
pub(crate) fn left_over(
    alloc: Global,
    calling: Calling,
    words: &[&str],
    inputs: &mut MemIn,
) -> Result<Option<MemOut>, Fault>
    requires { IsFresh inputs.old.sources }
    ensures { (asked : Settings) → settings_of calling (map (λ word. word.now) words.now) ≡ Ok asked
        → follows calling false asked ≡ false → forgives_gone asked ≡ false
        → IfOk result
        (λ left. IfSome left
        (λ outs. (rest : Run) × Does
        (run_of calling (map (λ word. word.now) words.now) inputs.old rest outs 0) asked)) }
{
    let mut outs = MemOut::new(alloc)?;
    if ran(alloc, calling, words, inputs, &mut outs)? != 0 {
        return Ok(None);
    }
    Ok(Some(outs))
}

/// The same over standard input with these bytes, which come by this many at once.
pub(crate) fn left_of(
    alloc: Global,
    calling: Calling,
    words: &[&str],
    bytes: &[u8],
    pieces: usize,
) -> Result<Option<MemOut>, Fault>
    ensures { (asked : Settings) → settings_of calling (map (λ word. word.now) words.now) ≡ Ok asked
        → follows calling false asked ≡ false → forgives_gone asked ≡ false
        → IfOk result
        (λ left. IfSome left
        (λ outs. (rest : Run) × Does
        (run_of calling (map (λ word. word.now) words.now) (in_pipe bytes.now) rest outs 0) asked)) }
{
    let mut inputs = standard_input(alloc, bytes, pieces)?;
    left_over(alloc, calling, words, &mut inputs)
}

/// What `head` and then `tail` write of the same bytes, if both go well: all of them, where `tail` begins with the line or byte
/// after those that `head` writes.
fn met(alloc: Global, head: &[&str], tail: &[&str], bytes: &[u8]) -> Result<Option<Vec<u8>>, Fault>
    ensures { (first rest : EndsAsked) (followed : Option Followed) (n looks pause : ℕ)
        → settings_of Calling.Cutters (map (λ word. word.now) head.now) ≡ Ok (Head (counted first Plain n))
        → settings_of Calling.Cutters (map (λ word. word.now) tail.now) ≡ Ok (Tail
        (record { ends = counted rest Plus (n + 1); followed = followed; looks = looks; pause = pause; process = None }))
        → CountAlike first rest → first.names ≡ codes "-" ∷ [] → rest.names ≡ codes "-" ∷ []
        → IfOk result (λ both. IfSome both (λ all. all.items ≡ bytes.now)) }
{
    head_and_tail_meet();
    let Some(front) = left_of(alloc, Calling::Cutters, head, bytes, 3)? else {
        return Ok(None);
    };
    let Some(back) = left_of(alloc, Calling::Cutters, tail, bytes, 64)? else {
        return Ok(None);
    };
    let mut all = Vec::from_slice(alloc, front.bytes(0))?;
    all.extend_from_slice(back.bytes(0))?;
    Ok(Some(all))
}

/// The first two lines of these bytes and then those after them, if both can be had: the bytes.
fn first_and_rest(alloc: Global, bytes: &[u8]) -> Result<Option<Vec<u8>>, Fault>
    ensures { IfOk result (λ both. IfSome both (λ all. all.items ≡ bytes.now)) }
{
    met(alloc, &["head", "-n", "2"], &["tail", "-n", "+3"], bytes)
}

/// The files into which `split -b` cuts these bytes, if that goes well: joined they are the bytes.
fn pieces(alloc: Global, words: &[&str], bytes: &[u8]) -> Result<Option<MemOut>, Fault>
    ensures { (asked : SplitAsked) (n : ℕ)
        → settings_of Calling.Cutters (map (λ word. word.now) words.now) ≡ Ok (Split asked)
        → asked.input ≡ codes "-" → asked.way ≡ Cut (Parts (Bytes n))
        → IfOk result
        (λ left. IfSome left (λ outs. joined (map (λ (file : Slot). file.written) (drop 2 outs)) ≡ bytes.now)) }
{
    split_loses_nothing();
    left_of(alloc, Calling::Cutters, words, bytes, 3)
}

/// What `tee` leaves of these bytes, if that goes well: standard output and each file that is named has them.
fn copied(alloc: Global, words: &[&str], bytes: &[u8]) -> Result<Option<MemOut>, Fault>
    ensures { (asked : TeeAsked) → settings_of Calling.Cutters (map (λ word. word.now) words.now) ≡ Ok (Tee asked)
        → forgives_gone (Tee asked) ≡ false
        → IfOk result
        (λ left. IfSome left
        (λ outs. ((slot_at outs 0).written ≡ bytes.now)
        × AreCopies asked.mode asked.names bytes.now (drop 2 outs))) }
{
    tee_copies();
    left_of(alloc, Calling::Cutters, words, bytes, 3)
}

/// The files into which `csplit` cuts these bytes, if that goes well: joined they are the bytes, where no section is skipped and no
/// line is left out at a cut.
fn sections(alloc: Global, words: &[&str], bytes: &[u8]) -> Result<Option<MemOut>, Fault>
    ensures { (asked : CsplitAsked) → settings_of Calling.Cutters (map (λ word. word.now) words.now) ≡ Ok (Csplit asked)
        → asked.input ≡ codes "-" → asked.style.suppress ≡ false → SkipNothing asked.operands
        → IfOk result
        (λ left. IfSome left (λ outs. joined (map (λ (file : Slot). file.written) (drop 2 outs)) ≡ bytes.now)) }
{
    csplit_loses_nothing();
    left_of(alloc, Calling::Cutters, words, bytes, 3)
}

/// What a `tail` leaves that follows one name, in either way, if it goes well. If the name leads to one file, which only grows, that is what
/// this ends with at the first look and all that came by the last. If a file that isn't seen shorter has kept its bytes, it is the text of
/// the name.
fn followed(alloc: Global, words: &[&str], watch: &mut MemWatch) -> Result<Option<MemOut>, Fault>
    requires seen { seen watch.old ≡ [] }
    requires watched { watch.old.watched ≡ [] }
    ensures text { (options : EndsAsked) (how : Followed) (name : List ℕ) (looks pause : ℕ)
        → settings_of Calling.Cutters (map (λ word. word.now) words.now)
        ≡ Ok (Tail (to_follow options how looks pause))
        → has_dash options.names ≡ false → IsBare options → options.names ≡ name ∷ []
        → AreKept (entries_of (is_name how) name (seen watch.new))
        → IfOk result
        (λ left. IfSome left
        (λ outs. (slot_at outs 0).written
        ≡ name_text (tail_part options) (entries_of (is_name how) name (seen watch.new)))) }
    ensures grows { (options : EndsAsked) (followed : Followed) (name came : List ℕ) (file n pause : ℕ)
        → settings_of Calling.Cutters (map (λ word. word.now) words.now)
        ≡ Ok (Tail (to_follow options followed (n + 1) pause))
        → has_dash options.names ≡ false → IsBare options → options.names ≡ name ∷ []
        → ((count : ℕ) → OnlyGrows count (shows watch.old) name file)
        → (shows watch.old n).holds file ≡ (shows watch.old 0).holds file ++ came
        → IfOk result
        (λ left. IfSome left
        (λ outs. (slot_at outs 0).written
        ≡ tail_part options ((shows watch.old 0).holds file) ++ came)) }
{
    program_makes_these_runs();
    tail_follows();
    let mut inputs = standard_input(alloc, b"", 1)?;
    let mut outs = MemOut::new(alloc)?;
    if run_words(
        alloc,
        Calling::Cutters,
        words,
        &mut inputs,
        watch,
        &mut outs,
    ) != 0
    {
        return Ok(None);
    }
    Ok(Some(outs))
}

/// What the words leave of these bytes where they come byte by byte, and where they come whole, if both go well: the same.
fn both(alloc: Global, words: &[&str], bytes: &[u8]) -> Result<Option<(MemOut, MemOut)>, Fault>
    ensures { (asked : Settings) → settings_of Calling.Cutters (map (λ word. word.now) words.now) ≡ Ok asked
        → follows Calling.Cutters false asked ≡ false → forgives_gone asked ≡ false
        → IfOk result (λ left. IfSome left (λ outs. outs.0 ≡ outs.1)) }
{
    cutting_changes_nothing();
    let Some(one) = left_of(alloc, Calling::Cutters, words, bytes, 1)? else {
        return Ok(None);
    };
    let Some(other) = left_of(alloc, Calling::Cutters, words, bytes, 64)? else {
        return Ok(None);
    };
    Ok(Some((one, other)))
}

/// Three lines, the last of them open.
const TEXT: &[u8] = b"a\nbb\nccc";

#[test]
fn ends_meet(rt: HostRuntime) -> Result<(), Fail> {
    let found = first_and_rest(rt.alloc(), TEXT)?;
    assert!(rt; found.is_some_and(|all| all.as_slice() == TEXT));
    Ok(())
}

#[test]
fn pieces_are_there(rt: HostRuntime) -> Result<(), Fail> {
    let found = pieces(rt.alloc(), &["split", "-b", "5"], TEXT)?;
    assert!(rt; found.is_some_and(|outs| outs.bytes(3) == b"ccc".as_slice()));
    Ok(())
}

#[test]
fn copies_are_there(rt: HostRuntime) -> Result<(), Fail> {
    let found = copied(rt.alloc(), &["tee", "-a", "f"], TEXT)?;
    assert!(rt; found.is_some_and(|outs| outs.bytes(0) == TEXT && outs.bytes(2) == TEXT));
    Ok(())
}

#[test]
fn sections_are_there(rt: HostRuntime) -> Result<(), Fail> {
    let found = sections(rt.alloc(), &["csplit", "-", "/bb/"], TEXT)?;
    assert!(rt; found.is_some_and(|outs| outs.bytes(3) == b"bb\nccc".as_slice()));
    Ok(())
}

#[test]
fn grown_file_is_there(rt: HostRuntime) -> Result<(), Fail> {
    for way in ["-f", "-F"] {
        let mut watch = MemWatch::new(rt.alloc())?;
        watch.then(&[Edit::Replace("f", TEXT)])?;
        watch.then(&[Edit::Append("f", b"d\n")])?;
        let words = ["tail", way, "-n", "1", "--looks", "2", "f"];
        let found = followed(rt.alloc(), &words, &mut watch)?;
        assert!(rt; found.is_some_and(|outs| outs.bytes(0) == b"cccd\n".as_slice()));
    }
    Ok(())
}

#[test]
fn text_of_two_files_is_there(rt: HostRuntime) -> Result<(), Fail> {
    let mut watch = MemWatch::new(rt.alloc())?;
    watch.then(&[Edit::Replace("f", TEXT)])?;
    watch.then(&[Edit::Append("f", b"d\n")])?;
    watch.then(&[Edit::Replace("f", b"e\n")])?;
    let words = ["tail", "-F", "-n", "1", "--looks", "3", "f"];
    let found = followed(rt.alloc(), &words, &mut watch)?;
    assert!(rt; found.is_some_and(|outs| outs.bytes(0) == b"cccd\ne\n".as_slice()));
    Ok(())
}

#[test]
fn both_are_there(rt: HostRuntime) -> Result<(), Fail> {
    let found = both(rt.alloc(), &["tail", "-n", "1"], TEXT)?;
    assert!(rt; found.is_some_and(|outs| outs.0.bytes(0) == outs.1.bytes(0)));
    Ok(())
}

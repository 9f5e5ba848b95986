//! Where the first look begins to write of a file.
ghost use Rattle.std.specs.Prelude.{◌≡◌, ◌≤◌, ◌<◌, ◌+◌, ◌^◌, true, length, take, drop, IsTrue, IfOk, IfErr, OnOk};
ghost use Rattle.seg_core.specs.{Line.after_lines, inner.Lines.last_lines};
ghost use Rattle.watch_core.specs.{Snapshot.latest, Watched.{CanBreak, is_readable, open_contents, watched_at}};
ghost use Rattle.follow_core.specs.{Look.{start_part, is_sought}, inner.Giving.FailsToRead};

use ends_core::Unit;
use ports_core::Fault;
use seg_core::line::reach;
use seg_core::line_back::reach_back;
use seg_core::line_reach::{Reach, ReachBack};
use watch_core::Watch;

/// Which part of a file the first look writes: the last lines or bytes, or all from the nth on.
#[derive(Clone, Copy, Debug, PartialEq, Eq)]
pub struct Start {
    /// What is counted: lines or bytes.
    pub unit: Unit,
    /// Whether the count is the number of the first line or byte that is written; 0 is read as 1.
    pub from_nth: bool,
    /// The count.
    pub count: u64,
    /// The byte with which lines end.
    pub delim: u8,
}

impl Start {
    /// Where this part begins in an open file of `len` bytes. Lines are looked for from the end; with `from_nth` they
    /// are looked for from the front. Bytes are not looked for. It takes no memory.
    ///
    /// # Errors
    ///
    /// `Read` if the file fails: the name is broken.
    pub(crate) fn find<W: Watch>(
        self,
        watch: &mut W,
        place: usize,
        len: u64,
        buffer: &mut [u8],
    ) -> Result<u64, Fault>
        requires readable { IsTrue (is_readable (W.watched watch.old) place) }
        requires room { 0 < length buffer.old }
        requires bound { len < 2 ^ 63 }
        requires whole { W.visible ≡ true
            → len ≡ length (open_contents (latest (W.seen watch.old)) (watched_at (W.watched watch.old) place)) }
        ensures within { IfOk result (λ from. from ≤ len) }
        ensures part { IfOk result (λ from. W.visible ≡ true
            → let contents = open_contents (latest (W.seen watch.old))
            (watched_at (W.watched watch.old) place) in drop from contents
            ≡ start_part self contents) }
        ensures same { OnOk result (W.watched watch.new ≡ W.watched watch.old) }
        ensures err { IfErr result (FailsToRead place (W.watched watch.old) (W.watched watch.new)) }
        ensures breaks { IfErr result (λ _. CanBreak (W.seen watch.old) (W.watched watch.old) place) }
        ensures sought { IfErr result (λ _. IsTrue (is_sought self.unit)) }
        ensures seen { W.seen watch.new ≡ W.seen watch.old }
        ensures shows { W.shows watch.new ≡ W.shows watch.old }
    {
        match (self.unit, self.from_nth) {
            (Unit::Bytes, false) => Ok(len.saturating_sub(self.count)),
            (Unit::Bytes, true) => Ok(self.count.saturating_sub(1).min(len)),
            (Unit::Lines, false) => {
                find_last_lines(watch, place, self.count, self.delim, len, buffer)
            }
            (Unit::Lines, true) => {
                let before = self.count.saturating_sub(1);
                pass_lines(watch, place, before, self.delim, len, buffer)
            }
        }
    }
}

/// Where the last `count` lines of a file of `len` bytes begin. The place is looked for from the end, by the delimiters
/// before the last byte: after each of them another line begins.
fn find_last_lines<W: Watch>(
    watch: &mut W,
    place: usize,
    count: u64,
    delim: u8,
    len: u64,
    buffer: &mut [u8],
) -> Result<u64, Fault>
    requires readable { IsTrue (is_readable (W.watched watch.old) place) }
    requires room { 0 < length buffer.old }
    requires bound { len < 2 ^ 63 }
    requires whole { W.visible ≡ true
        → len ≡ length (open_contents (latest (W.seen watch.old)) (watched_at (W.watched watch.old) place)) }
    ensures within { IfOk result (λ from. from ≤ len) }
    ensures part { IfOk result (λ from. W.visible ≡ true
        → let contents = open_contents (latest (W.seen watch.old))
        (watched_at (W.watched watch.old) place) in drop from contents ≡ last_lines delim count contents) }
    ensures same { OnOk result (W.watched watch.new ≡ W.watched watch.old) }
    ensures err { IfErr result (FailsToRead place (W.watched watch.old) (W.watched watch.new)) }
    ensures breaks { IfErr result (λ _. CanBreak (W.seen watch.old) (W.watched watch.old) place) }
    ensures seen { W.seen watch.new ≡ W.seen watch.old }
    ensures shows { W.shows watch.new ≡ W.shows watch.old }
{
    if count == 0 {
        return Ok(len);
    }
    let mut end = len.saturating_sub(1);
    let mut wanted = count;
    while 0 < end {
        let size = end.min(buffer.len() as u64) as usize;
        let from = end - size as u64;
        let n = read_block(watch, place, from, &mut buffer[..size])?;
        match reach_back(&buffer[..n], wanted, delim) {
            ReachBack::Begins(at) => return Ok(from + at as u64),
            ReachBack::Short(found) => wanted -= found as u64,
        }
        end = from;
    }
    Ok(0)
}

/// Where the lines that follow the first `count` lines of a file of `len` bytes begin.
fn pass_lines<W: Watch>(
    watch: &mut W,
    place: usize,
    count: u64,
    delim: u8,
    len: u64,
    buffer: &mut [u8],
) -> Result<u64, Fault>
    requires readable { IsTrue (is_readable (W.watched watch.old) place) }
    requires room { 0 < length buffer.old }
    requires bound { len < 2 ^ 63 }
    requires whole { W.visible ≡ true
        → len ≡ length (open_contents (latest (W.seen watch.old)) (watched_at (W.watched watch.old) place)) }
    ensures within { IfOk result (λ from. from ≤ len) }
    ensures part { IfOk result (λ from. W.visible ≡ true
        → let contents = open_contents (latest (W.seen watch.old))
        (watched_at (W.watched watch.old) place) in drop from contents ≡ after_lines delim count contents) }
    ensures same { OnOk result (W.watched watch.new ≡ W.watched watch.old) }
    ensures err { IfErr result (FailsToRead place (W.watched watch.old) (W.watched watch.new)) }
    ensures breaks { IfErr result (λ _. CanBreak (W.seen watch.old) (W.watched watch.old) place) }
    ensures seen { W.seen watch.new ≡ W.seen watch.old }
    ensures shows { W.shows watch.new ≡ W.shows watch.old }
{
    let mut at = 0;
    let mut left = count;
    while at < len {
        let size = (len - at).min(buffer.len() as u64) as usize;
        let n = read_block(watch, place, at, &mut buffer[..size])?;
        match reach(&buffer[..n], left, delim) {
            Reach::Ends(end) => return Ok(at + end as u64),
            Reach::Short(found) => left -= found as u64,
        }
        at += size as u64;
    }
    Ok(len)
}

/// Fills a block with bytes of the open file from a place on, as far as there are any, and returns how many there were.
///
/// # Errors
///
/// `Read` if the file fails: the name is broken.
fn read_block<W: Watch>(
    watch: &mut W,
    place: usize,
    from: u64,
    block: &mut [u8],
) -> Result<usize, Fault>
    requires readable { IsTrue (is_readable (W.watched watch.old) place) }
    requires fits { from + length block.old < 2 ^ 64 }
    ensures bound { IfOk result (λ n. n ≤ length block.old) }
    ensures bytes { IfOk result (λ n. W.visible ≡ true
        → take n block.new
        ≡ take (length block.old)
        (drop from (open_contents (latest (W.seen watch.old)) (watched_at (W.watched watch.old) place)))) }
    ensures length { length block.new ≡ length block.old }
    ensures same { OnOk result (W.watched watch.new ≡ W.watched watch.old) }
    ensures err { IfErr result (FailsToRead place (W.watched watch.old) (W.watched watch.new)) }
    ensures breaks { IfErr result (λ _. CanBreak (W.seen watch.old) (W.watched watch.old) place) }
    ensures seen { W.seen watch.new ≡ W.seen watch.old }
    ensures shows { W.shows watch.new ≡ W.shows watch.old }
{
    let mut filled = 0;
    while filled < block.len() {
        match watch.read_at(place, from + filled as u64, &mut block[filled..]) {
            Ok(0) => return Ok(filled),
            Ok(n) => filled += n,
            Err(fault) => return Err(fault),
        }
    }
    Ok(filled)
}

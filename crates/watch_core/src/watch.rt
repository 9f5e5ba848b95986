ghost use Rattle.std.specs.{
  Prelude.{◌≡◌, ◌≤◌, ◌<◌, ◌^◌, ◌++◌, ◌∷◌, [], ℕ, List, Bool, true, length, max, option_map, take, is_some, IfOk, IfErr},
  Prelude.{OnOk, IfSome, IsTrue},
};
ghost use Rattle.watch_core.specs.{
  Snapshot.{Snapshot, Found, clinging, forgiving, holds_many, insisting, latest, leads_to, reads_as, waiting},
  Watched.{Watched, CanBreak, Reopens, Finds, GaveFrom, watched_at, added, NameBreaks, is_watchable, is_readable},
  Watched.open_contents,
};

use ports_core::{Fault, Reason};

/// The file that a name leads to.
#[derive(Clone, Copy, Debug, PartialEq, Eq)]
pub struct Seen {
    /// Its identity: no other file has the same while this one is there.
    pub id: u128,
    /// How many bytes it holds, at most 2^63-1.
    pub len: u64,
}

/// By which call a name broke.
#[derive(Clone, Copy, Debug, PartialEq, Eq)]
pub enum Broken {
    /// `look`.
    Look,
    /// `reopen`.
    Open,
    /// `open_len`. Holds the identity of the open file.
    Len(Option<u128>),
    /// `read_at`. Holds the identity of the open file, and from which place on it was read.
    Read(Option<u128>, u64),
}

/// Names that are watched in looks, each by its number, from 0 in the order in which they were added. What the names lead to and
/// what the files hold changes only as a look begins, with `turn`. Of each name one file may be open, which stays what it is when
/// the name comes to lead elsewhere. A name breaks at its first call that fails, and stays broken: no file of it is open from then on.
/// A watch that forgives has no call that fails on a name that a file can have: one that is there, but can't be opened or read, counts as
/// missing. If it insists, a call on a name that leads nowhere fails.
///
/// The name `-` leads to the file that standard input is, if that is a file. It holds what the file has from the place on at which standard
/// input stood when the name was added.
pub trait Watch {
    /// What each look so far could see, in order.
    ghost seen: { Self → List Snapshot };

    /// What the look of each number will see, from 0.
    ghost shows: { Self → ℕ → Snapshot };

    /// The names that were added, in order.
    ghost watched: { Self → List Watched };

    /// How many milliseconds the last look was waited for, in pauses. How long a pause takes is the system's.
    ghost rested: { Self → ℕ };

    /// Whether the files tell their bytes. Where they don't, nothing is said of what is found and read but that it was found.
    ghost visible: { Bool };

    /// Whether standard input is a file that can be watched, under the name `-`.
    ghost fed: { Self → Bool };

    /// Whether standard input is a file that can be watched, under the name `-`.
    fn has_input(&self) -> bool
        ensures { result ≡ fed self.now };

    /// Begins a look over all names, after pauses that are together no longer than what the look shows.
    ///
    /// # Errors
    ///
    /// `Memory`: nothing is changed.
    fn turn(&mut self) -> Result<(), Fault>
        ensures ok { OnOk result (seen self.new ≡ seen self.old ++ shows self.old (length (seen self.old)) ∷ []) }
        ensures err { IfErr result (λ fault. (fault ≡ Fault.Memory) × (seen self.new ≡ seen self.old)) }
        ensures rested { OnOk result (rested self.new ≤ (shows self.old (length (seen self.old))).within) }
        ensures watched { watched self.new ≡ watched self.old }
        ensures shows { shows self.new ≡ shows self.old };

    /// Whether no process of this number runs, as is to be known before the next look. It is asked before that begins, so what
    /// the process wrote is there to be seen in the look.
    fn is_gone(&mut self, process: u32) -> bool
        ensures told { visible ≡ true → result ≡ (shows self.old (length (seen self.old))).lacks process }
        ensures found { IsTrue result → IsTrue ((shows self.old (length (seen self.old))).lacks process) }
        ensures watched { watched self.new ≡ watched self.old }
        ensures seen { seen self.new ≡ seen self.old }
        ensures shows { shows self.new ≡ shows self.old };

    /// Has it begin each look within this number of milliseconds, 1 at least, where nothing is seen to change before. What looks find
    /// doesn't depend on it. Called before the first look.
    fn wait_at_most(&mut self, milliseconds: u64)
        requires { seen self.old ≡ [] }
        ensures shows { shows self.new ≡ (λ n. waiting (max milliseconds 1) (shows self.old n)) }
        ensures watched { watched self.new ≡ watched self.old }
        ensures seen { seen self.new ≡ seen self.old };

    /// From now on a name that is there but can't be opened or read counts as missing, and no call fails but on a name with a byte 0,
    /// which no file can have. Called before the first look.
    fn forgive(&mut self)
        requires { seen self.old ≡ [] }
        ensures shows { shows self.new ≡ (λ n. forgiving (shows self.old n)) }
        ensures watched { watched self.new ≡ watched self.old }
        ensures seen { seen self.new ≡ seen self.old };

    /// From now on a name that leads nowhere can't be looked at or opened: the call fails, for `Missing`, and the name is broken. Any
    /// call may fail then, also if it forgave before. Called before the first look.
    fn insist(&mut self)
        requires { seen self.old ≡ [] }
        ensures shows { shows self.new ≡ (λ n. insisting (shows self.old n)) }
        ensures watched { watched self.new ≡ watched self.old }
        ensures seen { seen self.new ≡ seen self.old };

    /// From now on a name leads to the first file to which it led at any look, whatever becomes of the name. Before, a name that is there
    /// but can't be looked up or opened counts as missing. If the length of the open file can't be told, or a read of it fails, that
    /// fails, and the name is broken. Called before the first look.
    fn cling(&mut self)
        requires { seen self.old ≡ [] }
        ensures shows { shows self.new ≡ clinging (shows self.old) }
        ensures watched { watched self.new ≡ watched self.old }
        ensures seen { seen self.new ≡ seen self.old };

    /// Adds a name, and gives its number. No file of it is open.
    ///
    /// # Errors
    ///
    /// `Memory`: nothing is changed.
    fn add(&mut self, name: &str) -> Result<usize, Fault>
        ensures ok { IfOk result (λ place. (place ≡ length (watched self.old))
            × (watched self.new ≡ watched self.old ++ added name.now ∷ [])) }
        ensures err { IfErr result (λ fault. (fault ≡ Fault.Memory) × (watched self.new ≡ watched self.old)) }
        ensures seen { seen self.new ≡ seen self.old }
        ensures shows { shows self.new ≡ shows self.old };

    /// The file that the name leads to; none where it leads nowhere.
    ///
    /// # Errors
    ///
    /// `Open` where that can't be told, or it leads nowhere and the watch insists: the name is broken. Not where the watch forgives and
    /// a file can have the name; nor do the calls below fail there.
    fn look(&mut self, place: usize) -> Result<Option<Seen>, Fault>
        requires { IsTrue (is_watchable (watched self.old) place) }
        ensures ok { IfOk result (λ found. visible ≡ true
            → Finds (latest (seen self.old)) (watched_at (watched self.old) place).name found) }
        ensures found { IfOk result (λ found. Found (latest (seen self.old)) (watched_at (watched self.old) place).name
            (leads_to (option_map (λ file. file.id) found))) }
        ensures bound { IfOk result (λ found. IfSome found (λ file. file.len < 2 ^ 63)) }
        ensures same { OnOk result (watched self.new ≡ watched self.old) }
        ensures err { IfErr result
            (λ fault. (fault ≡ Fault.Open place)
            × NameBreaks (λ file. Broken.Look) place (watched self.old) (watched self.new)) }
        ensures breaks { IfErr result (λ _. CanBreak (seen self.old) (watched self.old) place) }
        ensures seen { seen self.new ≡ seen self.old }
        ensures shows { shows self.new ≡ shows self.old };

    /// Opens the file that the name leads to, in place of the one that was open. False where it leads nowhere: no file of it is
    /// open then.
    ///
    /// # Errors
    ///
    /// `Open` where there is a file that can't be opened, or none and the watch insists: the name is broken.
    fn reopen(&mut self, place: usize) -> Result<bool, Fault>
        requires { IsTrue (is_watchable (watched self.old) place) }
        ensures ok { IfOk result
            (Reopens visible (latest (seen self.old)) (watched self.old) (watched self.new) place) }
        ensures err { IfErr result
            (λ fault. (fault ≡ Fault.Open place)
            × NameBreaks (λ file. Broken.Open) place (watched self.old) (watched self.new)) }
        ensures breaks { IfErr result (λ _. CanBreak (seen self.old) (watched self.old) place) }
        ensures seen { seen self.new ≡ seen self.old }
        ensures shows { shows self.new ≡ shows self.old };

    /// Why the call failed by which the name broke; of one that didn't break, why the last call failed that was forgiven, or that it leads
    /// nowhere. `Other` where that isn't known.
    fn reason(&self, place: usize) -> Reason
        ensures broke { is_some (watched_at (watched self.now) place).failed ≡ true
            → result ≡ (watched_at (watched self.now) place).reason }
        ensures missing { visible ≡ true → IsTrue (is_watchable (watched self.now) place)
            → result ≡ (latest (seen self.now)).missing (watched_at (watched self.now) place).name };

    /// The identity of the open file; none where none is open.
    fn open_id(&self, place: usize) -> Option<u128>
        ensures { result ≡ (watched_at (watched self.now) place).opened };

    /// How many bytes the open file holds.
    ///
    /// # Errors
    ///
    /// `Read` where that can't be told: the name is broken.
    fn open_len(&mut self, place: usize) -> Result<u64, Fault>
        requires { IsTrue (is_readable (watched self.old) place) }
        ensures ok { IfOk result (λ len. visible ≡ true
            → len ≡ length (open_contents (latest (seen self.old)) (watched_at (watched self.old) place))) }
        ensures found { IfOk result (λ len. Found (latest (seen self.old)) (watched_at (watched self.old) place).name
            (holds_many (watched_at (watched self.old) place).opened len)) }
        ensures bound { IfOk result (λ len. len < 2 ^ 63) }
        ensures same { OnOk result (watched self.new ≡ watched self.old) }
        ensures err { IfErr result
            (λ fault. (fault ≡ Fault.Read place)
            × NameBreaks (λ file. Broken.Len file) place (watched self.old) (watched self.new)) }
        ensures breaks { IfErr result (λ _. CanBreak (seen self.old) (watched self.old) place) }
        ensures seen { seen self.new ≡ seen self.old }
        ensures shows { shows self.new ≡ shows self.old };

    /// Fills a beginning of the buffer with the open file's bytes from a place on, and returns how many there are: 0 only from
    /// its end on, or for an empty buffer, by which nothing is found; or where a real file can't be read, and the watch forgives.
    ///
    /// # Errors
    ///
    /// `Read` where the file fails: the name is broken.
    fn read_at(&mut self, place: usize, from: u64, buffer: &mut [u8]) -> Result<usize, Fault>
        requires { IsTrue (is_readable (watched self.old) place) }
        ensures bound { IfOk result (λ n. n ≤ length buffer.old) }
        ensures bytes { IfOk result (λ n. visible ≡ true
            → GaveFrom (open_contents (latest (seen self.old))
            (watched_at (watched self.old) place)) from buffer.old buffer.new n) }
        ensures found { IfOk result (λ n. 0 < length buffer.old
            → Found (latest (seen self.old)) (watched_at (watched self.old) place).name
            (reads_as (watched_at (watched self.old) place).opened from (take n buffer.new))) }
        ensures length { length buffer.new ≡ length buffer.old }
        ensures same { OnOk result (watched self.new ≡ watched self.old) }
        ensures err { IfErr result
            (λ fault. (fault ≡ Fault.Read place)
            × NameBreaks (λ file. Broken.Read file from) place (watched self.old) (watched self.new)) }
        ensures breaks { IfErr result (λ _. CanBreak (seen self.old) (watched self.old) place) }
        ensures seen { seen self.new ≡ seen self.old }
        ensures shows { shows self.new ≡ shows self.old };
}

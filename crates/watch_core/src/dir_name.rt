ghost use Rattle.std.specs.{
  Prelude.{◌≡◌, ◌⊎◌, ◌≤◌, ◌<◌, ◌^◌, true, false, length, string_bytes, IfOk, IfErr, OnOk, IfSome, IsTrue, is_some},
  Fs.{IsDir, file_type},
};
ghost use Rattle.ports_core.specs.{Reason.{reason_of}, declared.reason.Reason.TheVariants.{Folder}};
ghost use Rattle.watch_core.specs.{Snapshot.has_zero, Watched.{Watched, added, breaks, opens}};

use crate::dir_file::DirFile;
use crate::input::{path_of, place_of};
use crate::pace::Pace;
use crate::{Broken, Seen};
use ports_core::{MOST_BYTES, Reason, id_of};
use std::alloc::{AllocError, Global};
use std::fs;
use std::fs::{File, Metadata};
use std::io::{self, Error, ErrorKind};
use std::marker::Model;
use std::rt::Files;

/// The system's number for the error that a file is a folder.
const IS_FOLDER: i32 = 21;

/// Which files a name is taken to lead to, beside the open one.
#[derive(Clone, Copy)]
enum Kinds {
    /// All, at the first look.
    Any,
    /// Those that are regular, at each later one: the opening of a named pipe waits for who writes, and all names would.
    Regular,
}

impl Kinds {
    /// The error for a file that is none of these, by what the system told of it. None if it is one.
    fn refusal(self, about: &Metadata) -> Option<Error>
        ensures { IsDir (file_type about.now) → IfSome result (λ error. reason_of error ≡ Folder) }
    {
        match self {
            Kinds::Any => None,
            Kinds::Regular if about.is_file() => None,
            Kinds::Regular if about.is_dir() => Some(Error::from_raw_os_error(IS_FOLDER)),
            Kinds::Regular => Some(Error::from(ErrorKind::Unsupported)),
        }
    }

    /// The error for what a name leads to, if that is none of these. None also if the system can't tell what it is: the opening says why.
    fn refusal_at(self, files: &impl Files, name: &str) -> Option<Error> {
        match self {
            Kinds::Any => None,
            Kinds::Regular => match fs::metadata(files, name) {
                Ok(about) => self.refusal(&about),
                Err(_) => None,
            },
        }
    }
}

/// What becomes of names that can't be read or lead nowhere.
#[derive(Clone, Copy)]
pub(crate) enum Manner {
    /// A name that can't be read breaks, and one that leads nowhere is missing.
    Plain,
    /// One that can't be read counts as missing.
    Forgiving,
    /// The same until a file of it is open. It stays with that file, and breaks if a call on the file fails.
    Clinging,
    /// One that leads nowhere breaks, too.
    Insisting,
}

impl Manner {
    /// Whether a name that can't be looked up or opened counts as missing, as long as no file of it is open.
    pub(crate) fn forgives(self) -> bool
        ensures yes { IsTrue result → (self ≡ Manner.Forgiving) ⊎ (self ≡ Manner.Clinging) }
        ensures must { self ≡ Manner.Forgiving → IsTrue result }
    {
        match self {
            Manner::Plain | Manner::Insisting => false,
            Manner::Forgiving | Manner::Clinging => true,
        }
    }

    /// Whether a call on an open file that fails is forgiven. The name counts as missing then.
    pub(crate) fn forgives_reads(self) -> bool
        ensures yes { IsTrue result → self ≡ Manner.Forgiving }
        ensures must { self ≡ Manner.Forgiving → IsTrue result }
    {
        matches!(self, Manner::Forgiving)
    }

    /// Whether a name that leads nowhere breaks.
    pub(crate) fn insists(self) -> bool
        ensures { self ≡ Manner.Insisting → IsTrue result }
    {
        matches!(self, Manner::Insisting)
    }
}

/// A name that is watched, and the real file of it that is open.
#[derive(Drop)]
pub(crate) struct DirName {
    name: String,
    /// The identity of the open file, as it was told when the file was opened.
    opened: Option<u128>,
    /// The open file. None where none is open, and once the name is broken, so that the system has it back.
    file: Option<DirFile>,
    /// Where a name that can't be read counts as missing: another file than the open one to which it leads, which was opened so that
    /// it is known to be readable, and is the one that is opened next.
    next: Option<Opened>,
    /// What becomes of it if it can't be read or leads nowhere.
    manner: Manner,
    /// A call on the open file failed, which was forgiven: the name counts as missing.
    is_unreadable: bool,
    /// How long the open file was told to be last.
    last_len: u64,
    /// The error by which the last call failed that was forgiven, or found none.
    why: Error,
    /// The call by which it broke.
    failed: Option<Broken>,
    /// Why that failed.
    reason: Reason,
    /// A look found nothing, and changes weren't looked for since.
    is_gone: bool,
    /// Which files it is taken to lead to. From the second look on those that are regular.
    kinds: Kinds,
    /// The place in a regular file from which on it is watched.
    from: u64,
    /// What the name leads to, as looks are told until the system is asked again. None where it is to be asked then.
    led_to: Option<Option<Seen>>,
    /// How often the open file's length was asked for since it was opened, or since a look asked where the name leads.
    lens: u8,
    pace: Pace,
}

impl Model for DirName {
    ghost Value = { Watched };

    ghost view = { λ n. record {
      name = string_bytes n.name;
      opened = n.opened;
      failed = n.failed;
      reason = n.reason;
    } };

    ghost invariant = { λ n. IfSome n.led_to (λ found. IfSome found (λ file. file.len < 2 ^ 63))
        × (n.last_len < 2 ^ 63) };
}

impl DirName {
    /// A name that was not looked at yet.
    pub(crate) fn new(
        alloc: Global,
        files: &impl Files,
        name: &str,
        manner: Manner,
    ) -> Result<Self, AllocError>
        ensures { IfOk result (λ watched. watched ≡ added name.now) }
    {
        Ok(DirName {
            name: String::from_str(alloc, name)?,
            opened: None,
            file: None,
            next: None,
            manner,
            is_unreadable: false,
            last_len: 0,
            why: Error::from(ErrorKind::Other),
            failed: None,
            reason: Reason::Other,
            is_gone: false,
            kinds: Kinds::Any,
            from: place_of(files, name),
            led_to: None,
            lens: 0,
            pace: Pace::new(),
        })
    }

    /// Whether a byte of it is 0: no file can have such a name.
    pub(crate) fn has_zero(&self) -> bool
        ensures { result ≡ has_zero self.now.name }
    {
        self.name.as_bytes().contains(&0)
    }

    /// The identity of the open file.
    pub(crate) fn id(&self) -> Option<u128>
        ensures { result ≡ self.now.opened }
    {
        self.opened
    }

    /// Why the call failed by which it broke; else why the last call failed that was forgiven, or found none.
    pub(crate) fn reason(&self) -> Reason
        ensures { is_some self.now.failed ≡ true → result ≡ self.now.reason }
    {
        match self.failed {
            Some(_) => self.reason,
            None => Reason::of(&self.why),
        }
    }

    /// The file that the name leads to; none where it leads nowhere, or to one of another kind than it is taken to lead to. It is what
    /// was found when changes were last looked for, if that was asked. Where it can't be told, or there is none and `insists` is true,
    /// the name is broken.
    pub(crate) fn look(&mut self, files: &impl Files, insists: bool) -> io::Result<Option<Seen>>
        ensures bound { IfOk result (λ found. IfSome found (λ file. file.len < 2 ^ 63)) }
        ensures there { IsTrue insists → IfOk result (λ found. is_some found ≡ true) }
        ensures same { OnOk result (self.new ≡ self.old) }
        ensures broke { IfErr result (λ error. self.new ≡ breaks (reason_of error) (λ file. Broken.Look) self.old) }
    {
        self.lens = 0;
        let found = match self.led_to {
            Some(found) => Ok(found),
            None => self.find(files),
        };
        match found {
            Ok(None) if insists => Err(self.break_missing(Broken::Look)),
            Ok(found) => {
                self.is_gone = found.is_none();
                self.led_to = Some(found);
                Ok(found)
            }
            Err(error) => {
                self.break_off(Broken::Look, &error);
                Err(error)
            }
        }
    }

    /// The same where a name that can't be read counts as missing: none also where it leads to another file than the open one that
    /// can't be opened or read, or where a call on the open one failed since it was opened. A name that stays with its open file leads
    /// to that.
    pub(crate) fn look_forgiving(
        &mut self,
        alloc: Global,
        files: &impl Files<File = File>,
    ) -> Option<Seen>
        ensures bound { IfSome result (λ file. file.len < 2 ^ 63) }
        ensures same { self.new ≡ self.old }
    {
        if let Some(id) = self.kept() {
            let len = self.len_forgiving();
            return Some(Seen { id, len });
        }
        self.lens = 0;
        let found = self.readable_now(alloc, files);
        self.is_gone = found.is_none();
        self.led_to = Some(found);
        found
    }

    /// What such a look finds: what was found when changes were last looked for, if that was asked.
    fn readable_now(&mut self, alloc: Global, files: &impl Files<File = File>) -> Option<Seen>
        ensures bound { IfSome result (λ file. file.len < 2 ^ 63) }
        ensures same { self.new ≡ self.old }
    {
        if self.is_unreadable {
            return None;
        }
        match self.led_to {
            Some(found) => found,
            None => self.find_readable(alloc, files),
        }
    }

    /// The file that the name leads to, where it can be read. Another one than the open one is opened to know that, and kept for
    /// `open_forgiving`.
    fn find_readable(&mut self, alloc: Global, files: &impl Files<File = File>) -> Option<Seen>
        ensures bound { IfSome result (λ file. file.len < 2 ^ 63) }
        ensures same { self.new ≡ self.old }
    {
        self.next = None;
        match self.find(files) {
            Ok(Some(seen)) if self.opened == Some(seen.id) => return Some(seen),
            Ok(Some(_)) => {}
            Ok(None) => return None,
            Err(error) => {
                self.why = error;
                return None;
            }
        }
        let opened = self.open_readable(alloc, files)?;
        let seen = opened.seen;
        self.next = Some(opened);
        Some(seen)
    }

    /// Opens the file that the name leads to, where it can be read. None where there is no such file, for whatever reason.
    fn open_readable(&mut self, alloc: Global, files: &impl Files<File = File>) -> Option<Opened>
        ensures { self.new ≡ self.old }
    {
        let path = path_of(self.name.as_str());
        match open_readable(alloc, files, path, self.from, self.kinds) {
            Ok(opened) => Some(opened),
            Err(error) => {
                self.why = error;
                None
            }
        }
    }

    /// Has this become of it from now on if it can't be read or leads nowhere.
    pub(crate) fn treat(&mut self, manner: Manner)
        ensures { self.new ≡ self.old }
    {
        self.manner = manner;
    }

    /// The open file, if the name stays with it wherever it leads.
    fn kept(&self) -> Option<u128> {
        match self.manner {
            Manner::Clinging => self.opened,
            Manner::Plain | Manner::Forgiving | Manner::Insisting => None,
        }
    }

    /// Opens the file that the name leads to, in place of the one that was open, and returns whether there is one. Where there
    /// is one that can't be opened, or no memory for a stream's buffer, or none and `insists` is true, the name is broken. Where this
    /// turn's look found none, there is none: a file that was made since is for the next look to find, which tells that it came.
    pub(crate) fn open(
        &mut self,
        alloc: Global,
        files: &impl Files<File = File>,
        insists: bool,
    ) -> io::Result<bool>
        ensures opened { OnOk result (self.new ≡ opens self.new.opened self.old) }
        ensures found { IfOk result (λ is_there. is_some self.new.opened ≡ is_there) }
        ensures there { IsTrue insists → OnOk result (is_some self.new.opened ≡ true) }
        ensures broke { IfErr result (λ error. self.new ≡ breaks (reason_of error) (λ file. Broken.Open) self.old) }
    {
        // It goes back to the system first, so that no two files of a name are open.
        self.file = None;
        self.lens = 0;
        self.pace.hurry();
        match self.find_file(alloc, files) {
            Ok(Some(opened)) => {
                self.opened = Some(opened.seen.id);
                self.led_to = Some(Some(opened.seen));
                self.file = Some(opened.file);
                Ok(true)
            }
            Ok(None) if insists => Err(self.break_missing(Broken::Open)),
            Ok(None) => {
                self.opened = None;
                self.led_to = Some(None);
                Ok(false)
            }
            Err(error) => {
                self.break_off(Broken::Open, &error);
                Err(error)
            }
        }
    }

    /// Opens the file that the name leads to. None where it leads nowhere, or where this turn's look found none, and `why` says why.
    fn find_file(
        &mut self,
        alloc: Global,
        files: &impl Files<File = File>,
    ) -> io::Result<Option<Opened>>
        ensures { self.new ≡ self.old }
    {
        if self.is_gone {
            return Ok(None);
        }
        let path = path_of(self.name.as_str());
        match open_file(alloc, files, path, self.from, self.kinds)? {
            Met::File(opened) => Ok(Some(opened)),
            Met::Nothing(error) => {
                self.why = error;
                Ok(None)
            }
        }
    }

    /// The same where a name that can't be read counts as missing: false also where the file can't be opened or read. It is the one that
    /// this turn's look opened to know that, and is opened now where no look came before.
    pub(crate) fn open_forgiving(&mut self, alloc: Global, files: &impl Files<File = File>) -> bool
        ensures opened { self.new ≡ opens self.new.opened self.old }
        ensures found { is_some self.new.opened ≡ result }
    {
        self.file = None;
        self.is_unreadable = false;
        self.last_len = 0;
        self.lens = 0;
        self.pace.hurry();
        match self.take_next(alloc, files) {
            Some(opened) => {
                self.opened = Some(opened.seen.id);
                self.led_to = Some(Some(opened.seen));
                self.file = Some(opened.file);
                true
            }
            None => {
                self.opened = None;
                self.led_to = Some(None);
                false
            }
        }
    }

    /// The file that is opened next. None where there is none that can be read, or where this turn's look found none.
    fn take_next(&mut self, alloc: Global, files: &impl Files<File = File>) -> Option<Opened>
        ensures { self.new ≡ self.old }
    {
        let next = self.next.take();
        if self.is_gone {
            return None;
        }
        match next {
            Some(opened) => Some(opened),
            None => self.open_readable(alloc, files),
        }
    }

    /// How many bytes the open file held when changes were last looked for. Where that can't be told, the name is broken.
    pub(crate) fn len(&mut self) -> io::Result<u64>
        ensures bound { IfOk result (λ len. len < 2 ^ 63) }
        ensures same { OnOk result (self.new ≡ self.old) }
        ensures broke { IfErr result (λ error. self.new ≡ breaks (reason_of error) (λ file. Broken.Len file) self.old) }
    {
        match self.count() {
            Ok(len) => Ok(len),
            Err(error) => {
                self.break_off(Broken::Len(self.opened), &error);
                Err(error)
            }
        }
    }

    /// The same where a name that can't be read counts as missing: where it can't be told, the length that was told last, 0 where none
    /// was, and from now on the name counts as missing.
    pub(crate) fn len_forgiving(&mut self) -> u64
        ensures bound { result < 2 ^ 63 }
        ensures same { self.new ≡ self.old }
    {
        match self.count() {
            Ok(len) => self.last_len = len,
            Err(error) => {
                self.why = error;
                self.is_unreadable = true;
            }
        }
        self.last_len
    }

    /// How many bytes the open file held when changes were last looked for.
    ///
    /// # Errors
    ///
    /// The error by which that can't be told; one without a number where no file is open.
    fn count(&mut self) -> io::Result<u64>
        ensures bound { IfOk result (λ len. len < 2 ^ 63) }
        ensures same { self.new ≡ self.old }
    {
        self.lens = self.lens.saturating_add(1);
        match &mut self.file {
            Some(file) => file.len(),
            None => Err(Error::from(ErrorKind::NotFound)),
        }
    }

    /// Reads the open file once from a place on, and returns how many bytes that gave.
    ///
    /// # Errors
    ///
    /// The error by which it failed; one without a number where no file is open.
    fn read(&self, from: u64, buffer: &mut [u8]) -> io::Result<usize>
        ensures { IfOk result (λ n. n ≤ length buffer.old) }
    {
        match &self.file {
            Some(file) => file.read_at(from, buffer),
            None => Err(Error::from(ErrorKind::NotFound)),
        }
    }

    /// Reads the open file once from a place on, and returns how many bytes that gave. Where it fails, the name is broken.
    pub(crate) fn read_at(&mut self, from: u64, buffer: &mut [u8]) -> io::Result<usize>
        ensures bound { IfOk result (λ n. n ≤ length buffer.old) }
        ensures same { OnOk result (self.new ≡ self.old) }
        ensures broke { IfErr result
            (λ error. self.new ≡ breaks (reason_of error) (λ file. Broken.Read file from) self.old) }
    {
        match self.read(from, buffer) {
            Ok(n) => Ok(n),
            Err(error) => {
                self.break_off(Broken::Read(self.opened, from), &error);
                Err(error)
            }
        }
    }

    /// The same where a name that can't be read counts as missing: 0 where it fails, and from now on the name counts as missing.
    pub(crate) fn read_forgiving(&mut self, from: u64, buffer: &mut [u8]) -> usize
        ensures bound { result ≤ length buffer.old }
        ensures same { self.new ≡ self.old }
    {
        match self.read(from, buffer) {
            Ok(n) => n,
            Err(error) => {
                self.why = error;
                self.is_unreadable = true;
                0
            }
        }
    }

    /// Breaks it by this error.
    fn break_off(&mut self, how: Broken, error: &Error)
        ensures { self.new ≡ breaks (reason_of error.now) (λ file. how) self.old }
    {
        self.file = None;
        self.opened = None;
        self.failed = Some(how);
        self.reason = Reason::of(error);
        self.pace.end();
    }

    /// Breaks it since it leads nowhere, and returns the error that was found then.
    fn break_missing(&mut self, how: Broken) -> Error
        ensures { self.new ≡ breaks (reason_of result) (λ file. how) self.old }
    {
        let error = self.why;
        self.break_off(how, &error);
        error
    }

    /// When changes are to be looked for, in milliseconds.
    pub(crate) fn due(&self) -> u64 {
        self.pace.due()
    }

    /// Has changes looked for at once. A broken name stays as it is.
    pub(crate) fn hurry(&mut self)
        ensures { self.new ≡ self.old }
    {
        if self.failed.is_none() {
            self.pace.hurry();
        }
    }

    /// Looks for changes where that is due at this time, and returns whether there is one: the name leads elsewhere than looks were
    /// told, or its file or the open one has another length, or something came of a stream, or a call that failed was forgiven. What a
    /// look found before doesn't count from here on.
    pub(crate) fn has_changed(
        &mut self,
        alloc: Global,
        files: &impl Files<File = File>,
        now: u64,
    ) -> bool
        ensures { self.new ≡ self.old }
    {
        self.is_gone = false;
        self.kinds = Kinds::Regular;
        if now < self.pace.due() {
            return false;
        }
        let differs = self.differs(alloc, files, now);
        let changed = differs || (self.is_unreadable && self.kept().is_none());
        self.pace.go_on(now, changed);
        if changed && matches!(&self.file, Some(DirFile::Stream(_))) {
            // More may be there already, and its writer isn't to wait.
            self.pace.hurry();
        }
        changed
    }

    /// Whether the name or its open file isn't as looks were told, or something came of that, where it is a stream.
    fn differs(&mut self, alloc: Global, files: &impl Files<File = File>, now: u64) -> bool
        ensures { self.new ≡ self.old }
    {
        let is_spared = self.spares_name(now);
        if is_spared && !self.has_grown(None, now) {
            return false;
        }
        // The name is asked first, so that what came to its open file before it led elsewhere is written before the other file.
        let is_elsewhere = self.leads_elsewhere(alloc, files);
        self.has_grown(self.led_len(), now) || is_elsewhere || is_spared
    }

    /// Whether the open file alone is asked at this time: a regular one, to which the name led when it was asked last.
    fn spares_name(&self, now: u64) -> bool {
        let is_placed = matches!(&self.file, Some(DirFile::Placed(_)));
        is_placed && self.led_len().is_some() && !self.pace.asks_where(now)
    }

    /// Whether the name leads elsewhere than looks were told, or its file has another length. Where looks ask the open file alone,
    /// or the name stays with it, the system isn't asked.
    fn leads_elsewhere(&mut self, alloc: Global, files: &impl Files<File = File>) -> bool
        ensures { self.new ≡ self.old }
    {
        let told = self.led_to;
        // The first look asks for the length of what it opened, and the second once more, before it asks where the name leads.
        let is_open_alone = self.lens > 1 || self.kept().is_some();
        if self.file.is_some() && is_open_alone {
            self.led_to = None;
            return false;
        }
        self.led_to = self.ask(alloc, files);
        told.is_some() && self.led_to != told
    }

    /// The file that the name leads to, as the system says now: the open one, or another of a kind that it is taken to lead to. None where
    /// it leads to no such file, and `why` says why. One that is longer than a watch tells is an error.
    fn find(&mut self, files: &impl Files) -> io::Result<Option<Seen>>
        ensures bound { IfOk result (λ found. IfSome found (λ file. file.len < 2 ^ 63)) }
        ensures same { self.new ≡ self.old }
    {
        match fs::metadata(files, path_of(self.name.as_str())) {
            Ok(about) => {
                let seen = seen_of(&about, self.from)?;
                if self.opened == Some(seen.id) {
                    return Ok(Some(seen));
                }
                match self.kinds.refusal(&about) {
                    None => Ok(Some(seen)),
                    Some(error) => {
                        self.why = error;
                        Ok(None)
                    }
                }
            }
            Err(error) if error.kind() == ErrorKind::NotFound => {
                self.why = error;
                Ok(None)
            }
            Err(error) => Err(error),
        }
    }

    /// Where the name leads, as the system says now. None where it can't be told.
    fn ask(&mut self, alloc: Global, files: &impl Files<File = File>) -> Option<Option<Seen>>
        ensures bound { IfSome result (λ found. IfSome found (λ file. file.len < 2 ^ 63)) }
        ensures same { self.new ≡ self.old }
    {
        if self.manner.forgives() {
            return Some(self.find_readable(alloc, files));
        }
        self.find(files).ok()
    }

    /// How many bytes the open file has, as was told with the name. None where that isn't known to lead to it.
    fn led_len(&self) -> Option<u64> {
        match (self.led_to, self.opened) {
            (Some(Some(found)), Some(id)) if found.id == id => Some(found.len),
            _ => None,
        }
    }

    /// Whether the open file has another length than looks were told, or something came of it, where it is a stream. Where its length
    /// was told with the name, the system isn't asked again.
    fn has_grown(&mut self, told: Option<u64>, now: u64) -> bool
        ensures { self.new ≡ self.old }
    {
        let is_at_rest = self.pace.is_at_rest(now);
        match &mut self.file {
            Some(file) => file.has_changed(told, is_at_rest),
            None => false,
        }
    }
}

/// A file that was just opened.
#[derive(Drop)]
struct Opened {
    seen: Seen,
    file: DirFile,
    ghost bound: { seen.len < 2 ^ 63 },
}

/// What was met where a file was to be opened.
enum Met {
    /// The file, which is open.
    File(Opened),
    /// None, or one of another kind. Holds the error that says so.
    Nothing(Error),
}

/// A file of which the system told this, from a place on. One that is longer than a watch tells is an error.
fn seen_of(about: &Metadata, from: u64) -> io::Result<Seen>
    ensures { IfOk result (λ file. file.len < 2 ^ 63) }
{
    let len = about.len().saturating_sub(from);
    if len > MOST_BYTES {
        return Err(Error::from(ErrorKind::FileTooLarge));
    }
    Ok(Seen {
        id: id_of(about),
        len,
    })
}

/// Opens a file for reading, from a place on. Nothing where the name leads nowhere, or to a file of another kind. Its identity is that of
/// the file that was opened, where the name may lead elsewhere by then. A file that is longer than a watch tells is an error.
fn open_file(
    alloc: Global,
    files: &impl Files<File = File>,
    name: &str,
    from: u64,
    kinds: Kinds,
) -> io::Result<Met> {
    // The library can't open a named pipe without waiting. So who puts one there between the question and the opening, microseconds
    // later, still has all names wait until somebody writes to it.
    if let Some(error) = kinds.refusal_at(files, name) {
        return Ok(Met::Nothing(error));
    }
    match fs::open(files, name) {
        Ok(file) => {
            let about = file.metadata()?;
            if let Some(error) = kinds.refusal(&about) {
                return Ok(Met::Nothing(error));
            }
            Ok(Met::File(Opened {
                seen: seen_of(&about, from)?,
                file: DirFile::new(alloc, file, &about, from)?,
            }))
        }
        Err(error) if error.kind() == ErrorKind::NotFound => Ok(Met::Nothing(error)),
        Err(error) => Err(error),
    }
}

/// The same where it can be read.
///
/// # Errors
///
/// The error by which it can't be opened or read.
fn open_readable(
    alloc: Global,
    files: &impl Files<File = File>,
    name: &str,
    from: u64,
    kinds: Kinds,
) -> io::Result<Opened> {
    match open_file(alloc, files, name, from, kinds)? {
        Met::File(opened) => match opened.file.failure() {
            None => Ok(opened),
            Some(error) => Err(error),
        },
        Met::Nothing(error) => Err(error),
    }
}

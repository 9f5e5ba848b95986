use std::alloc::Global;
use std::cell::Cell;
use std::io::{BufRead, ErrorKind, Lock, StdinLock};
use std::rt::Stdin;

/// What standard input is, if the system doesn't say it. The library can't be asked whether standard input can be
/// sought. But the library's lock reads more than a byte ahead exactly if it can.
#[derive(Drop)]
pub(crate) struct Ahead {
    alloc: Global,
    /// Standard input, if it may be read and nothing of it was read. None once a lock has its first bytes.
    unread: Cell<Option<Stdin>>,
    /// The lock that has the first bytes, and is to be read on.
    lock: Cell<Vec<StdinLock<'static>>>,
    /// Whether standard input may be a file, once that was asked.
    may_be: Cell<bool>,
}

impl Ahead {
    /// No standard input. It takes no memory.
    pub(crate) fn new(alloc: Global) -> Self {
        Ahead {
            alloc,
            unread: Cell::new(None),
            lock: Cell::new(Vec::new(alloc)),
            may_be: Cell::new(false),
        }
    }

    /// Standard input may be read, and nothing of it was read.
    pub(crate) fn begin(&self, standard: Stdin) {
        self.unread.set(Some(standard));
    }

    /// Whether standard input may be a file. This waits for its first byte, as the first read would. If there is no
    /// memory to keep the lock that read it, standard input may be a file.
    pub(crate) fn may_be_file(&self) -> bool {
        let Some(standard) = self.unread.replace(None) else {
            return self.may_be.get();
        };
        let Ok(room) = Vec::with_capacity(self.alloc, 1) else {
            self.unread.set(Some(standard));
            return true;
        };
        self.keep(room, standard.lock());
        self.may_be.get()
    }

    /// The lock that has the first bytes, for the caller to read on. None if there is no such lock.
    pub(crate) fn take(&self) -> Option<StdinLock<'static>> {
        self.may_be_file();
        let mut kept = self.lock.replace(Vec::new(self.alloc));
        kept.pop()
    }

    /// Keeps a lock, for which there is room, once it was seen how far it reads ahead.
    fn keep(&self, room: Vec<StdinLock<'static>>, lock: StdinLock<'static>) {
        let mut lock = lock;
        self.may_be.set(reads_ahead(&mut lock));
        let mut kept = room;
        let _ = kept.push(lock);
        self.lock.set(kept);
    }
}

/// Whether a lock reads more ahead than the next byte. If no byte is left, it may; if it can't be read, it doesn't.
fn reads_ahead(lock: &mut StdinLock<'static>) -> bool {
    for _ in 0..u64::MAX {
        match lock.fill_buf() {
            Ok(ready) => return ready.len() != 1,
            Err(error) if error.kind() == ErrorKind::Interrupted => {}
            Err(_) => return false,
        }
    }
    false
}

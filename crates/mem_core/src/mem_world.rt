//! Files in memory, and names that lead to them.
ghost use Rattle.std.specs.Prelude.{◌≡◌, ◌∷◌, ℕ, List, map, string_bytes, IfOk, OnOk};
ghost use Rattle.watch_core.specs.{
  Edits.{Bar, Link, World, append, bar, edited, edited_by, empty_world, end, held_in, is_barred_in, is_one, led_to},
  Edits.{replace, shown, truncate},
};
ghost use Rattle.mem_core.specs.MemWatchState.{edit_of};

use crate::Edit;
use std::alloc::{AllocError, Global};
use std::marker::Model;

/// A file in memory.
#[derive(Drop)]
struct MemFile {
    bytes: Vec<u8>,
}

impl Model for MemFile {
    ghost Value = { List ℕ };

    ghost view = { λ f. f.bytes.items };
}

/// Where a name leads.
#[derive(Drop)]
struct MemLink {
    name: String,
    file: Option<usize>,
}

impl Model for MemLink {
    ghost Value = { Link };

    ghost view = { λ l. record { name = string_bytes l.name; file = l.file } };
}

/// Whether a name can't be opened or read.
#[derive(Drop)]
struct MemBar {
    name: String,
    is_barred: bool,
}

impl Model for MemBar {
    ghost Value = { Bar };

    ghost view = { λ b. record { name = string_bytes b.name; is_barred = b.is_barred } };
}

/// Files in memory, each at its identity, and where the names lead and which can't be read: of one name the first link counts, and the
/// first bar.
#[derive(Drop)]
pub(crate) struct MemWorld {
    links: Vec<MemLink>,
    files: Vec<MemFile>,
    /// The processes that ended.
    ended: Vec<u32>,
    bars: Vec<MemBar>,
}

impl Model for MemWorld {
    ghost Value = { World };

    ghost view = { λ w. record {
      links = w.links.items;
      files = w.files.items;
      ended = w.ended.items;
      bars = w.bars.items;
    } };
}

impl MemWorld {
    /// No file and no name.
    pub(crate) fn empty(alloc: Global) -> Self
        ensures { result ≡ empty_world }
    {
        MemWorld {
            links: Vec::new(alloc),
            files: Vec::new(alloc),
            ended: Vec::new(alloc),
            bars: Vec::new(alloc),
        }
    }

    /// The same files and names once more.
    pub(crate) fn copy(&self, alloc: Global) -> Result<Self, AllocError>
        ensures { IfOk result (λ world. world ≡ self.now) }
    {
        Ok(MemWorld {
            links: copy_links(alloc, &self.links)?,
            files: copy_files(alloc, &self.files)?,
            ended: Vec::from_slice(alloc, &self.ended)?,
            bars: copy_bars(alloc, &self.bars)?,
        })
    }

    /// The file to which a name leads; none if it leads nowhere.
    pub(crate) fn file_of(&self, name: &str) -> Option<usize>
        ensures { result ≡ led_to self.now.links name.now }
    {
        let mut links: &[MemLink] = &self.links;
        while let [link, rest @ ..] = links {
            if link.name.as_str() == name {
                return link.file;
            }
            links = rest;
        }
        None
    }

    /// The file to which a look finds a name to lead: none if it can't be read, and that is forgiven.
    pub(crate) fn leads(&self, name: &str, forgives: bool) -> Option<usize>
        ensures { result ≡ (shown forgives self.now).leads name.now }
    {
        if forgives && self.is_barred(name) {
            return None;
        }
        self.file_of(name)
    }

    /// Whether a name can't be opened or read.
    pub(crate) fn is_barred(&self, name: &str) -> bool
        ensures { result ≡ is_barred_in self.now.bars name.now }
    {
        let mut bars: &[MemBar] = &self.bars;
        while let [bar, rest @ ..] = bars {
            if bar.name.as_str() == name {
                return bar.is_barred;
            }
            bars = rest;
        }
        false
    }

    /// What a file holds; nothing if there is no such file.
    pub(crate) fn bytes(&self, file: usize) -> &[u8]
        ensures { result.now ≡ held_in self.now.files file }
    {
        match self.files.get(file) {
            Some(held) => held.bytes.as_slice(),
            None => &[],
        }
    }

    /// Changes the files by all these edits, one after another.
    pub(crate) fn edit_all(&mut self, alloc: Global, edits: &[Edit<'_>]) -> Result<(), AllocError>
        ensures { OnOk result (self.new ≡ edited_by (map edit_of edits.now) self.old) }
    {
        let mut left = edits;
        while let [edit, rest @ ..] = left {
            self.edit(alloc, edit)?;
            left = rest;
        }
        Ok(())
    }

    /// Changes the files by one edit.
    fn edit(&mut self, alloc: Global, edit: &Edit<'_>) -> Result<(), AllocError>
        ensures { OnOk result (self.new ≡ edited (edit_of edit.now) self.old) }
    {
        match *edit {
            Edit::Append(name, bytes) => self.append(name, bytes),
            Edit::Truncate(name, n) => {
                self.truncate(name, n);
                Ok(())
            }
            Edit::Replace(name, bytes) => self.replace(alloc, name, bytes),
            Edit::Remove(name) => self.lead(alloc, name, None),
            Edit::End(process) => self.end(process),
            Edit::Bar(name, is) => self.bar(alloc, name, is),
        }
    }

    fn append(&mut self, name: &str, bytes: &[u8]) -> Result<(), AllocError>
        ensures { OnOk result (self.new ≡ edited (append name.now bytes.now) self.old) }
    {
        let Some(file) = self.file_of(name) else {
            return Ok(());
        };
        if file < self.files.len() {
            self.files[file].bytes.extend_from_slice(bytes)?;
        }
        Ok(())
    }

    fn truncate(&mut self, name: &str, n: usize)
        ensures { self.new ≡ edited (truncate name.now n) self.old }
    {
        let Some(file) = self.file_of(name) else {
            return;
        };
        if file < self.files.len() {
            self.files[file].bytes.truncate(n);
        }
    }

    fn replace(&mut self, alloc: Global, name: &str, bytes: &[u8]) -> Result<(), AllocError>
        ensures { OnOk result (self.new ≡ edited (replace name.now bytes.now) self.old) }
    {
        let file = self.files.len();
        let bytes = Vec::from_slice(alloc, bytes)?;
        self.files.push(MemFile { bytes })?;
        self.lead(alloc, name, Some(file))
    }

    fn end(&mut self, process: u32) -> Result<(), AllocError>
        ensures { OnOk result (self.new ≡ edited (end process) self.old) }
    {
        self.ended.insert(0, process)?;
        Ok(())
    }

    /// Has a name that can't be read, or that can again.
    fn bar(&mut self, alloc: Global, name: &str, is_barred: bool) -> Result<(), AllocError>
        ensures { OnOk result (self.new ≡ edited (bar name.now is_barred) self.old) }
    {
        let name = String::from_str(alloc, name)?;
        self.bars.insert(0, MemBar { name, is_barred })?;
        Ok(())
    }

    /// Whether this process ended.
    pub(crate) fn has_ended(&self, process: u32) -> bool
        ensures { result ≡ is_one process self.now.ended }
    {
        let mut left: &[u32] = &self.ended;
        while let [other, rest @ ..] = left {
            if process == *other {
                return true;
            }
            left = rest;
        }
        false
    }

    /// Makes a name lead to a file, or nowhere.
    fn lead(&mut self, alloc: Global, name: &str, file: Option<usize>) -> Result<(), AllocError>
        ensures { OnOk result (self.new
            ≡ record self.old { links = record { name = name.now; file = file } ∷ self.old.links }) }
    {
        let name = String::from_str(alloc, name)?;
        self.links.insert(0, MemLink { name, file })?;
        Ok(())
    }
}

fn copy_links(alloc: Global, links: &[MemLink]) -> Result<Vec<MemLink>, AllocError>
    ensures { IfOk result (λ copies. copies.items ≡ links.now) }
{
    let mut copies = Vec::new(alloc);
    for link in links {
        let name = String::from_str(alloc, link.name.as_str())?;
        copies.push(MemLink {
            name,
            file: link.file,
        })?;
    }
    Ok(copies)
}

fn copy_bars(alloc: Global, bars: &[MemBar]) -> Result<Vec<MemBar>, AllocError>
    ensures { IfOk result (λ copies. copies.items ≡ bars.now) }
{
    let mut copies = Vec::new(alloc);
    for bar in bars {
        let name = String::from_str(alloc, bar.name.as_str())?;
        copies.push(MemBar {
            name,
            is_barred: bar.is_barred,
        })?;
    }
    Ok(copies)
}

fn copy_files(alloc: Global, files: &[MemFile]) -> Result<Vec<MemFile>, AllocError>
    ensures { IfOk result (λ copies. copies.items ≡ files.now) }
{
    let mut copies = Vec::new(alloc);
    for file in files {
        let bytes = Vec::from_slice(alloc, &file.bytes)?;
        copies.push(MemFile { bytes })?;
    }
    Ok(copies)
}

//! What each line with a match has, and looking for it in a text.

ghost use Rattle.std.specs.Prelude.{◌≤◌, length};
ghost use Rattle.scan_core.specs.inner.Needles.{LacksBefore};

use crate::few_bytes::FewBytes;
use memchr::memmem::Finder;

/// What each line with a match has.
#[derive(Drop)]
pub enum Needle {
    /// One of these bytes.
    Byte(FewBytes),
    /// This text.
    Text(Finder<'static>),
}

impl Needle {
    /// Where it stands in a text first, or else the text's end.
    pub fn find(&self, text: &[u8]) -> usize
        ensures within { result ≤ length text.now }
        ensures lacks { LacksBefore self.now text.now result }
    {
        match self {
            Needle::Byte(few) => few.find(text),
            Needle::Text(finder) => match finder.find(text) {
                Some(place) => place,
                None => text.len(),
            },
        }
    }
}

ghost use Rattle.std.specs.Prelude.{◌≡◌, IfOk, IfErr};
ghost use Rattle.follow_core.specs.Notice.{line_of, notice_of, notice_words};

use crate::title::title;
use ports_core::{Fault, Tool, write_quoted};
use std::alloc::{AllocError, Global};

/// What a look can find of a name that was looked at before.
#[derive(Clone, Copy, Debug, PartialEq, Eq)]
pub enum Notice {
    /// The open file is shorter than it was.
    Truncated,
    /// The name leads to another file.
    Replaced,
    /// The name leads nowhere any more.
    Inaccessible,
    /// The name, which led nowhere, leads to a file.
    Appeared,
}

impl Notice {
    /// What the line says after the name.
    fn words(self) -> &'static str
        ensures { result.now ≡ notice_words self }
    {
        match self {
            Notice::Truncated => "file truncated",
            Notice::Replaced => "file replaced",
            Notice::Inaccessible => "file inaccessible",
            Notice::Appeared => "file appeared",
        }
    }
}

/// The line that tells what a look found of a name, with its newline.
///
/// # Errors
///
/// `Memory` where the line found no room.
pub fn notice_line(alloc: Global, notice: Notice, name: &str) -> Result<Vec<u8>, Fault>
    ensures ok { IfOk result (λ text. text.items ≡ notice_of notice name.now) }
    ensures err { IfErr result (λ fault. fault ≡ Fault.Memory) }
{
    Ok(written(alloc, notice.words(), title(name))?)
}

fn written(alloc: Global, words: &str, name: &str) -> Result<Vec<u8>, AllocError>
    ensures { IfOk result (λ text. text.items ≡ line_of words.now name.now) }
{
    let mut text = Vec::from_slice(alloc, Tool::Tail.name().as_bytes())?;
    text.extend_from_slice(b": ")?;
    write_quoted(&mut text, name)?;
    text.extend_from_slice(b": ")?;
    text.extend_from_slice(words.as_bytes())?;
    text.extend_from_slice(b"\n")?;
    Ok(text)
}

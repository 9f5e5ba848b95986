//! How sections are made into files.
ghost use Rattle.std.specs.Prelude.{◌≡◌, IfErr, IfOk};
ghost use Rattle.csplit_core.specs.{Output.opening_of as opens, inner.Cutter.{new_for, tells_by}};
ghost use Rattle.engine_core.specs.FileWriter.{seen_writer};

use crate::Style;
use engine_core::{FileWriter, Keeps, Opening, Tells};
use ports_core::{Fault, Naming, Numbering};
use std::alloc::Global;

/// A writer of files that has made no file.
///
/// # Errors
///
/// `Memory` if there is no room for what names begin and end with.
pub(crate) fn writer_of(alloc: Global, style: &Style) -> Result<FileWriter, Fault>
    ensures ok { IfOk result (λ writer. seen_writer writer ≡ new_for style.now) }
    ensures err { IfErr result (λ fault. fault ≡ Fault.Memory) }
{
    let tells = tells_of(style);
    let numbering = Numbering::Formatted(style.form);
    let naming = Naming::new(alloc, &style.prefix, numbering, &style.ending)?;
    Ok(FileWriter::new(alloc, naming, tells, Keeps::All))
}

/// When a section gets its file. A section that is skipped gets none, and an empty section may get none.
pub(crate) fn opening_of(style: &Style, is_kept: bool) -> Opening
    ensures { result ≡ opens style.now is_kept }
{
    if !is_kept {
        return Opening::Never;
    }
    if style.elide {
        return Opening::Late;
    }
    Opening::AtOnce
}

/// What standard output gets about files.
fn tells_of(style: &Style) -> Tells
    ensures { result ≡ tells_by style.now }
{
    if style.quiet {
        return Tells::Nothing;
    }
    Tells::Sizes
}

//! How files are made of sections.
ghost use Rattle.std.specs.Prelude.{◌≡◌, IfOk};

use ports_core::Form;
use std::alloc::{AllocError, Global};
use std::marker::Model;

/// How `csplit` makes files (POSIX.1-2017, XCU csplit, OPTIONS; `-b`, `elide`, `suppress` and `one_past` are
/// GNU's).
#[derive(Drop)]
pub struct Style {
    /// What a file's name has before its number (`-f`, `-b`).
    pub prefix: String,
    /// How the number is written (`-n`, `-b`).
    pub form: Form,
    /// What a file's name has after its number (`-b`).
    pub ending: String,
    /// Whether files are kept after a fault (`-k`).
    pub keep: bool,
    /// Whether no sizes are written (`-s`).
    pub quiet: bool,
    /// Whether an empty section makes no file (`-z`).
    pub elide: bool,
    /// Whether the line at a cut is left out (`--suppress-matched`).
    pub suppress: bool,
    /// Whether the cut of a pattern may stand one line past the last.
    pub one_past: bool,
}

impl Model for Style {
    ghost use Rattle.std.specs.Prelude.{string_bytes};
    ghost use Rattle.operand_core.specs.Style.{Style as Asked};

    ghost Value = { Asked };

    ghost view = { λ s. record {
      prefix = string_bytes s.prefix;
      form = s.form;
      ending = string_bytes s.ending;
      keep = s.keep;
      quiet = s.quiet;
      elide = s.elide;
      suppress = s.suppress;
      one_past = s.one_past;
    } };
}

impl Style {
    /// The same style, with texts of its own, for which it takes memory.
    ///
    /// # Errors
    ///
    /// `AllocError` if there is no memory for the texts.
    pub fn try_clone(&self, alloc: Global) -> Result<Style, AllocError>
        ensures { IfOk result (λ style. style ≡ self.now) }
    {
        Ok(Style {
            prefix: String::from_str(alloc, &self.prefix)?,
            form: self.form,
            ending: String::from_str(alloc, &self.ending)?,
            keep: self.keep,
            quiet: self.quiet,
            elide: self.elide,
            suppress: self.suppress,
            one_past: self.one_past,
        })
    }
}

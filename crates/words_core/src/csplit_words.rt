//! What `csplit` is asked for: POSIX.1-2017, XCU csplit; `-b`, `-z` and `--suppress-matched` are GNU's.
ghost use Rattle.std.specs.Prelude.{◌≡◌, map, IfOk, IfErr};
ghost use Rattle.words_core.specs.{
  CsplitWords.{HasBadOperand, HasRead, chosen_by, csplit_by, csplit_asked, format_or, plain, style_of},
  inner.Choice.options_seen,
  Format.format_seen,
  Given.option_seen,
  Spelling.IsRefused,
  Choice.seen,
};

use crate::choice::Choice;
use crate::csplit_settings::{CsplitSettings, read_settings};
use crate::format::{Format, push_plain};
use crate::spelled::{Chosen, Spelled};
use operand_core::Style;
use ports_core::{Base, Calling, Fault, Filling, Form, UsageKind};
use std::alloc::Global;

/// What the options of `csplit` ask for: how files are made.
#[derive(Drop)]
struct CsplitOptions<'a> {
    /// What names begin with.
    prefix: &'a str,
    /// How many digits names have at least.
    digits: u8,
    /// The format of names, which says itself how many digits there are.
    format: Option<Format<'a>>,
    /// Whether files are kept after a fault.
    keep: bool,
    /// Whether no sizes are written.
    quiet: bool,
    /// Whether an empty section makes no file.
    elide: bool,
    /// Whether the line at a cut is left out.
    suppress: bool,
}

/// What is asked for without options.
fn plain<'a>() -> CsplitOptions<'a>
    ensures { options_seen result ≡ plain }
{
    CsplitOptions {
        prefix: "xx",
        digits: 2,
        format: None,
        keep: false,
        quiet: false,
        elide: false,
        suppress: false,
    }
}

impl<'a> CsplitOptions<'a> {
    /// Takes in what one more option asks for.
    fn take(&mut self, choice: Choice<'a>)
        ensures { options_seen self.new ≡ csplit_by (options_seen self.old) (seen choice.entry) }
    {
        match choice {
            Choice::Prefix(prefix) => self.prefix = prefix,
            Choice::Width(digits) => self.digits = digits,
            Choice::Format(format) => self.format = Some(format),
            Choice::KeepFiles => self.keep = true,
            Choice::Quiet => self.quiet = true,
            Choice::ElideEmptyFiles => self.elide = true,
            Choice::SuppressMatched => self.suppress = true,
            _ => {}
        }
    }

    /// The format of names; without a given format, a number in decimal, filled with zeros to its digits.
    fn names(&self) -> Format<'a>
        ensures { format_seen result ≡ format_or self.now.digits (options_seen self.now).format }
    {
        if let Some(format) = self.format {
            return format;
        }
        let form = Form {
            base: Base::Decimal,
            is_marked: false,
            width: 0,
            filling: Filling::BlanksBefore,
            precision: self.digits.max(1),
        };
        Format {
            before: "",
            form,
            after: "",
        }
    }
}

/// What words ask of `csplit`. This takes memory for the operands, and for what names have
/// before and after their numbers.
///
/// # Errors
///
/// `Usage`: `MissingOperand` at word 0 if there is no file, or no operand but the file; otherwise the first operand
/// that is wrong, at the place of its word. `Memory` if there is no room.
pub fn settle_csplit<'a>(
    alloc: Global,
    calling: Calling,
    spelled: &Spelled<'a>,
) -> Result<CsplitSettings<'a>, Fault>
    ensures ok { IfOk result (λ settings. csplit_asked calling spelled.now ≡ Ok settings) }
    ensures err { IfErr result (IsRefused HasBadOperand (csplit_asked calling spelled.now)) }
    ensures operands { IfOk result HasRead }
{
    match spelled.operands.as_slice() {
        [file, operands @ ..] if !operands.is_empty() => {
            let style = choose_style(alloc, &spelled.options)?;
            read_settings(alloc, calling, style, file.text, operands)
        }
        _ => Err(Fault::Usage(UsageKind::MissingOperand, 0)),
    }
}

/// How files are made, as all options ask for it.
///
/// # Errors
///
/// `Memory` if there is no room for what names have before and after their numbers.
fn choose_style(alloc: Global, options: &[Chosen<'_>]) -> Result<Style, Fault>
    ensures ok { IfOk result (λ style. style ≡ style_of (map option_seen options.now)) }
    ensures err { IfErr result (λ fault. fault ≡ Fault.Memory) }
{
    let asked = choose_csplit(options);
    let format = asked.names();
    let mut prefix = String::from_str(alloc, asked.prefix)?;
    push_plain(&mut prefix, format.before)?;
    let mut ending = String::new(alloc);
    push_plain(&mut ending, format.after)?;
    Ok(Style {
        prefix,
        form: format.form,
        ending,
        keep: asked.keep,
        quiet: asked.quiet,
        elide: asked.elide,
        suppress: asked.suppress,
        one_past: false,
    })
}

/// What all options ask for.
fn choose_csplit<'a>(options: &[Chosen<'a>]) -> CsplitOptions<'a>
    ensures { options_seen result ≡ chosen_by (map option_seen options.now) }
{
    let mut asked = plain();
    for option in options {
        asked.take(option.choice);
    }
    asked
}

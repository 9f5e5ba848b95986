ghost use Rattle.std.specs.Prelude.{map, IfErr};
ghost use Rattle.words_core.specs.{Spelling.IsRefused, Words.{HasBadOperands, settings_of}};

use ports_core::{Calling, Fault};
use std::alloc::Global;
use words_core::read_words;

/// Whether words ask to follow files.
pub(crate) fn follows_files(alloc: Global, words: &[&str]) -> Result<bool, Fault>
    ensures err { IfErr result (IsRefused HasBadOperands
        (settings_of Calling.Cutters (map (λ word. word.now) words.now))) }
{
    match read_words(alloc, words) {
        Ok(settings) => Ok(settings.follows(Calling::Cutters, false)),
        Err(fault) => Err(fault),
    }
}

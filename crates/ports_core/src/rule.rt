//! What a tool that is called by its own name says, in words, of a rule that a word breaks.
ghost use Rattle.std.specs.Prelude.{◌≡◌};
ghost use Rattle.ports_core.specs.Rule.{operand_rule, pattern_rule, value_rule};

use crate::UsageKind;

/// What is wrong with an operand that breaks the rule of this number.
pub(crate) fn operand_rule(rule: u8) -> &'static [u8]
    ensures { result.now ≡ operand_rule rule }
{
    match rule {
        2 => b"no closing delimiter",
        3 => b"offset is no number up to 9223372036854775807",
        4 => b"line number is zero",
        5 => b"nothing to repeat",
        6 => b"repetition is neither {NUMBER}, up to 9223372036854775807, nor {*}",
        8 => b"line number is smaller than the one before it",
        10 => b"neither a pattern nor a line number up to 9223372036854775807",
        _ => b"invalid",
    }
}

/// What is wrong with a pattern that breaks the rule of this number.
pub(crate) fn pattern_rule(rule: u8) -> &'static [u8]
    ensures { result.now ≡ pattern_rule rule }
{
    match rule {
        1 => b"empty pattern",
        2 => b"back-reference",
        3 => b"unknown escape",
        4 => b"\\( is not closed",
        5 => b"\\) closes nothing",
        6 => b"invalid repetition",
        7 => b"invalid bracket expression",
        8 => b"invalid range",
        9 => b"unknown class",
        _ => b"invalid",
    }
}

/// What is wrong with a whole pattern or with the value of an option, or what values the option can have.
pub(crate) fn value_rule(kind: &UsageKind) -> &'static [u8]
    ensures { result.now ≡ value_rule kind.now }
{
    match kind {
        UsageKind::PatternTooLarge => b": too large",
        UsageKind::BadSeparator => b": one byte, or \\0",
        UsageKind::BadSuffix => b": it has a /",
        UsageKind::BadMode => b": warn, warn-nopipe, exit or exit-nopipe",
        UsageKind::BadFormat => b": one conversion, such as %03d",
        _ => b"",
    }
}

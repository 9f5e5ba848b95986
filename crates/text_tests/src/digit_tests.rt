//! Numbers that have only digits.
use seg_core::count::CountFault;
use seg_core::digits::read_digits;

#[test]
fn reads_digits_alone(rt: HostRuntime) {
    for (text, wanted) in DIGITS {
        assert!(rt; read_digits(text.as_bytes()) == *wanted, "at {text}");
    }
}

const DIGITS: &[(&str, Result<u64, CountFault>)] = &[
    ("0", Ok(0)),
    ("0255", Ok(255)),
    ("9223372036854775807", Ok(9_223_372_036_854_775_807)),
    ("9223372036854775808", Err(CountFault::TooLarge)),
    ("", Err(CountFault::NoDigits)),
    ("+1", Err(CountFault::NoDigits)),
    ("1k", Err(CountFault::NoDigits)),
    ("1 ", Err(CountFault::NoDigits)),
    ("99999999999999999999x", Err(CountFault::NoDigits)),
];

//! Tests of `seg_core`, `bre_core`, `plain_core` and `scan_core`: lines, counts, windows and patterns.
#![tactic(auto)]

#[cfg(test)]
mod count_tests;
#[cfg(test)]
mod digit_tests;
#[cfg(test)]
mod gnu_spelling_tests;
#[cfg(test)]
mod grep_tests;
#[cfg(test)]
mod growth_tests;
#[cfg(test)]
mod line_back_tests;
#[cfg(test)]
mod line_tests;
#[cfg(test)]
mod pages;
#[cfg(test)]
mod parts;
#[cfg(test)]
mod pattern_tests;
#[cfg(test)]
mod scan_tests;
#[cfg(test)]
mod window_tests;

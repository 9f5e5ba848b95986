//! Tests of `words_core`: words of the command line, and the settings that they ask for.
#![tactic(auto)]

#[cfg(test)]
mod asked;
#[cfg(test)]
mod csplit_tests;
#[cfg(test)]
mod growth_tests;
#[cfg(test)]
mod many_tests;
#[cfg(test)]
mod pages;
#[cfg(test)]
mod refused;
#[cfg(test)]
mod short_tests;
#[cfg(test)]
mod spelling_tests;
#[cfg(test)]
mod split_refused_tests;
#[cfg(test)]
mod split_tests;
#[cfg(test)]
mod tail_tests;
#[cfg(test)]
mod tee_tests;
#[cfg(test)]
mod zero_tests;

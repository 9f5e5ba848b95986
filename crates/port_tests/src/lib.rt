//! Tests of `ports_core` and `watch_core`, and of the names that `engine_core` draws: inputs, outputs, texts and watches.
#![tactic(auto)]

#[cfg(test)]
mod compare;
#[cfg(test)]
mod dir_steps;
#[cfg(test)]
mod dir_tests;
#[cfg(test)]
mod dir_watch_steps;
#[cfg(test)]
mod dir_watch_tests;
#[cfg(test)]
mod folder;
#[cfg(test)]
mod growth_tests;
#[cfg(test)]
mod memory_tests;
#[cfg(test)]
mod name_tests;
#[cfg(test)]
mod pages;
#[cfg(test)]
mod reading;
#[cfg(test)]
mod seek_tests;
#[cfg(test)]
mod standard_input_tests;
#[cfg(test)]
mod watch_tests;
#[cfg(test)]
mod writing;

//! Tests of whole runs: `tools_core` over memory, and callers that rest on `promises_core`.
#![tactic(auto)]

#[cfg(test)]
mod about_tests;
#[cfg(test)]
mod args_tests;
#[cfg(test)]
mod csplit_run_tests;
#[cfg(test)]
mod ends_tests;
#[cfg(test)]
mod example_tests;
#[cfg(test)]
mod failing_watch_tests;
#[cfg(test)]
mod follow_tests;
#[cfg(test)]
mod followed_input_tests;
#[cfg(test)]
mod growth_tests;
#[cfg(test)]
mod law_calls;
#[cfg(test)]
mod law_tests;
#[cfg(test)]
mod left;
#[cfg(test)]
mod own_name_tests;
#[cfg(test)]
mod pages;
#[cfg(test)]
mod refused_tests;
#[cfg(test)]
mod row_tests;
#[cfg(test)]
mod shown_tests;
#[cfg(test)]
mod split_run_tests;
#[cfg(test)]
mod tee_tests;
#[cfg(test)]
mod tests;
#[cfg(test)]
mod words_told_tests;

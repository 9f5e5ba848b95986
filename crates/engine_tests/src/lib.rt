//! Tests of the engines: `ends_core`, `split_core`, `csplit_core`, `tee_core` and `follow_core`.
#![tactic(auto)]

#[cfg(test)]
mod chunk_tests;
#[cfg(test)]
mod chunks_plain;
#[cfg(test)]
mod chunks_plain_tests;
#[cfg(test)]
mod csplit_plain;
#[cfg(test)]
mod csplit_plain_tests;
#[cfg(test)]
mod csplit_tests;
#[cfg(test)]
mod ends_plain;
#[cfg(test)]
mod ends_plain_tests;
#[cfg(test)]
mod ends_tests;
#[cfg(test)]
mod follow_tests;
#[cfg(test)]
mod growth_tests;
#[cfg(test)]
mod load_tests;
#[cfg(test)]
mod operand_tests;
#[cfg(test)]
mod pages;
#[cfg(test)]
mod part_plain;
#[cfg(test)]
mod part_tests;
#[cfg(test)]
mod play;
#[cfg(test)]
mod round_plain;
#[cfg(test)]
mod round_tests;
#[cfg(test)]
mod shown_tests;
#[cfg(test)]
mod tee_gone_tests;
#[cfg(test)]
mod tee_tests;
#[cfg(test)]
mod test_texts;
#[cfg(test)]
mod told_tests;

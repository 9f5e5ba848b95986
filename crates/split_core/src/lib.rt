//! The tool that cuts an input into files: `split`.
#![tactic(auto)]

mod chunk_cut;
mod chunk_cutter;
mod chunk_laws;
mod chunk_sink;
mod chunker;
mod complete_lines;
mod deal;
mod files;
mod gathered;
mod laws;
mod parts;
mod round_files;
mod round_splitter;
mod splitter;
mod step;
mod turn;
mod waiting;

pub use chunk_laws::{
    chunks_agree, chunks_are_even, empty_chunks_are_left_out, lines_are_of_chunk_files,
    one_chunk_is_complete, one_chunk_is_its_file, other_lengths_are_changes,
};
pub use laws::{
    agreed_is_settled, all_files_have_names, line_byte_parts, lines_are_dealt,
    lines_are_of_opened_files, parts_are_runs, parts_go_on,
};
pub use seg_core::cut::{Chunks, Cut, Limit, Way};
pub use splitter::Splitter;
pub use turn::Turn;

//! The edge of the tools: where their bytes come from and go to, the faults that they can meet there, and the texts
//! that they print.
#![tactic(auto)]

mod ahead;
mod alphabet;
mod calling;
mod clock;
mod dir_in;
mod dir_out;
mod dir_slot;
mod dir_stream;
mod fault;
mod form;
mod input_files;
mod input_place;
mod inputs;
mod laws;
mod length;
mod messages;
mod naming;
mod numbering;
mod on_broken;
mod outs;
mod pipe_links;
mod process_state;
mod readers;
mod reason;
mod rule;
mod slot;
mod slots;
mod standard_input;
mod text;
mod tool;
mod verdict;
mod whole;

pub use alphabet::Alphabet;
pub use calling::{Calling, Speaker};
pub use clock::time_of;
pub use dir_in::DirIn;
pub use dir_out::DirOut;
pub use fault::{Fault, UsageKind};
pub use form::{Base, Filling, Form};
pub use input_files::{InputFiles, id_of};
pub use input_place::standard_input_place;
pub use inputs::{Inputs, STANDARD_INPUT, pass_over};
pub use laws::{digits_fill_with_zeros, names_are_in_order, no_name_is_given_twice};
pub use length::{MOST_BYTES, PIECE, fed_with};
pub use messages::{print, say, say_line, tell};
pub use naming::{Naming, numbered};
pub use numbering::Numbering;
pub use on_broken::OnBroken;
pub use outs::Outs;
pub use reason::Reason;
pub use slot::{Mode, State};
pub use slots::{Slots, Unopened};
pub use text::{
    header, is_quiet, memory_exhausted, message, message_for, refusal_for, write_quoted,
};
pub use tool::Tool;
pub use verdict::Verdict;
pub use whole::{WriteCut, write_whole};

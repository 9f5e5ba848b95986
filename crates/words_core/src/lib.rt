//! The words of the command line: what they ask of each tool, or what is wrong with them (POSIX.1-2017, XBD 12).
#![tactic(auto)]

mod args;
mod choice;
mod csplit_settings;
mod csplit_words;
mod division;
mod ends_words;
mod format;
mod help;
mod laws;
mod lettered;
mod refusal;
mod settings;
mod spelled;
mod spelling;
mod split_words;
mod table;
mod tail_words;
mod tee_words;
mod value;
mod words;

pub use args::{Args, ArgsFault, Arguments, read_args};
pub use choice::{Choice, Kind};
pub use csplit_settings::CsplitSettings;
pub use division::{Dealing, Division};
pub use ends_words::{EndsSettings, has_headers, is_minus, is_plus};
pub use format::{Format, read_format};
pub use help::text_about;
pub use laws::{
    beginnings_are_of_one_option, callings_mean_the_same, csplit_options_ask, ends_options_ask,
    last_of_csplit_decides, last_of_ends_decides, last_of_split_decides, last_of_tail_decides,
    last_of_tee_decides, leftmost_fault_decides, letters_ask, letters_stand_together,
    letters_take_no_option_away, names_mean_the_same, number_comes_first, numbers_ask,
    numbers_keep_their_width, one_way_at_most, operands_follow_the_end, operands_keep_their_order,
    operands_may_mix, options_stand_anywhere, reading_ends, some_have_no_effect, split_options_ask,
    starts_ask, tail_options_ask, tee_options_ask, values_are_spelled_alike,
    values_may_be_cut_short, words_are_the_arguments,
};
pub use refusal::detail_of;
pub use settings::{Headers, Settings, Topic};
pub use spelled::{Chosen, Operand, Spelled};
pub use spelling::read_given;
pub use split_words::SplitSettings;
pub use table::{Letters, OptionRow, Takes, ToolRow, all_tools, find_row};
pub use tail_words::TailSettings;
pub use tee_words::TeeSettings;
pub use value::{Followed, MOST_LOOKS};
pub use words::{find_tool, read_words, read_words_as};

//! `tail` that follows files: what it writes and says of names that are watched.
#![tactic(auto)]

mod follow;
mod laws;
mod name;
mod notice;
mod printer;
mod run;
mod start;
mod title;
mod visitor;

pub use follow::{Follow, Phase};
pub use laws::{
    calls_find_the_share, first_files_stay, forgiven_names_stay, looks_agree,
    missing_names_are_dropped, notices_are_no_failures, one_look_more, snapshots_decide,
    text_goes_on,
};
pub use notice::{Notice, notice_line};
pub use run::{Limits, Method, follow_files};
pub use start::Start;

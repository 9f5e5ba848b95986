//! What people rest on, as laws of runs of the tools.
#![tactic(auto)]

mod promises;

pub use promises::{
    csplit_loses_nothing, cutting_changes_nothing, faults_leave_a_beginning, head_and_tail_meet,
    program_makes_these_runs, split_loses_nothing, tail_follows, tee_copies,
};

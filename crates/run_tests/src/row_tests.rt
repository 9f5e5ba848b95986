//! The rows of other modules that say all of a run: what it is given, and what it is to leave.
use crate::left::{Run, check_runs, check_twice};
use crate::{
    about_tests, csplit_run_tests, ends_tests, example_tests, split_run_tests, tee_tests, tests,
};
use std::alloc::Global;
use std::process::Abort;
use std::test::Fail;

#[test]
fn refused_help_leaves_its_rows(rt: HostRuntime) -> Result<(), Fail> {
    check_runs(&rt, rt.alloc(), about_tests::REFUSED)
}

#[test]
fn inputs_of_csplit_leave_their_rows(rt: HostRuntime) -> Result<(), Fail> {
    check_runs(&rt, rt.alloc(), csplit_run_tests::INPUTS)
}

#[test]
fn outputs_of_csplit_leave_their_rows(rt: HostRuntime) -> Result<(), Fail> {
    check_runs(&rt, rt.alloc(), csplit_run_tests::OUTPUTS)
}

#[test]
fn failing_heads_and_tails_leave_their_rows(rt: HostRuntime) -> Result<(), Fail> {
    check_runs(&rt, rt.alloc(), ends_tests::FAILING)
}

#[test]
fn broken_examples_leave_their_rows(rt: HostRuntime) -> Result<(), Fail> {
    check_runs(&rt, rt.alloc(), example_tests::BROKEN)
}

#[test]
fn faults_of_chunks_leave_their_rows(rt: HostRuntime) -> Result<(), Fail> {
    check_runs(&rt, rt.alloc(), split_run_tests::CHUNK_FAULTS)
}

#[test]
fn inputs_of_split_leave_their_rows(rt: HostRuntime) -> Result<(), Fail> {
    check_runs(&rt, rt.alloc(), split_run_tests::INPUTS)
}

#[test]
fn outputs_of_split_leave_their_rows(rt: HostRuntime) -> Result<(), Fail> {
    check_runs(&rt, rt.alloc(), split_run_tests::OUTPUTS)
}

#[test]
fn failing_runs_leave_their_rows(rt: HostRuntime) -> Result<(), Fail> {
    check_runs(&rt, rt.alloc(), tests::FAILING)
}

#[test]
fn runs_leave_their_rows_byte_by_byte(rt: HostRuntime) -> Result<(), Fail> {
    for runs in TWICE {
        check_all_twice(&rt, rt.alloc(), runs)?;
    }
    Ok(())
}

/// Inputs come whole, and byte by byte.
const TWICE: &[&[Run<'static>]] = &[
    example_tests::SPLIT,
    example_tests::DECIDED,
    split_run_tests::NAMES,
    tee_tests::BREAKS,
];

fn check_all_twice(rt: &impl Abort, alloc: Global, runs: &[Run<'_>]) -> Result<(), Fail> {
    for run in runs {
        check_twice(rt, alloc, run)?;
    }
    Ok(())
}

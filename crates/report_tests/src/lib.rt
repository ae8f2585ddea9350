//! The tests of report_judge.
#![tactic(auto)]

#[cfg(test)]
mod report_judge_tests;

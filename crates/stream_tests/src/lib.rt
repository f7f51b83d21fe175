//! Tests of the commands' functions with readers and writers that fail.
#![tactic(auto)]

#[cfg(test)]
mod stream_tests;

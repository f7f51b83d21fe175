//! Tests of whole end systems, for properties that no contract states: that a poll finds what was sent, that calls
//! succeed if memory suffices, that threads make progress, and how a run goes on if its networks fail.
#![tactic(auto)]

#[cfg(test)]
mod failing_tests;
#[cfg(test)]
mod gates;
#[cfg(test)]
mod library_call;
#[cfg(test)]
mod order_tests;
#[cfg(test)]
mod parts_tests;
#[cfg(test)]
mod pausing_tests;
#[cfg(test)]
mod rig;
#[cfg(test)]
mod sending_tests;
#[cfg(test)]
mod step_tests;
#[cfg(test)]
mod storm_tests;
#[cfg(test)]
mod testing;
#[cfg(test)]
mod watching_tests;

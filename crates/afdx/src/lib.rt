//! The proved transmitting AFDX end system, for C: the library of `afdx.h`.
#![tactic(auto)]

mod content;
mod judging;
mod opening;
mod reading;
mod script;
mod sending;

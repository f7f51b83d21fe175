//! Laws that receivers, switches and integrators can rely on, laws over runs of an emitter, which the contracts of its
//! calls imply together, and laws on the meaning of a judge's findings. This crate builds no receiver and no switch:
//! specs/ defines them for the statements. Each function is empty, or has the calls that its law is about.
#![tactic(auto)]

pub mod findings;
pub mod polling;
pub mod receivers;
pub mod runs;
pub mod switching;

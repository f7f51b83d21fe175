//! Legal transmission, defined over the bytes that were sent to two networks. To check the main theorem, read this
//! crate and what it depends on.
#![tactic(auto)]

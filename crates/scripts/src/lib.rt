//! Scripts: a text of lines, each of which chooses, fills, turns or asks a labelling or an operation, and the listing of what was done.
//!
//! `playing::run` plays a whole script; an `Entry` and a `Failure` print themselves.

#![tactic(auto)]

pub mod any_labelling;
pub mod any_operation;
pub mod chosen;
pub mod command;
pub mod entry;
pub mod grid;
pub mod kinds;
pub mod listing;
mod obeying;
pub mod playing;
mod reading;
pub mod reply;
pub mod session;
mod showing;
pub mod usage;

//! Tests of the page engine. It has no code of its own, and nothing stands on it.
#![tactic(auto)]

mod by_hand;
mod commits;
mod hand_pages;
mod leaves;
mod log;
mod plans;
mod pool;
mod room;
mod seats;
mod workers;

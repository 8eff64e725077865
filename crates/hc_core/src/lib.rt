//! The transaction machine: what a snapshot sees, when a put meets another, what a check finds, and who wins a
//! commit number.
//!
//! `Core::step` answers each event by one table (`specs/Machine.antt`), and changes nothing where an event is not
//! enabled or memory is missing. After any events of any connections in any order the machine is sound (`laws`).
//! Contracts see of it the log and the account of each connection, which is its events with their answers, the
//! newest first. Accounts are not kept at run time.
#![tactic(auto)]

mod account;
mod base;
mod cell_map;
mod cells;
mod commit;
mod conn;
mod copying;
mod cut_desk;
mod desk;
mod diary;
mod enabled;
mod event;
mod event_machine;
pub mod examples;
pub mod laws;
mod list_desk;
mod log;
mod machine;
mod outcome;
mod reading;
mod running;
mod said;
mod stop;
mod write_set;
mod writers;

pub use account::{Account, Entry};
pub use cells::{Cell, Part, Write};
pub use cut_desk::CutDesk;
pub use desk::Desk;
pub use event::Event;
pub use event_machine::EventMachine;
pub use hc_range::NoMemory;
pub use list_desk::ListDesk;
pub use machine::Core;
pub use outcome::{Lost, Met, Outcome};
pub use stop::{Next, ReserveFault};

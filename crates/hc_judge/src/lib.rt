//! The judge of runs: what scripts and transcripts are, by the parts of a right run of `hc_meaning`.
//!
//! `find_transactions` decides the first two parts, form and cut, which look into no statement. `turn` reads
//! one reply, `cutting` walks over a transcript, and `pairing` goes over all of them.
//! `laws` states what follows from a right run at any language.
#![tactic(auto)]

mod cutting;
mod front;
pub mod laws;
mod pairing;
mod shown;
mod turn;

pub use cutting::cut;
pub use front::{Front, find_transactions};
pub use pairing::{Pair, cut_all, pairs};
pub use shown::{Part, Script, Shown};
pub use turn::{Closing, Told, Turn, What, make_turn};

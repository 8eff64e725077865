//! The one rule over all words of the engine's table and the views of its seats, with a law for each kind of step.
//!
//! A seat's view says what its owner knows; no code makes one. The rule holds between any two steps of any seats. It is a
//! record of parts, each over the words and the fields of views that it reads (`specs/Rule.antt`), and each kind of step
//! has a law that it keeps the rule (`proofs/Kept`).
#![tactic(auto)]

mod rule;
mod view;

pub use rule::Rule;
pub use view::{Claim, Claimed, Found, Role, Row, SeenPlace, SeenWord, Told, View};

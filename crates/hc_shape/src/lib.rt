//! The shape of a tree, and what each change of a page makes of it.
//!
//! Definitions and laws over contents, and no code that runs: which number of a level has a key and how a cut changes
//! that (`specs/Leaves.antt`), what the entries of a leaf have for each key and how a put and an unput change that
//! (`specs/Versions.antt`), where a content with one entry more than fits is cut (`specs/Halves.antt`), what each plan
//! makes of contents (`specs/Plans.antt`), what holds of the pages of all numbers together (`specs/Shape.antt`), and what
//! each step makes of that (`specs/Changes.antt`).
#![tactic(auto)]

pub mod laws;

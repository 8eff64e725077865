//! Laws of bound expressions: the class of their values, and the columns that they read. No code runs here.
#![tactic(auto)]

pub mod laws;

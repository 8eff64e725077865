//! Tests of the public functions of the crates of text and bytes. No crate uses this one.
#![tactic(auto)]

#[cfg(test)]
mod key;
#[cfg(test)]
mod lex;
#[cfg(test)]
mod made;
#[cfg(test)]
mod range;
#[cfg(test)]
mod record;
#[cfg(test)]
mod text;
#[cfg(test)]
mod value;

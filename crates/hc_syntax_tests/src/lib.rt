//! Tests of the public functions of trees and of the parser. No crate uses this one.
#![tactic(auto)]

#[cfg(test)]
mod ast;
#[cfg(test)]
mod parse;

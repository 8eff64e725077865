use crate::Write;

/// A committed transaction: an entry of the log, with what it put.
#[derive(Debug, Drop)]
pub struct Commit {
    pub tid: u32,
    pub conn: u32,
    pub ord: u32,
    pub writes: Vec<Write>,
}

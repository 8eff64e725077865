/// Which lines may come next in an output.
#[derive(Clone, Copy, Debug)]
pub struct Allowed {
    /// The line of a connection.
    pub conn: bool,
    /// A row or the last line of a reply.
    pub reply: bool,
    /// An ending.
    pub ending: bool,
}

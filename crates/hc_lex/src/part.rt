/// What a byte of a script belongs to.
#[derive(Clone, Copy, Debug)]
pub enum Part {
    /// A space or a comment.
    Blank,
    /// A statement.
    Statement,
    /// The `;` that ends a statement.
    Separator,
}

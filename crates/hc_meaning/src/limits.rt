/// The most bytes that an input may have.
pub const MAX_INPUT: usize = 16_777_216;

/// The most statements that an input may have.
pub const MAX_STATEMENTS: usize = 65_535;

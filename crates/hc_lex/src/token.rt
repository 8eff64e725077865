use crate::Keyword;

/// What a token is. Each sign has a kind of its own, also where two mean the same.
#[derive(Clone, Copy, Debug, PartialEq, Eq)]
pub enum TokenKind {
    /// A name without quotes that is no keyword.
    Name,
    /// A name in `"`, also where a keyword is in the quotes.
    QuotedName,
    /// A keyword, in letters of either case.
    Keyword(Keyword),
    /// Decimal digits with their value, at most 9223372036854775808.
    Integer(u64),
    /// A text in `'`.
    Text,
    /// `X'..'` or `x'..'`.
    Blob,
    /// `(`
    LeftParen,
    /// `)`
    RightParen,
    /// `,`
    Comma,
    /// `.`
    Dot,
    /// `+`
    Plus,
    /// `-`
    Minus,
    /// `*`
    Star,
    /// `/`
    Slash,
    /// `%`
    Percent,
    /// `=`
    Equal,
    /// `==`
    DoubleEqual,
    /// `<`
    Less,
    /// `<=`
    LessEqual,
    /// `>`
    Greater,
    /// `>=`
    GreaterEqual,
    /// `<>`
    LessGreater,
    /// `!=`
    NotEqual,
    /// `||`
    DoubleBar,
    /// `;`
    Semicolon,
}

/// A token and the bytes of the text that it is: from `from` up to, and without, `to`.
#[derive(Clone, Copy, Debug, PartialEq, Eq)]
pub struct Token {
    /// What it is.
    pub kind: TokenKind,
    /// The place of its first byte.
    pub from: u32,
    /// The place after its last byte.
    pub to: u32,
}

// The keywords, and how a word is looked up among them.
ghost use Rattle.std.specs.Prelude.{◌≡◌, map};
ghost use Rattle.hc_lex.specs.Keywords.{Rises, keyword_of, lookup, word_cmp};

use std::cmp::Ordering;

/// A word that is no plain name, in letters of either case.
#[derive(Clone, Copy, Debug, PartialEq, Eq)]
pub enum Keyword {
    And,
    As,
    Begin,
    Between,
    Blob,
    By,
    Commit,
    Concurrent,
    Create,
    Cross,
    Deferred,
    Delete,
    Distinct,
    Drop,
    End,
    Exists,
    From,
    Group,
    Having,
    If,
    In,
    Index,
    Inner,
    Insert,
    Integer,
    Into,
    Is,
    Join,
    Key,
    Like,
    Limit,
    Not,
    Null,
    Offset,
    On,
    Or,
    Order,
    Primary,
    Release,
    Rollback,
    Savepoint,
    Select,
    Set,
    Strict,
    Table,
    Text,
    To,
    Transaction,
    Unique,
    Update,
    Values,
    Where,
}

const TABLE: [(&[u8], Keyword); 52] = [
    (b"AND", Keyword::And),
    (b"AS", Keyword::As),
    (b"BEGIN", Keyword::Begin),
    (b"BETWEEN", Keyword::Between),
    (b"BLOB", Keyword::Blob),
    (b"BY", Keyword::By),
    (b"COMMIT", Keyword::Commit),
    (b"CONCURRENT", Keyword::Concurrent),
    (b"CREATE", Keyword::Create),
    (b"CROSS", Keyword::Cross),
    (b"DEFERRED", Keyword::Deferred),
    (b"DELETE", Keyword::Delete),
    (b"DISTINCT", Keyword::Distinct),
    (b"DROP", Keyword::Drop),
    (b"END", Keyword::End),
    (b"EXISTS", Keyword::Exists),
    (b"FROM", Keyword::From),
    (b"GROUP", Keyword::Group),
    (b"HAVING", Keyword::Having),
    (b"IF", Keyword::If),
    (b"IN", Keyword::In),
    (b"INDEX", Keyword::Index),
    (b"INNER", Keyword::Inner),
    (b"INSERT", Keyword::Insert),
    (b"INTEGER", Keyword::Integer),
    (b"INTO", Keyword::Into),
    (b"IS", Keyword::Is),
    (b"JOIN", Keyword::Join),
    (b"KEY", Keyword::Key),
    (b"LIKE", Keyword::Like),
    (b"LIMIT", Keyword::Limit),
    (b"NOT", Keyword::Not),
    (b"NULL", Keyword::Null),
    (b"OFFSET", Keyword::Offset),
    (b"ON", Keyword::On),
    (b"OR", Keyword::Or),
    (b"ORDER", Keyword::Order),
    (b"PRIMARY", Keyword::Primary),
    (b"RELEASE", Keyword::Release),
    (b"ROLLBACK", Keyword::Rollback),
    (b"SAVEPOINT", Keyword::Savepoint),
    (b"SELECT", Keyword::Select),
    (b"SET", Keyword::Set),
    (b"STRICT", Keyword::Strict),
    (b"TABLE", Keyword::Table),
    (b"TEXT", Keyword::Text),
    (b"TO", Keyword::To),
    (b"TRANSACTION", Keyword::Transaction),
    (b"UNIQUE", Keyword::Unique),
    (b"UPDATE", Keyword::Update),
    (b"VALUES", Keyword::Values),
    (b"WHERE", Keyword::Where),
];

/// The keyword that a word is.
pub fn keyword_of(word: &[u8]) -> Option<Keyword>
    ensures { result ≡ keyword_of word.now }
{
    look_up(&TABLE, word)
}

// The keyword beside a word in a table whose words rise, by halving it.
fn look_up(table: &[(&[u8], Keyword)], word: &[u8]) -> Option<Keyword>
    requires { Rises (map (λ k. (k.0.now, k.1)) table.now) }
    ensures { result ≡ lookup (map (λ k. (k.0.now, k.1)) table.now) word.now }
{
    let (before, rest) = table.split_at(table.len() / 2);
    let Some((entry, after)) = rest.split_first() else {
        return None;
    };
    match compare_words(word, entry.0) {
        Ordering::Less => look_up(before, word),
        Ordering::Equal => Some(entry.1),
        Ordering::Greater => look_up(after, word),
    }
}

// How words compare, where ASCII letters of either case are the same.
fn compare_words(one: &[u8], other: &[u8]) -> Ordering
    ensures { result ≡ word_cmp one.now other.now }
{
    let other = other.iter().map(|b| b.to_ascii_lowercase());
    one.iter().map(|b| b.to_ascii_lowercase()).cmp(other)
}

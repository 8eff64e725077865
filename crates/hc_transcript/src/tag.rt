// The tag of a line: the words with which it opens. The tags are told apart by the fields that follow the words.
ghost use Rattle.std.specs.Prelude.{◌≡◌};
ghost use Rattle.hc_transcript.specs.Words.{ending_words, bare_words, number_words, name_words, names_words, numbers_words, refusal_words, words_between, tag_words};

use hc_lex::LexKind;

/// Lines that tell how a transaction ended, with a number of commits.
#[derive(Debug, Clone, Copy, PartialEq, Eq)]
pub enum EndingTag {
    Commit,
    Snapshot,
    RolledBack,
}

/// Refusals without fields.
#[derive(Debug, Clone, Copy, PartialEq, Eq)]
pub enum BareTag {
    Within,
    NoTransaction,
    TwoKeys,
    Mixed,
    Aggregate,
    NotItem,
    Overflow,
    NoMemory,
    Trees,
}

/// Refusals with one number of 32 bits: a place, or a limit.
#[derive(Debug, Clone, Copy, PartialEq, Eq)]
pub enum NumberTag {
    Lex(LexKind),
    Syntax,
    TooDeep,
    Numbers,
    Transactions,
}

/// Refusals with a name.
#[derive(Debug, Clone, Copy, PartialEq, Eq)]
pub enum NameTag {
    NoSavepoint,
    NoTable,
    NoIndex,
    Exists,
    Reserved,
    TwoColumns,
    TooManyColumns,
    NoColumn,
    Ambiguous,
    NoFunction,
    Rowid,
}

/// Refusals with two names.
#[derive(Debug, Clone, Copy, PartialEq, Eq)]
pub enum NamesTag {
    NotNull,
    Primary,
    Unique,
}

/// Refusals with two numbers of 32 bits.
#[derive(Debug, Clone, Copy, PartialEq, Eq)]
pub enum NumbersTag {
    Arity,
    Pages,
}

/// The tags of refusals.
#[derive(Debug, Clone, Copy, PartialEq, Eq)]
pub enum RefusalTag {
    Bare(BareTag),
    Number(NumberTag),
    Name(NameTag),
    Names(NamesTag),
    Numbers(NumbersTag),
    NoItem,
    TooBig,
    Busy,
}

/// The tags of all lines.
#[derive(Debug, Clone, Copy, PartialEq, Eq)]
pub enum LineTag {
    Conn,
    Row,
    Ok,
    Ending(EndingTag),
    Refusal(RefusalTag),
}

/// Every tag once. The lines that come most often are the first ones.
pub const LINE_TAGS: [LineTag; 42] = [
    LineTag::Row,
    LineTag::Ok,
    LineTag::Ending(EndingTag::Commit),
    LineTag::Ending(EndingTag::Snapshot),
    LineTag::Ending(EndingTag::RolledBack),
    LineTag::Conn,
    LineTag::Refusal(RefusalTag::Bare(BareTag::Within)),
    LineTag::Refusal(RefusalTag::Bare(BareTag::NoTransaction)),
    LineTag::Refusal(RefusalTag::Bare(BareTag::TwoKeys)),
    LineTag::Refusal(RefusalTag::Bare(BareTag::Mixed)),
    LineTag::Refusal(RefusalTag::Bare(BareTag::Aggregate)),
    LineTag::Refusal(RefusalTag::Bare(BareTag::NotItem)),
    LineTag::Refusal(RefusalTag::Bare(BareTag::Overflow)),
    LineTag::Refusal(RefusalTag::Bare(BareTag::NoMemory)),
    LineTag::Refusal(RefusalTag::Bare(BareTag::Trees)),
    LineTag::Refusal(RefusalTag::Number(NumberTag::Lex(LexKind::Char))),
    LineTag::Refusal(RefusalTag::Number(NumberTag::Lex(LexKind::OpenText))),
    LineTag::Refusal(RefusalTag::Number(NumberTag::Lex(LexKind::BadBlob))),
    LineTag::Refusal(RefusalTag::Number(NumberTag::Lex(LexKind::TooLarge))),
    LineTag::Refusal(RefusalTag::Number(NumberTag::Syntax)),
    LineTag::Refusal(RefusalTag::Number(NumberTag::TooDeep)),
    LineTag::Refusal(RefusalTag::Number(NumberTag::Numbers)),
    LineTag::Refusal(RefusalTag::Number(NumberTag::Transactions)),
    LineTag::Refusal(RefusalTag::Name(NameTag::NoSavepoint)),
    LineTag::Refusal(RefusalTag::Name(NameTag::NoTable)),
    LineTag::Refusal(RefusalTag::Name(NameTag::NoIndex)),
    LineTag::Refusal(RefusalTag::Name(NameTag::Exists)),
    LineTag::Refusal(RefusalTag::Name(NameTag::Reserved)),
    LineTag::Refusal(RefusalTag::Name(NameTag::TwoColumns)),
    LineTag::Refusal(RefusalTag::Name(NameTag::TooManyColumns)),
    LineTag::Refusal(RefusalTag::Name(NameTag::NoColumn)),
    LineTag::Refusal(RefusalTag::Name(NameTag::Ambiguous)),
    LineTag::Refusal(RefusalTag::Name(NameTag::NoFunction)),
    LineTag::Refusal(RefusalTag::Name(NameTag::Rowid)),
    LineTag::Refusal(RefusalTag::Names(NamesTag::NotNull)),
    LineTag::Refusal(RefusalTag::Names(NamesTag::Primary)),
    LineTag::Refusal(RefusalTag::Names(NamesTag::Unique)),
    LineTag::Refusal(RefusalTag::Numbers(NumbersTag::Arity)),
    LineTag::Refusal(RefusalTag::Numbers(NumbersTag::Pages)),
    LineTag::Refusal(RefusalTag::NoItem),
    LineTag::Refusal(RefusalTag::TooBig),
    LineTag::Refusal(RefusalTag::Busy),
];

/// The words of a line.
pub fn tag_words(tag: LineTag) -> &'static [u8]
    ensures { result.now ≡ tag_words tag }
{
    match tag {
        LineTag::Conn => b"conn ",
        LineTag::Row => b"row ",
        LineTag::Ok => b"ok ",
        LineTag::Ending(tag) => ending_words(tag),
        LineTag::Refusal(tag) => refusal_words(tag),
    }
}

fn ending_words(tag: EndingTag) -> &'static [u8]
    ensures { result.now ≡ ending_words tag }
{
    match tag {
        EndingTag::Commit => b"commit ",
        EndingTag::Snapshot => b"snapshot ",
        EndingTag::RolledBack => b"rolled back ",
    }
}

fn refusal_words(tag: RefusalTag) -> &'static [u8]
    ensures { result.now ≡ refusal_words tag }
{
    match tag {
        RefusalTag::Bare(tag) => bare_words(tag),
        RefusalTag::Number(tag) => number_words(tag),
        RefusalTag::Name(tag) => name_words(tag),
        RefusalTag::Names(tag) => names_words(tag),
        RefusalTag::Numbers(tag) => numbers_words(tag),
        RefusalTag::NoItem => b"error 1 no item ",
        RefusalTag::TooBig => b"error 18 ",
        RefusalTag::Busy => b"error 517 conn ",
    }
}

fn bare_words(tag: BareTag) -> &'static [u8]
    ensures { result.now ≡ bare_words tag }
{
    match tag {
        BareTag::Within => b"error 1 within a transaction",
        BareTag::NoTransaction => b"error 1 no transaction",
        BareTag::TwoKeys => b"error 1 two keys",
        BareTag::Mixed => b"error 1 mixed classes",
        BareTag::Aggregate => b"error 1 aggregate",
        BareTag::NotItem => b"error 1 not an item",
        BareTag::Overflow => b"error 1 overflow",
        BareTag::NoMemory => b"error 7",
        BareTag::Trees => b"error 13 trees",
    }
}

fn number_words(tag: NumberTag) -> &'static [u8]
    ensures { result.now ≡ number_words tag }
{
    match tag {
        NumberTag::Lex(LexKind::Char) => b"error 1 lex Char at ",
        NumberTag::Lex(LexKind::OpenText) => b"error 1 lex OpenText at ",
        NumberTag::Lex(LexKind::BadBlob) => b"error 1 lex BadBlob at ",
        NumberTag::Lex(LexKind::TooLarge) => b"error 1 lex TooLarge at ",
        NumberTag::Syntax => b"error 1 syntax at ",
        NumberTag::TooDeep => b"error 1 too deep at ",
        NumberTag::Numbers => b"error 13 numbers ",
        NumberTag::Transactions => b"error 13 transactions ",
    }
}

fn name_words(tag: NameTag) -> &'static [u8]
    ensures { result.now ≡ name_words tag }
{
    match tag {
        NameTag::NoSavepoint => b"error 1 no savepoint ",
        NameTag::NoTable => b"error 1 no table ",
        NameTag::NoIndex => b"error 1 no index ",
        NameTag::Exists => b"error 1 exists ",
        NameTag::Reserved => b"error 1 reserved ",
        NameTag::TwoColumns => b"error 1 two columns ",
        NameTag::TooManyColumns => b"error 1 too many columns ",
        NameTag::NoColumn => b"error 1 no column ",
        NameTag::Ambiguous => b"error 1 ambiguous ",
        NameTag::NoFunction => b"error 1 no function ",
        NameTag::Rowid => b"error 13 rowid ",
    }
}

fn names_words(tag: NamesTag) -> &'static [u8]
    ensures { result.now ≡ names_words tag }
{
    match tag {
        NamesTag::NotNull => b"error 1299 ",
        NamesTag::Primary => b"error 1555 ",
        NamesTag::Unique => b"error 2067 ",
    }
}

fn numbers_words(tag: NumbersTag) -> &'static [u8]
    ensures { result.now ≡ numbers_words tag }
{
    match tag {
        NumbersTag::Arity => b"error 1 arity ",
        NumbersTag::Pages => b"error 13 pages ",
    }
}

/// The words between the two numbers.
pub fn words_between(tag: NumbersTag) -> &'static [u8]
    ensures { result.now ≡ words_between tag }
{
    match tag {
        NumbersTag::Arity => b" of ",
        NumbersTag::Pages => b" floor ",
    }
}

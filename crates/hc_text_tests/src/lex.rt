//! Tests of the public functions of `hc_lex`.
// Expected values were worked out by hand from SQLite's pages on tokens and from the rules of our own.
use hc_lex::{Keyword, LexFault, LexKind, Span, Token, TokenKind, cut, next_token, tokens};
use std::alloc::Global;
use std::process::Abort;
use std::test::Fail;

const GREATEST: u64 = 9_223_372_036_854_775_808;

fn token(kind: TokenKind, from: u32, to: u32) -> Token {
    Token { kind, from, to }
}

fn span(from: u32, to: u32) -> Span {
    Span { from, to }
}

fn expect_tokens(rt: &impl Abort, alloc: Global, text: &str, want: &[Token]) {
    assert!(rt; text.len() < 100);
    match tokens(alloc, text) {
        Ok(found) => assert_eq!(rt; found.as_slice(), want, "in {text:?}"),
        Err(fault) => assert!(rt; false, "{fault:?} in {text:?}"),
    }
}

fn expect_fault(rt: &impl Abort, alloc: Global, text: &str, at: u32, kind: LexKind) {
    assert!(rt; text.len() < 100);
    match tokens(alloc, text) {
        Ok(found) => assert!(rt; false, "{found:?} in {text:?}"),
        Err(fault) => assert_eq!(rt; fault, LexFault::Bad { at, kind }, "in {text:?}"),
    }
}

fn expect_statements(rt: &impl Abort, alloc: Global, text: &str, want: &[Span]) {
    assert!(rt; text.len() < 100);
    match cut(alloc, text) {
        Ok(found) => assert_eq!(rt; found.as_slice(), want, "in {text:?}"),
        Err(_) => assert!(rt; false, "no memory"),
    }
}

#[test]
fn statements_end_outside_literals_names_and_comments(rt: HostRuntime) {
    let alloc = rt.alloc();
    expect_statements(&rt, alloc, "a;;/* x */ b", &[span(0, 1), span(11, 12)]);
    expect_statements(&rt, alloc, "", &[]);
    expect_statements(&rt, alloc, ";; \t;", &[]);
    expect_statements(&rt, alloc, " a b /* c */ ;", &[span(1, 4)]);
    expect_statements(&rt, alloc, "a--;\n;b", &[span(0, 1), span(6, 7)]);
    expect_statements(&rt, alloc, "'a;b';\"c;\"", &[span(0, 5), span(6, 10)]);
    expect_statements(&rt, alloc, "'a''b;';", &[span(0, 7)]);
    expect_statements(&rt, alloc, "x'0;0';y", &[span(0, 6), span(7, 8)]);
    expect_statements(&rt, alloc, "a-b/c", &[span(0, 5)]);
}

#[test]
fn a_script_of_three_statements_has_three_spans(rt: HostRuntime) {
    let want = [span(0, 1), span(2, 3), span(4, 5)];
    expect_statements(&rt, rt.alloc(), "a;b;c", &want);
}

#[test]
fn what_does_not_end_runs_to_the_end_of_the_script(rt: HostRuntime) {
    let alloc = rt.alloc();
    expect_statements(&rt, alloc, "'open; -- ", &[span(0, 10)]);
    expect_statements(&rt, alloc, "a /* x; ", &[span(0, 1)]);
    expect_statements(&rt, alloc, "a /*/ ; b", &[span(0, 1)]);
    expect_statements(&rt, alloc, "/**/b", &[span(4, 5)]);
    expect_statements(&rt, alloc, "a--", &[span(0, 1)]);
}

#[test]
fn a_character_that_begins_no_token_belongs_to_a_statement(rt: HostRuntime) {
    let alloc = rt.alloc();
    expect_statements(&rt, alloc, " # ;", &[span(1, 2)]);
    expect_statements(&rt, alloc, "\u{b};\u{e9}", &[span(0, 1), span(2, 4)]);
}

#[test]
fn names_go_on_with_digits_dollars_and_characters_past_ascii(rt: HostRuntime) {
    let alloc = rt.alloc();
    let name = TokenKind::Name;
    expect_tokens(&rt, alloc, "\u{e9}t\u{e9}", &[token(name, 0, 5)]);
    expect_tokens(&rt, alloc, "\u{feff}a", &[token(name, 0, 4)]);
    expect_tokens(
        &rt,
        alloc,
        "_a$1 x",
        &[token(name, 0, 4), token(name, 5, 6)],
    );
    let parts = [
        token(name, 0, 1),
        token(TokenKind::Dot, 1, 2),
        token(name, 2, 3),
    ];
    expect_tokens(&rt, alloc, "a.b", &parts);
}

#[test]
fn quotes_within_stand_twice(rt: HostRuntime) {
    let alloc = rt.alloc();
    expect_tokens(
        &rt,
        alloc,
        "\"a\"\"b\"",
        &[token(TokenKind::QuotedName, 0, 6)],
    );
    expect_tokens(&rt, alloc, "\"\"", &[token(TokenKind::QuotedName, 0, 2)]);
    expect_tokens(
        &rt,
        alloc,
        "\"select\"",
        &[token(TokenKind::QuotedName, 0, 8)],
    );
    expect_tokens(&rt, alloc, "'it''s'", &[token(TokenKind::Text, 0, 7)]);
    expect_tokens(&rt, alloc, "''''", &[token(TokenKind::Text, 0, 4)]);
    let two = [token(TokenKind::Text, 0, 3), token(TokenKind::Text, 4, 7)];
    expect_tokens(&rt, alloc, "'a' 'b'", &two);
    expect_fault(&rt, alloc, "a 'b''", 2, LexKind::OpenText);
    expect_fault(&rt, alloc, "\"b", 0, LexKind::OpenText);
}

#[test]
fn comments_run_to_their_end_or_that_of_the_text(rt: HostRuntime) {
    let alloc = rt.alloc();
    let name = TokenKind::Name;
    expect_tokens(&rt, alloc, "a--", &[token(name, 0, 1)]);
    expect_tokens(&rt, alloc, "-- x\na", &[token(name, 5, 6)]);
    expect_tokens(&rt, alloc, "/*/ a", &[]);
    expect_tokens(&rt, alloc, "/*", &[]);
    expect_tokens(&rt, alloc, "/***/a/* ' */", &[token(name, 5, 6)]);
    let signs = [token(TokenKind::Minus, 0, 1), token(TokenKind::Slash, 2, 3)];
    expect_tokens(&rt, alloc, "- /", &signs);
}

#[test]
fn blobs_have_pairs_of_digits(rt: HostRuntime) {
    let alloc = rt.alloc();
    expect_tokens(&rt, alloc, "x'0aF9'", &[token(TokenKind::Blob, 0, 7)]);
    expect_tokens(&rt, alloc, "X''", &[token(TokenKind::Blob, 0, 3)]);
    let two = [token(TokenKind::Blob, 0, 5), token(TokenKind::Text, 5, 9)];
    expect_tokens(&rt, alloc, "X'00''11'", &two);
    let apart = [token(TokenKind::Name, 0, 1), token(TokenKind::Text, 2, 4)];
    expect_tokens(&rt, alloc, "x ''", &apart);
    expect_fault(&rt, alloc, "x'0'", 0, LexKind::BadBlob);
    expect_fault(&rt, alloc, " x'0g'", 1, LexKind::BadBlob);
    expect_fault(&rt, alloc, "X'00", 0, LexKind::BadBlob);
}

#[test]
fn numbers_have_a_greatest_and_stand_alone(rt: HostRuntime) {
    let alloc = rt.alloc();
    expect_tokens(&rt, alloc, "007", &[token(TokenKind::Integer(7), 0, 3)]);
    let greatest = [token(TokenKind::Integer(GREATEST), 0, 19)];
    expect_tokens(&rt, alloc, "9223372036854775808", &greatest);
    expect_fault(&rt, alloc, "9223372036854775809", 0, LexKind::TooLarge);
    expect_fault(&rt, alloc, "99999999999999999999.5", 0, LexKind::TooLarge);
    expect_fault(&rt, alloc, "1.5", 1, LexKind::Char);
    expect_fault(&rt, alloc, "1.", 1, LexKind::Char);
    expect_fault(&rt, alloc, "1a", 1, LexKind::Char);
    expect_fault(&rt, alloc, "12$", 2, LexKind::Char);
    expect_fault(&rt, alloc, "1\u{e9}", 1, LexKind::Char);
    let fraction = [
        token(TokenKind::Dot, 0, 1),
        token(TokenKind::Integer(5), 1, 2),
    ];
    expect_tokens(&rt, alloc, ".5", &fraction);
}

#[test]
fn tokens_can_be_read_in_turn(rt: HostRuntime) {
    let text = "a /* x */ 'b'; #";
    let found = [
        (0, Ok(Some(token(TokenKind::Name, 0, 1)))),
        (1, Ok(Some(token(TokenKind::Text, 10, 13)))),
        (13, Ok(Some(token(TokenKind::Semicolon, 13, 14)))),
        (
            14,
            Err(LexFault::Bad {
                at: 15,
                kind: LexKind::Char,
            }),
        ),
        (16, Ok(None)),
    ];
    assert!(rt; text.len() == 16);
    for (from, want) in found {
        assert!(rt; from <= 16);
        assert_eq!(rt; next_token(text, from), want, "from {from}");
    }
}

#[test]
fn faults_have_words(rt: HostRuntime) -> Result<(), Fail> {
    let alloc = rt.alloc();
    let open = LexFault::Bad {
        at: 3,
        kind: LexKind::OpenText,
    };
    let words = format!(in alloc; "{open}")?;
    assert_eq!(rt; words.as_str(), "a quote that is not closed, at byte 3");
    let words = format!(in alloc; "{}", LexFault::NoMemory)?;
    assert_eq!(rt; words.as_str(), "out of memory");
    Ok(())
}

#[test]
fn a_character_of_no_use_is_a_fault(rt: HostRuntime) {
    let alloc = rt.alloc();
    expect_fault(&rt, alloc, "a#", 1, LexKind::Char);
    expect_fault(&rt, alloc, "$a", 0, LexKind::Char);
    expect_fault(&rt, alloc, "a ! b", 2, LexKind::Char);
    expect_fault(&rt, alloc, "a | b", 2, LexKind::Char);
    expect_fault(&rt, alloc, "a \u{b}b", 2, LexKind::Char);
    expect_fault(&rt, alloc, "# 'open", 0, LexKind::Char);
}

#[test]
fn the_longest_sign_is_taken(rt: HostRuntime) {
    let alloc = rt.alloc();
    let single = [
        ("(", TokenKind::LeftParen),
        (")", TokenKind::RightParen),
        (",", TokenKind::Comma),
        (".", TokenKind::Dot),
        ("+", TokenKind::Plus),
        ("-", TokenKind::Minus),
        ("*", TokenKind::Star),
        ("/", TokenKind::Slash),
        ("%", TokenKind::Percent),
        ("=", TokenKind::Equal),
        ("<", TokenKind::Less),
        (">", TokenKind::Greater),
        (";", TokenKind::Semicolon),
    ];
    for (text, kind) in single {
        expect_tokens(&rt, alloc, text, &[token(kind, 0, 1)]);
    }
    let double = [
        ("==", TokenKind::DoubleEqual),
        ("<=", TokenKind::LessEqual),
        (">=", TokenKind::GreaterEqual),
        ("<>", TokenKind::LessGreater),
        ("!=", TokenKind::NotEqual),
        ("||", TokenKind::DoubleBar),
    ];
    for (text, kind) in double {
        expect_tokens(&rt, alloc, text, &[token(kind, 0, 2)]);
    }
    let three = [
        token(TokenKind::LessGreater, 0, 2),
        token(TokenKind::Equal, 2, 3),
        token(TokenKind::DoubleEqual, 4, 6),
    ];
    expect_tokens(&rt, alloc, "<>= ==", &three);
}

#[test]
fn keywords_are_words_in_either_case(rt: HostRuntime) {
    let alloc = rt.alloc();
    let words = [
        ("select", Keyword::Select),
        ("SELECT", Keyword::Select),
        ("Concurrent", Keyword::Concurrent),
        ("nOt", Keyword::Not),
        ("To", Keyword::To),
        ("where", Keyword::Where),
        ("and", Keyword::And),
    ];
    for (text, keyword) in words {
        assert!(rt; text.len() < 100);
        let found = match tokens(alloc, text) {
            Ok(found) => found.get(0).map(|first| first.kind),
            Err(_) => None,
        };
        assert_eq!(rt; found, Some(TokenKind::Keyword(keyword)), "in {text:?}");
    }
    for text in ["asc", "DESC", "count", "selects", "left", "selec"] {
        assert!(rt; text.len() < 100);
        let found = match tokens(alloc, text) {
            Ok(found) => found.get(0).map(|first| first.kind),
            Err(_) => None,
        };
        assert_eq!(rt; found, Some(TokenKind::Name), "in {text:?}");
    }
}

#[test]
fn laws_can_be_called(_rt: HostRuntime) -> Result<(), Fail> {
    hc_lex::laws::a_text_has_one_list_of_tokens();
    hc_lex::laws::a_faulty_text_has_no_tokens();
    hc_lex::laws::a_text_has_one_least_fault();
    hc_lex::laws::a_text_has_one_list_of_statements();
    hc_lex::laws::tokens_lie_in_order();
    hc_lex::laws::statements_lie_in_order();
    hc_lex::laws::tokens_lie_at_characters();
    hc_lex::laws::each_text_has_tokens_or_a_fault();
    hc_lex::laws::each_script_has_statements();
    hc_lex::laws::statements_lie_at_characters();
    hc_lex::laws::statements_are_cut_out();
    hc_lex::laws::read_tokens_come_first();
    hc_lex::laws::tokens_are_joined();
    hc_lex::laws::all_tokens_are_read();
    hc_lex::laws::a_fault_after_tokens_is_of_the_text();
    Ok(())
}

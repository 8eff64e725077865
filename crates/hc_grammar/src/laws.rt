//! Laws of the grammar, each the contract of a function that does nothing.
ghost use Rattle.hc_grammar.specs.Laws.{HasOneStatement, IsOneThing, IsReadAgain, StatementsHaveTheirParts, TokensAreOneThing};

use hc_lex::laws::{
    a_faulty_text_has_no_tokens, a_text_has_one_least_fault, a_text_has_one_list_of_tokens,
    each_text_has_tokens_or_a_fault,
};

/// Whatever the limits are, lexemes are one statement at most, and are marked in one way.
pub fn lexemes_are_one_statement_at_most()
    ensures { HasOneStatement }
{}

/// Tokens are one statement, or have one fault, and not both.
pub fn tokens_are_one_thing()
    ensures { TokensAreOneThing }
{}

/// A text is exactly one of these: a statement, or of a lexical fault, of a syntax fault, or too deep.
pub fn a_text_is_one_thing()
    ensures { IsOneThing }
{
    each_text_has_tokens_or_a_fault();
    a_text_has_one_list_of_tokens();
    a_faulty_text_has_no_tokens();
    a_text_has_one_least_fault();
}

/// A query that tokens are asks for something, and a table that they make has a column.
pub fn statements_have_their_parts()
    ensures { StatementsHaveTheirParts }
{}

/// The canonical text of what tokens are is read again as the same, but for levels.
pub fn canonical_text_is_read_again()
    ensures { IsReadAgain }
{}

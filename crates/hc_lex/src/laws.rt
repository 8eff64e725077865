// What follows from the definitions alone. Each law is the contract of a function that does nothing.
ghost use Rattle.hc_lex.specs.Laws.{AllTokensAreRead, EachScriptHasStatements, EachTextHasTokensOrFault, FaultAfterTokens, HasOneFault, HasOneListOfStatements, HasOneListOfTokens, HasNotTokensAndFault, ReadTokensComeFirst, StatementsAreCutOut, StatementsLieAtCharacters, StatementsLieInOrder, TokensAreJoined, TokensLieAtCharacters, TokensLieInOrder};

/// Whatever the text is, one list of tokens at most is its own.
pub fn a_text_has_one_list_of_tokens()
    ensures { HasOneListOfTokens }
{}

/// A text that has tokens has no fault.
pub fn a_faulty_text_has_no_tokens()
    ensures { HasNotTokensAndFault }
{}

/// A text has one fault of least place at most, of one kind.
pub fn a_text_has_one_least_fault()
    ensures { HasOneFault }
{}

/// Whatever the script is, one list of statements at most is its own.
pub fn a_text_has_one_list_of_statements()
    ensures { HasOneListOfStatements }
{}

/// A text's tokens lie in it, one after another, with a byte each at least.
pub fn tokens_lie_in_order()
    ensures { TokensLieInOrder }
{}

/// A script's statements lie in it, one after another, with a byte each at least.
pub fn statements_lie_in_order()
    ensures { StatementsLieInOrder }
{}

/// A text's tokens begin and end between its characters.
pub fn tokens_lie_at_characters()
    ensures { TokensLieAtCharacters }
{}

/// A script's statements begin and end between its characters.
pub fn statements_lie_at_characters()
    ensures { StatementsLieAtCharacters }
{}

/// Whatever the text is, it has tokens or a fault.
pub fn each_text_has_tokens_or_a_fault()
    ensures { EachTextHasTokensOrFault }
{}

/// Whatever the script is, it has a list of statements.
pub fn each_script_has_statements()
    ensures { EachScriptHasStatements }
{}

/// A statement that `cut` hands on, where its bytes have no lexical fault, has a token, at its first byte, and none
/// of its tokens is a `;`.
pub fn statements_are_cut_out()
    ensures { StatementsAreCutOut }
{}

/// What was read of a text's tokens are its first ones, and the others are after it.
pub fn read_tokens_come_first()
    ensures { ReadTokensComeFirst }
{}

/// Tokens up to a place and those from there on are those of both stretches.
pub fn tokens_are_joined()
    ensures { TokensAreJoined }
{}

/// The tokens from the start of a text to its end are those of the text.
pub fn all_tokens_are_read()
    ensures { AllTokensAreRead }
{}

/// A fault after tokens is the text's.
pub fn a_fault_after_tokens_is_of_the_text()
    ensures { FaultAfterTokens }
{}

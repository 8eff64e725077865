// Expressions, by precedence climbing: an operand costs one call, however many precedences there are.
ghost use Rattle.std.specs.Prelude.{◌≡◌, ◌<◌, ◌≤◌, ◌∷◌, [], ◌^◌, ◌-◌, length, negsuc, true};
ghost use Rattle.hc_ast.specs.declared.expression.Expr.TheVariants as expr;
ghost use Rattle.hc_grammar.specs.Climbing.{begins_negation, climb, is_between, negation, next_precedence, operators_from, tail_at};
ghost use Rattle.hc_grammar.specs.Expressions.{after_name, arguments, expression, primary, test_tail, unary};
ghost use Rattle.hc_grammar.specs.Grammar.{Both, Choice, Level, Made, Negation, Nothing, Signed, Whole, Within, Word};
ghost use Rattle.hc_grammar.specs.Kinds.{among, head_is};
ghost use Rattle.hc_grammar.specs.Marks.{Plain};
ghost use Rattle.hc_grammar.specs.Phrases.{before, listed, name as name_grammar};
ghost use Rattle.hc_grammar.specs.Terminals.{Literal, kinds_of};
ghost use Rattle.hc_parse.specs.Coded.{Gives, from, within};
ghost use Rattle.hc_parse.specs.Seen.{budget_of, left};
ghost use Rattle.hc_parse.specs.Tails.{answer_seen, word_tail_after};

use crate::cursor::{
    Cursor, accept, accept_word, advance, begins, begins_name, begins_word, charge, expect,
    expect_word, open,
};
use crate::list::{finished, first_of};
use crate::names::{read_literal, read_name};
use crate::precedence::{
    CONCATENATION, CONJUNCTION, DISJUNCTION, NEGATION, ORDER, is_between, next_precedence,
    next_sign,
};
use crate::source::Source;
use crate::stop::Stop;
use crate::tails::{Tail, applied, is_or_is_not, joined};
use hc_ast::Expr;
use hc_lex::{Keyword, TokenKind};
use hc_value::{Str, Value};
use sqlite_items::{Boxed, Items};
use std::alloc::Global;

/// How many levels may be open at once.
const LEVELS: u32 = 100;

/// How many operators with two sides an expression may have.
pub const OPERATORS: u32 = 1000;

/// An expression that is part of no other.
pub fn read_expression(
    alloc: Global,
    source: &Source<'_>,
    cursor: &mut Cursor,
) -> Result<Expr, Stop>
    ensures { Gives source.now result cursor.new (from source.now expression cursor.old) }
{
    cursor.operators = OPERATORS;
    read_within(alloc, source, cursor, LEVELS)
}

// An expression, where so many levels may be opened.
#[cycle(expression)]
#[inline(always)]
fn read_within(
    alloc: Global,
    source: &Source<'_>,
    cursor: &mut Cursor,
    levels: u32,
) -> Result<Expr, Stop>
    ensures { Gives source.now result cursor.new (within source.now levels (Within Whole) cursor.old) }
{
    read_operators(alloc, source, cursor, DISJUNCTION, levels)
}

// Operands with operators between them that bind so tightly or more.
#[cycle(expression)]
#[inline(never)]
fn read_operators(
    alloc: Global,
    source: &Source<'_>,
    cursor: &mut Cursor,
    least: u8,
    levels: u32,
) -> Result<Expr, Stop>
    requires least { 0 < least }
    requires most { least < 10 }
    ensures { Gives source.now result cursor.new (within source.now levels (operators_from least) cursor.old) }
{
    if begins_negation(source, cursor, least) {
        let value = read_boxed(alloc, source, cursor, least, levels)?;
        return Ok(value.into_inner());
    }
    let first = read_signed(alloc, source, cursor, levels)?;
    // An operand alone needs no box.
    let precedence = next_precedence(source, cursor);
    if !is_between(least, precedence, CONCATENATION) {
        return Ok(first);
    }
    let first = Boxed::new(alloc, first)?;
    read_sequence(alloc, source, cursor, first, least, precedence, levels)
}

// The operators that follow an operand, of which the first is next. What one operator makes needs no box.
#[cycle(expression)]
#[inline(always)]
fn read_sequence(
    alloc: Global,
    source: &Source<'_>,
    cursor: &mut Cursor,
    first: Boxed<Expr>,
    least: u8,
    precedence: u8,
    levels: u32,
) -> Result<Expr, Stop>
    requires least { 0 < least }
    requires small { precedence < 9 }
    requires next { precedence ≡ next_precedence (left source.now cursor.old) }
    requires between { is_between least precedence 8 ≡ true }
    ensures { Gives source.now result cursor.new (climb levels least (length (left source.now cursor.old)) 8 first (budget_of cursor.old) (left source.now cursor.old)) }
{
    let tail = read_tail(alloc, source, cursor, precedence, levels)?;
    let value = joined(first, tail);
    if !is_between(least, next_precedence(source, cursor), precedence) {
        return Ok(value);
    }
    let value = Boxed::new(alloc, value)?;
    let value = read_tails(alloc, source, cursor, value, least, precedence, levels)?;
    Ok(value.into_inner())
}

// The same in a box.
#[cycle(expression)]
#[inline(never)]
fn read_boxed(
    alloc: Global,
    source: &Source<'_>,
    cursor: &mut Cursor,
    least: u8,
    levels: u32,
) -> Result<Boxed<Expr>, Stop>
    requires least { 0 < least }
    requires most { least < 10 }
    ensures { Gives source.now result cursor.new (within source.now levels (operators_from least) cursor.old) }
{
    if begins_negation(source, cursor, least) {
        let first = read_negated(alloc, source, cursor, levels)?;
        return read_tails(alloc, source, cursor, first, least, CONJUNCTION, levels);
    }
    let first = read_signed(alloc, source, cursor, levels)?;
    let first = Boxed::new(alloc, first)?;
    read_tails(alloc, source, cursor, first, least, CONCATENATION, levels)
}

// Whether NOT is next where an operand may begin with it.
#[inline(always)]
fn begins_negation(source: &Source<'_>, cursor: &Cursor, least: u8) -> bool
    ensures { result ≡ begins_negation least (left source.now cursor.now) }
{
    least <= NEGATION && begins_word(source, cursor, Keyword::Not)
}

// The operators with their right operands that follow a left operand. What binds tighter than the one before cannot
// follow it.
#[cycle(expression)]
#[inline(never)]
fn read_tails(
    alloc: Global,
    source: &Source<'_>,
    cursor: &mut Cursor,
    first: Boxed<Expr>,
    least: u8,
    most: u8,
    levels: u32,
) -> Result<Boxed<Expr>, Stop>
    requires { 0 < least }
    ensures { Gives source.now result cursor.new (climb levels least (length (left source.now cursor.old)) most first (budget_of cursor.old) (left source.now cursor.old)) }
{
    let mut left = first;
    let mut most = most;
    // Each operator is a token.
    'operators: for _ in cursor.at..source.tokens.len() {
        let precedence = next_precedence(source, cursor);
        if !is_between(least, precedence, most) {
            break;
        }
        let tail = read_tail(alloc, source, cursor, precedence, levels)?;
        left = applied(alloc, left, tail)?;
        most = precedence;
    }
    Ok(left)
}

// NOT and its operand.
#[cycle(expression)]
#[inline(never)]
fn read_negated(
    alloc: Global,
    source: &Source<'_>,
    cursor: &mut Cursor,
    levels: u32,
) -> Result<Boxed<Expr>, Stop>
    ensures { Gives source.now result cursor.new (within source.now levels negation cursor.old) }
{
    open(source, cursor, levels, TokenKind::Keyword(Keyword::Not))?;
    let operand = read_negation(alloc, source, cursor, levels - 1)?;
    Ok(Boxed::new(alloc, Expr::Not(operand))?)
}

// The operand of NOT.
#[cycle(expression)]
#[inline(always)]
fn read_negation(
    alloc: Global,
    source: &Source<'_>,
    cursor: &mut Cursor,
    levels: u32,
) -> Result<Boxed<Expr>, Stop>
    ensures { Gives source.now result cursor.new (within source.now levels (Within Negation) cursor.old) }
{
    read_boxed(alloc, source, cursor, NEGATION, levels)
}

// An operator of this precedence with the operands on its right.
#[cycle(expression)]
fn read_tail(
    alloc: Global,
    source: &Source<'_>,
    cursor: &mut Cursor,
    precedence: u8,
    levels: u32,
) -> Result<Tail, Stop>
    requires next { precedence ≡ next_precedence (left source.now cursor.old) }
    requires some { 0 < precedence }
    requires small { precedence < 9 }
    ensures { Gives source.now (answer_seen result) cursor.new (within source.now levels (tail_at precedence) cursor.old) }
{
    charge(cursor)?;
    let Some(op) = next_sign(source, cursor) else {
        return read_word_tail(alloc, source, cursor, levels);
    };
    advance(source, cursor);
    let right = read_boxed(alloc, source, cursor, precedence + 1, levels)?;
    Ok(Tail::Binary(op, right))
}

// IS, or a test with NOT before it or without, of which the operator is taken already.
#[cycle(expression)]
#[inline(never)]
fn read_word_tail(
    alloc: Global,
    source: &Source<'_>,
    cursor: &mut Cursor,
    levels: u32,
) -> Result<Tail, Stop>
    ensures { Gives source.now (answer_seen result) cursor.new (within source.now levels (word_tail_after (operators_from 5)) cursor.old) }
{
    if accept_word(source, cursor, Keyword::Is) {
        let is_not = accept_word(source, cursor, Keyword::Not);
        let right = read_boxed(alloc, source, cursor, ORDER, levels)?;
        return Ok(Tail::Binary(is_or_is_not(is_not), right));
    }
    if accept_word(source, cursor, Keyword::Not) {
        return read_test(alloc, source, cursor, true, levels);
    }
    read_test(alloc, source, cursor, false, levels)
}

// IN, LIKE or BETWEEN.
#[cycle(expression)]
#[inline(never)]
fn read_test(
    alloc: Global,
    source: &Source<'_>,
    cursor: &mut Cursor,
    not: bool,
    levels: u32,
) -> Result<Tail, Stop>
    ensures { Gives source.now (answer_seen result) cursor.new (within source.now levels (test_tail Plain not (operators_from 5)) cursor.old) }
{
    if accept_word(source, cursor, Keyword::In) {
        let list = read_arguments(alloc, source, cursor, levels)?;
        return Ok(Tail::OneOf(not, list));
    }
    if accept_word(source, cursor, Keyword::Like) {
        let pattern = read_boxed(alloc, source, cursor, ORDER, levels)?;
        return Ok(Tail::Like(not, pattern));
    }
    expect_word(source, cursor, Keyword::Between)?;
    let low = read_boxed(alloc, source, cursor, ORDER, levels)?;
    expect_word(source, cursor, Keyword::And)?;
    let high = read_boxed(alloc, source, cursor, ORDER, levels)?;
    Ok(Tail::Between(not, low, high))
}

// A sign and its operand, or an operand without one.
#[cycle(expression)]
fn read_signed(
    alloc: Global,
    source: &Source<'_>,
    cursor: &mut Cursor,
    levels: u32,
) -> Result<Expr, Stop>
    ensures { Gives source.now result cursor.new (within source.now levels unary cursor.old) }
{
    if begins(source, cursor, TokenKind::Minus) {
        return read_minus(alloc, source, cursor, levels);
    }
    if begins(source, cursor, TokenKind::Plus) {
        return read_plus(alloc, source, cursor, levels);
    }
    read_primary(alloc, source, cursor, levels)
}

// The operand of a sign.
#[cycle(expression)]
#[inline(always)]
fn read_operand(
    alloc: Global,
    source: &Source<'_>,
    cursor: &mut Cursor,
    levels: u32,
) -> Result<Boxed<Expr>, Stop>
    ensures { Gives source.now result cursor.new (within source.now levels (Within Signed) cursor.old) }
{
    let operand = read_signed(alloc, source, cursor, levels)?;
    Ok(Boxed::new(alloc, operand)?)
}

#[cycle(expression)]
#[inline(never)]
fn read_minus(
    alloc: Global,
    source: &Source<'_>,
    cursor: &mut Cursor,
    levels: u32,
) -> Result<Expr, Stop>
    ensures { Gives source.now result cursor.new (within source.now levels
        (Level TokenKind.Minus (Choice (Word Plain (TokenKind.Integer (2 ^ 63)) (Nothing (expr.Value (Value.Int (negsuc (2 ^ 63 - 1)))))) (Made expr.Minus (Within Signed)))) cursor.old) }
{
    open(source, cursor, levels, TokenKind::Minus)?;
    if accept(source, cursor, TokenKind::Integer(1 << 63)) {
        return Ok(Expr::Value(Value::Int(i64::MIN)));
    }
    let operand = read_operand(alloc, source, cursor, levels - 1)?;
    Ok(Expr::Minus(operand))
}

#[cycle(expression)]
#[inline(never)]
fn read_plus(
    alloc: Global,
    source: &Source<'_>,
    cursor: &mut Cursor,
    levels: u32,
) -> Result<Expr, Stop>
    ensures { Gives source.now result cursor.new (within source.now levels (Level TokenKind.Plus (Made expr.Plus (Within Signed))) cursor.old) }
{
    open(source, cursor, levels, TokenKind::Plus)?;
    let operand = read_operand(alloc, source, cursor, levels - 1)?;
    Ok(Expr::Plus(operand))
}

// A literal, what a name begins, or an expression in parentheses.
#[cycle(expression)]
fn read_primary(
    alloc: Global,
    source: &Source<'_>,
    cursor: &mut Cursor,
    levels: u32,
) -> Result<Expr, Stop>
    ensures { Gives source.now result cursor.new (within source.now levels primary cursor.old) }
{
    if begins_literal(source, cursor) {
        return read_literal(alloc, source, cursor);
    }
    if begins_name(source, cursor) {
        return read_named(alloc, source, cursor, levels);
    }
    read_parentheses(alloc, source, cursor, levels)
}

// Whether a literal of one token is next.
#[inline(always)]
#[tactic(auto, using(crate::proofs::Left::among_more, crate::proofs::Left::among_one))]
fn begins_literal(source: &Source<'_>, cursor: &Cursor) -> bool
    ensures { result ≡ head_is (among (kinds_of Literal)) (left source.now cursor.now) }
{
    begins_word(source, cursor, Keyword::Null)
        || begins(source, cursor, TokenKind::Text)
        || begins(source, cursor, TokenKind::Blob)
        || begins(source, cursor, TokenKind::Integer(0))
}

#[cycle(expression)]
#[inline(never)]
fn read_parentheses(
    alloc: Global,
    source: &Source<'_>,
    cursor: &mut Cursor,
    levels: u32,
) -> Result<Expr, Stop>
    ensures { Gives source.now result cursor.new (within source.now levels (Level TokenKind.LeftParen (before (Within Whole) TokenKind.RightParen)) cursor.old) }
{
    open(source, cursor, levels, TokenKind::LeftParen)?;
    let value = read_within(alloc, source, cursor, levels - 1)?;
    expect(source, cursor, TokenKind::RightParen)?;
    Ok(value)
}

// A column, with its table's name or without, or a call.
#[cycle(expression)]
#[inline(never)]
fn read_named(
    alloc: Global,
    source: &Source<'_>,
    cursor: &mut Cursor,
    levels: u32,
) -> Result<Expr, Stop>
    ensures { Gives source.now result cursor.new (within source.now levels (Both (λ x make. make x) name_grammar after_name) cursor.old) }
{
    let name = read_name(alloc, source, cursor)?;
    if accept(source, cursor, TokenKind::Dot) {
        let column = read_name(alloc, source, cursor)?;
        let table = Some(Boxed::new(alloc, name)?);
        return Ok(Expr::Name { table, column });
    }
    if !begins(source, cursor, TokenKind::LeftParen) {
        return Ok(Expr::Name {
            table: None,
            column: name,
        });
    }
    open(source, cursor, levels, TokenKind::LeftParen)?;
    if accept(source, cursor, TokenKind::Star) {
        expect(source, cursor, TokenKind::RightParen)?;
        return Ok(Expr::CallAll { name });
    }
    let args = read_values(alloc, source, cursor, levels - 1)?;
    let name = Boxed::new(alloc, name)?;
    Ok(Expr::Call { name, args })
}

// Expressions in parentheses, with commas between them.
#[cycle(expression)]
#[inline(never)]
fn read_arguments(
    alloc: Global,
    source: &Source<'_>,
    cursor: &mut Cursor,
    levels: u32,
) -> Result<Items<Expr>, Stop>
    ensures { Gives source.now result cursor.new (within source.now levels arguments cursor.old) }
{
    open(source, cursor, levels, TokenKind::LeftParen)?;
    read_values(alloc, source, cursor, levels - 1)
}

// Expressions with commas between them, and the parenthesis after them.
#[cycle(expression)]
#[inline(never)]
fn read_values(
    alloc: Global,
    source: &Source<'_>,
    cursor: &mut Cursor,
    levels: u32,
) -> Result<Items<Expr>, Stop>
    ensures { Gives source.now result cursor.new (within source.now levels (before (listed (Within Whole)) TokenKind.RightParen) cursor.old) }
{
    let list = read_commas(alloc, source, cursor, levels)?;
    expect(source, cursor, TokenKind::RightParen)?;
    Ok(list)
}

#[cycle(expression)]
#[inline(never)]
fn read_commas(
    alloc: Global,
    source: &Source<'_>,
    cursor: &mut Cursor,
    levels: u32,
) -> Result<Items<Expr>, Stop>
    ensures { Gives source.now result cursor.new (within source.now levels (listed (Within Whole)) cursor.old) }
{
    let first = read_within(alloc, source, cursor, levels)?;
    let mut list = first_of(alloc, first, !begins(source, cursor, TokenKind::Comma))?;
    // Each comma is a token.
    'items: for _ in cursor.at..source.tokens.len() {
        if !accept(source, cursor, TokenKind::Comma) {
            break;
        }
        list.push(read_within(alloc, source, cursor, levels)?)?;
    }
    Ok(finished(list))
}

// What is printed as words after other words, and lists of it.
ghost use Rattle.std.specs.Prelude.{◌≡◌, ◌∷◌, [], ◌++◌, OnOk, string_bytes, map, codes};
ghost use Rattle.std.specs.List.{flat_map};
ghost use Rattle.hc_ast.specs.Words.{spaced, listed, name_word};
ghost use Rattle.hc_ast.specs.Expressions.{expression_words};

use crate::expression_text::push_expression;
use crate::words::{push_name, push_word};
use crate::{Expr, NoMemory};
use hc_value::Str;

/// Something that is printed as words.
pub trait Phrase {
    ghost use Rattle.std.specs.Prelude.{ℕ, List};

    /// Its words.
    ghost words: { Self → List (List ℕ) };

    /// Writes them, each after a space.
    fn push(&self, out: &mut String) -> Result<(), NoMemory>
        ensures { OnOk result (string_bytes out.new ≡ string_bytes out.old ++ spaced (words self.now)) };
}

impl Phrase for Str {
    ghost words = { λ name. name_word name ∷ [] };

    fn push(&self, out: &mut String) -> Result<(), NoMemory> {
        push_name(out, self)
    }
}

impl Phrase for Expr {
    ghost words = { expression_words };

    fn push(&self, out: &mut String) -> Result<(), NoMemory> {
        push_expression(out, self)
    }
}

// Parts with a comma between two.
pub fn push_list<P: Phrase>(out: &mut String, parts: &[P]) -> Result<(), NoMemory>
    ensures { OnOk result (string_bytes out.new ≡ string_bytes out.old ++ spaced (listed (map P.words parts.now))) }
{
    let Some((first, others)) = parts.split_first() else {
        return Ok(());
    };
    first.push(out)?;
    push_others(out, others)?;
    Ok(())
}

// Each with a comma before it.
pub fn push_others<P: Phrase>(out: &mut String, others: &[P]) -> Result<(), NoMemory>
    ensures { OnOk result (string_bytes out.new
        ≡ string_bytes out.old ++ spaced (flat_map (λ other. codes "," ∷ P.words other) others.now)) }
{
    for other in others {
        push_word(out, ",")?;
        other.push(out)?;
    }
    Ok(())
}

// One after the other.
pub fn push_each<P: Phrase>(out: &mut String, parts: &[P]) -> Result<(), NoMemory>
    ensures { OnOk result (string_bytes out.new ≡ string_bytes out.old ++ spaced (flat_map P.words parts.now)) }
{
    for part in parts {
        part.push(out)?;
    }
    Ok(())
}

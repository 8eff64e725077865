// LIKE: a pattern is cut at its `%`, and the first place at which a stretch between two of them fits is as good as a
// later one. So no place of the text is tried twice for one stretch, and the time is at most that of the
// pattern times the text.
ghost use Rattle.std.specs.Prelude.{◌≡◌};
ghost use Rattle.std.specs.Str.{chars};
ghost use Rattle.hc_expr.specs.Like.{is_like, passes, some_rest};
ghost use Rattle.hc_expr.specs.Search.{IsCut, FoundHere, FoundSomewhere};

// What was found: the whole pattern, nothing, or the front of the pattern up to a `%`, with what follows it and with
// the text past that front.
enum Found<'a> {
    Yes,
    No,
    Star(&'a str, &'a str),
}

/// Whether the text is like the pattern.
pub fn is_like(pattern: &str, text: &str) -> bool
    ensures { result ≡ is_like (chars pattern.now) (chars text.now) }
{
    match at_front(pattern, text) {
        Found::Yes => true,
        Found::No => false,
        Found::Star(after, rest) => is_some_rest_like(after, rest),
    }
}

// Whether some rest of the text is like the pattern.
fn is_some_rest_like(pattern: &str, text: &str) -> bool
    ensures { result ≡ some_rest (is_like (chars pattern.now)) (chars text.now) }
{
    let mut after = pattern;
    let mut rest = text;
    loop {
        match somewhere(after, rest) {
            Found::Yes => return true,
            Found::No => return false,
            Found::Star(next, others) => {
                after = next;
                rest = others;
            }
        }
    }
}

// The front of the pattern at the first of the text's rests where it fits.
fn somewhere<'a>(pattern: &'a str, text: &'a str) -> Found<'a>
    ensures { FoundSomewhere (chars pattern.now) (chars text.now) result }
{
    let mut rest = text;
    loop {
        match at_front(pattern, rest) {
            Found::Yes => return Found::Yes,
            Found::Star(after, others) => return Found::Star(after, others),
            Found::No => {}
        }
        match first(rest) {
            Some((_, others)) => rest = others,
            None => return Found::No,
        }
    }
}

// The front of the pattern at the front of the text.
fn at_front<'a>(pattern: &'a str, text: &'a str) -> Found<'a>
    ensures { FoundHere (chars pattern.now) (chars text.now) result }
{
    let mut after = pattern;
    let mut rest = text;
    while let Some((p, next)) = first(after) {
        if p == '%' {
            return Found::Star(next, rest);
        }
        match first(rest) {
            Some((c, others)) if passes(p, c) => rest = others,
            _ => return Found::No,
        }
        after = next;
    }
    match first(rest) {
        None => Found::Yes,
        Some(_) => Found::No,
    }
}

fn first(text: &str) -> Option<(char, &str)>
    ensures { IsCut (chars text.now) result }
{
    let mut rest = text.chars();
    match rest.next() {
        Some(c) => Some((c, rest.as_str())),
        None => None,
    }
}

fn passes(p: char, c: char) -> bool
    ensures { result ≡ passes p c }
{
    p == '_' || p.to_ascii_lowercase() == c.to_ascii_lowercase()
}

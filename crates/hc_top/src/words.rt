// The command-line arguments.
ghost use Rattle.std.specs.Prelude.{◌≡◌, ◌↔◌, IsTrue};
ghost use Rattle.hc_top.specs.Words.{AreStepWords};

use hc_value::Str;

/// Whether the arguments, without the program's name, ask for the mode `step`: none, or `--mode step`.
pub fn are_step_words(words: &[Str]) -> bool
    ensures { IsTrue result ↔ AreStepWords words.now }
{
    match words {
        [] => true,
        [option, mode] => is(option, "--mode") && is(mode, "step"),
        _ => false,
    }
}

fn is(word: &Str, text: &str) -> bool
    ensures { IsTrue result ↔ (word.now ≡ text.now) }
{
    word.as_str() == text
}

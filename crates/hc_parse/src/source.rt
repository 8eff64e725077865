// A text and its tokens.
ghost use Rattle.std.specs.Prelude.{◌≡◌, true};
ghost use Rattle.std.specs.List.{AllByRecursion-prop};
ghost use Rattle.std.proofs.Props.{props};
ghost use Rattle.hc_parse.specs.Pieces.{AreSound, IsSound, is_sound};

use hc_lex::{Token, TokenKind};

/// A text and its tokens.
#[derive(Clone, Copy, Debug)]
pub struct Source<'a> {
    pub text: &'a str,
    pub tokens: &'a [Token],
    ghost sound: { AreSound text.now tokens.now } by { AllByRecursion-prop (IsSound text.now) (λ token. Prim.hlevel props) tokens.now },
}

/// A token with its text.
#[derive(Clone, Copy, Debug)]
pub struct Piece<'a> {
    pub kind: TokenKind,
    pub text: &'a str,
    ghost sound: { is_sound kind text.now ≡ true },
}

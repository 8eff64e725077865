//! Laws of the definitions.
ghost use Rattle.hc_expr.specs.Laws.{LikeIsWhatItSays};

/// `%` stands for any characters, `_` for one, every other character for itself, a letter of ASCII in either case.
pub fn like_is_what_it_says()
    ensures { LikeIsWhatItSays }
{}

//! Two pages written out by hand, word by word.
ghost use Rattle.std.specs.Prelude.{◌≡◌};
ghost use Rattle.hc_base.specs.Layout.{layout, IsPage};
ghost use Rattle.hc_engine_tests.specs.ByHand.{leaf, leaf_words, inner, inner_words};

/// A leaf with both fences, a tombstone and an older link.
pub fn a_leaf_is_laid_out_so()
    ensures { leaf_words ≡ layout leaf }
{}

/// An inner page with three entries.
pub fn an_inner_page_is_laid_out_so()
    ensures { inner_words ≡ layout inner }
{}

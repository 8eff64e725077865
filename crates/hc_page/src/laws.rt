// What follows from the definitions alone. Each law is the contract of a function that does nothing.
ghost use Rattle.hc_page.specs.Laws.{OneContent, OneLayout};

/// Words stand for one content only: two contents have two layouts.
pub fn words_have_one_content()
    ensures { OneContent }
{}

/// A content has one layout.
pub fn a_content_has_one_layout()
    ensures { OneLayout }
{}

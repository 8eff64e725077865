// What follows from the definitions alone. Each law is the contract of a function that does nothing.
ghost use Rattle.hc_pool.specs.Laws.{EachPageHasItsTurn};

/// The pages in turn from one on are that page, and each page once.
pub fn each_page_has_its_turn()
    ensures { EachPageHasItsTurn }
{}

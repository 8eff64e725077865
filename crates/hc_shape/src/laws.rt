// What follows from the definitions alone. Each law is the contract of a function that does nothing.
ghost use Rattle.hc_shape.specs.Laws.{AChildIsAnEntry, ACutIsAHalvedInner, ACutIsAPutHalved, ACutKeepsOrder, ACutMovesKeys, ACutPutIsOfOneKey, ACutReachesOneMore, ADescentGoesStraight, AGrowthReachesTwoMore, AKeyHasAWayDown, AKeyHasItsNumber, ALinkLeadsRight, AnEntryIsItsKeysVersion, AnEntryLeadsDown, ANumberHasItsLevel, AnUnputIsOfOneKey, AnUnputLeavesAnOlder, APutIsOfOneKey, ChildrenDiffer, FencesPartKeys, HalvesAreContents, LevelsAreLinked, LevelsByLeaves, LevelsByNumbers, OneCut, SameKeysAreOne, ShapeFirst, ShapeGrown, ShapeHalved, ShapeHalvedInner, ShapeMapped, ShapePosted, ShapePut, ShapeUnput, SomePlaceFits, StaysOn, TheFirstTwo, TheHalvesFit, ThereIsACut, TwiceAsMany};

/// A key has the number whose low fence is not above it, where the low fence of each number further right is.
pub fn a_key_has_its_number()
    ensures { AKeyHasItsNumber }
{}

/// A cut gives the keys of one number of a level, from the cut on, to a new number; each other key stays where it was.
pub fn a_cut_moves_keys()
    ensures { ACutMovesKeys }
{}

/// After a cut the low fences of the level ascend still.
pub fn a_cut_keeps_order()
    ensures { ACutKeepsOrder }
{}

/// Two keys are the same exactly where they are one byte string.
pub fn same_keys_are_one()
    ensures { SameKeysAreOne }
{}

/// In entries whose keys ascend each is the version of its key.
pub fn an_entry_is_its_keys_version()
    ensures { AnEntryIsItsKeysVersion }
{}

/// An entry that is put in its key's place is the version of that key, and no other key's version changes.
pub fn a_put_is_of_one_key()
    ensures { APutIsOfOneKey }
{}

/// The same where the entries are cut in two.
pub fn a_cut_put_is_of_one_key()
    ensures { ACutPutIsOfOneKey }
{}

/// An entry that is taken out leaves its key without a version, and no other key's version changes.
pub fn an_unput_is_of_one_key()
    ensures { AnUnputIsOfOneKey }
{}

/// An older entry of a key that is put back in its place is the version of that key, and no other key's version changes.
pub fn an_unput_leaves_an_older()
    ensures { AnUnputLeavesAnOlder }
{}

/// Where a page of entries of at most 60 words, with keys and fences of at most 463 bytes, has no room for one more, there is a place where both halves fit: a leaf's
/// halves have one entry at least, an inner page's two.
pub fn some_place_fits()
    ensures { SomePlaceFits }
{}

/// So both halves of the cut fit, whose larger half is the least.
pub fn the_halves_fit()
    ensures { TheHalvesFit }
{}

/// Where a list of entries can be cut at some place, there is a cut.
pub fn there_is_a_cut()
    ensures { ThereIsACut }
{}

/// The halves of a content are contents, wherever its entries are cut in two.
pub fn halves_are_contents()
    ensures { HalvesAreContents }
{}

/// There is one cut at most.
pub fn there_is_one_cut()
    ensures { OneCut }
{}

/// The halves of a leaf with an entry put, at the cut, are what the plan of such a put has to make.
pub fn a_cut_is_a_put_halved()
    ensures { ACutIsAPutHalved }
{}

/// The halves of an inner page with a child more, at the cut, are what the plan of such a halving has to make.
pub fn a_cut_is_a_halved_inner()
    ensures { ACutIsAHalvedInner }
{}

/// The two pages at the start have a shape: number 1 is the one leaf, and number 2 the top over it, on level 1.
pub fn shape_first()
    ensures { ShapeFirst }
{}

/// A page at a number that no link reaches leaves the shape and each key's entry.
pub fn shape_mapped()
    ensures { ShapeMapped }
{}

/// A leaf with an entry put keeps numbers, low fences and levels, and changes one key's entry.
pub fn shape_put()
    ensures { ShapePut }
{}

/// So does a leaf with an older entry, or none, for a key.
pub fn shape_unput()
    ensures { ShapeUnput }
{}

/// A leaf cut in two has the new number next to its own, with the keys from the cut on; one key's entry changes.
pub fn shape_halved()
    ensures { ShapeHalved }
{}

/// An inner page with a child more keeps numbers, low fences and levels, and each key's entry.
pub fn shape_posted()
    ensures { ShapePosted }
{}

/// An inner page cut in two has the new number next to its own; each key's entry stays.
pub fn shape_halved_inner()
    ensures { ShapeHalvedInner }
{}

/// A top that grows has two new numbers on its old level, and is on one of its own above; each key's entry stays.
pub fn shape_grown()
    ensures { ShapeGrown }
{}

/// What stays from one shape to the next stays over several.
pub fn stays_on()
    ensures { StaysOn }
{}

/// A key is within the fences of one page of each level.
pub fn fences_part_keys()
    ensures { FencesPartKeys }
{}

/// A right link leads to a number of the same level with a greater low fence.
pub fn a_link_leads_right()
    ensures { ALinkLeadsRight }
{}

/// An entry of an inner page names a number one level down by its low fence.
pub fn an_entry_leads_down()
    ensures { AnEntryLeadsDown }
{}

/// An inner page has an entry at or below each key from its low fence on.
pub fn a_key_has_a_way_down()
    ensures { AKeyHasAWayDown }
{}

/// The entries of one level name different numbers.
pub fn children_differ()
    ensures { ChildrenDiffer }
{}

/// Below the top a level has at least twice as many numbers as the one above it.
pub fn twice_as_many()
    ensures { TwiceAsMany }
{}

/// The top's level is at most the number of binary digits of the number of leaves.
pub fn levels_by_leaves()
    ensures { LevelsByLeaves }
{}

/// The top's level is at most 20 where the numbers that links reach are at most 2 to the power 20; and so for each power.
pub fn levels_by_numbers()
    ensures { LevelsByNumbers }
{}

/// Numbers 1 and 2 are reached, with the empty low fence, and number 1 is a leaf.
pub fn the_first_two()
    ensures { TheFirstTwo }
{}

/// A number of a level is reached, and on that level, which is not above the top's.
pub fn a_number_has_its_level()
    ensures { ANumberHasItsLevel }
{}

/// A number of a level with its low fence can be an entry of an inner page.
pub fn a_child_is_an_entry()
    ensures { AChildIsAnEntry }
{}

/// The numbers of a level are in the order of their pages' links.
pub fn levels_are_linked()
    ensures { LevelsAreLinked }
{}

/// Where each number of a level but the first is named one level up, a descent to that level takes no right link.
pub fn a_descent_goes_straight()
    ensures { ADescentGoesStraight }
{}

/// After a page is cut in two, links reach the new number, and no other that they did not reach before.
pub fn a_cut_reaches_one_more()
    ensures { ACutReachesOneMore }
{}

/// After a growth links reach the two new numbers, and no other that they did not reach before.
pub fn a_growth_reaches_two_more()
    ensures { AGrowthReachesTwoMore }
{}

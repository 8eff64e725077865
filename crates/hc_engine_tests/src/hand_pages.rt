//! The two pages that are written out by hand, read by the calls. What they have is in `specs/ByHand.antt`.
ghost use Rattle.std.specs.Prelude.{◌<◌};
ghost use Rattle.hc_base.specs.Layout.{IsPage, HasContent};
ghost use Rattle.hc_engine_tests.specs.ByHand.{leaf, inner};

use hc_base::{Logical, Older, Page, Phys, Tid};
use hc_page::{
    EntryAt, Found, Sought, byte, child, count, entry, find, find_sought, high, level, low, right,
    valid,
};
use hc_range::KeyBuf;
use std::test::Fail;

// The words of the leaf.
fn leaf_page() -> Page
    ensures page { IsPage result.words leaf }
    ensures valid { HasContent result.words }
{
    let mut words = [0; 256];
    words[0] = 0x0100_0002_000D_0000;
    words[1] = 0x0000_0005_0000_0009;
    words[2] = 0x0005_0001_0006_0001;
    words[4] = 0x0007_000A_0000_0000;
    words[5] = 0x6200_0000_0000_0000;
    words[6] = 0x6D00_0000_0000_0000;
    words[7] = 0x0000_0007_0030_0400;
    words[8] = 0x0000_0102_0003_0000;
    words[9] = 0x6361_746D_656F_7700;
    words[10] = 0x0000_0008_0030_0001;
    words[12] = 0x646F_6700_0000_0000;
    Page { words }
}

// The words of the inner page.
fn inner_page() -> Page
    ensures page { IsPage result.words inner }
    ensures valid { HasContent result.words }
{
    let mut words = [0; 256];
    words[0] = 0x0201_0003_000B_0001;
    words[1] = 0x0000_0002_0000_0000;
    words[2] = 0x0006_0000_0000_0000;
    words[4] = 0x0005_0006_0009_0000;
    words[5] = 0x0000_0001_0000_0000;
    words[6] = 0x0000_0003_0009_0000;
    words[7] = 0x6162_6364_6566_6768;
    words[8] = 0x6900_0000_0000_0000;
    words[9] = 0x0000_0004_0001_0000;
    words[10] = 0x6B00_0000_0000_0000;
    Page { words }
}

fn leaf_entry(page: &Page, slot: u16) -> EntryAt
    requires page { IsPage page.now.words leaf }
    requires slot { slot < 2 }
{
    entry(page, slot)
}

fn inner_child(page: &Page, slot: u16) -> Logical
    requires page { IsPage page.now.words inner }
    requires slot { slot < 3 }
{
    child(page, slot)
}

#[cfg(test)]
mod tests {
    use super::*;

    #[test]
    fn what_the_leaf_has_is_told(rt: HostRuntime) -> Result<(), Fail> {
        let page = leaf_page();
        assert!(rt; low(&page) == KeyBuf::from_slice(b"b"));
        assert!(rt; high(&page) == Some(KeyBuf::from_slice(b"m")));
        assert_eq!(rt; right(&page), Some(Logical(9)));
        let cat = EntryAt {
            tid: Tid(7),
            key_at: 72,
            key_len: 3,
            rec_at: 75,
            rec_len: 4,
            tombstone: false,
            older: Some(Older {
                page: Phys(258),
                slot: 3,
            }),
        };
        assert_eq!(rt; leaf_entry(&page, 0), cat);
        let dog = EntryAt {
            tid: Tid(8),
            key_at: 96,
            key_len: 3,
            rec_at: 99,
            rec_len: 0,
            tombstone: true,
            older: None,
        };
        assert_eq!(rt; leaf_entry(&page, 1), dog);
        for (at, wanted) in [
            (72, b'c'),
            (74, b't'),
            (75, b'm'),
            (78, b'w'),
            (79, 0),
            (96, b'd'),
        ] {
            assert_eq!(rt; byte(&page, at), wanted, "at {at}");
        }
        Ok(())
    }

    #[test]
    fn keys_are_found_on_the_leaf(rt: HostRuntime) -> Result<(), Fail> {
        let page = leaf_page();
        for (key, found) in [
            ("", Found::Before(0)),
            ("b", Found::Before(0)),
            ("ca", Found::Before(0)),
            ("cat", Found::At(0)),
            ("cat\0", Found::Before(1)),
            ("catmeow", Found::Before(1)),
            ("cow", Found::Before(1)),
            ("do", Found::Before(1)),
            ("dog", Found::At(1)),
            ("dog\0\0\0\0\0\0\0", Found::Before(2)),
            ("egg", Found::Before(2)),
        ] {
            assert_eq!(rt; find(&page, key.as_bytes()), found, "at {key}");
            let sought = Sought::of(key.as_bytes());
            assert_eq!(rt; find_sought(&page, &sought), found, "at {key}");
        }
        Ok(())
    }

    #[test]
    fn what_the_inner_page_has_is_told(rt: HostRuntime) -> Result<(), Fail> {
        let page = inner_page();
        assert_eq!(rt; count(&page), 3);
        assert_eq!(rt; level(&page), 1);
        assert!(rt; low(&page) == KeyBuf::from_slice(b""));
        assert!(rt; high(&page) == None);
        assert_eq!(rt; right(&page), None);
        for (slot, number) in [(0, 1), (1, 3), (2, 4)] {
            assert_eq!(rt; inner_child(&page, slot), Logical(number));
        }
        Ok(())
    }

    #[test]
    fn keys_are_found_on_the_inner_page(rt: HostRuntime) -> Result<(), Fail> {
        let page = inner_page();
        for (key, found) in [
            ("", Found::At(0)),
            ("\0", Found::Before(1)),
            ("abcdefgh", Found::Before(1)),
            ("abcdefghi", Found::At(1)),
            ("abcdefghi\0", Found::Before(2)),
            ("abcdefgi", Found::Before(2)),
            ("k", Found::At(2)),
            ("kk", Found::Before(3)),
        ] {
            assert_eq!(rt; find(&page, key.as_bytes()), found, "at {key}");
            let sought = Sought::of(key.as_bytes());
            assert_eq!(rt; find_sought(&page, &sought), found, "at {key}");
        }
        Ok(())
    }

    // A word of the leaf in place of one that it has, and whether this is a page.
    #[test]
    fn words_are_a_page_or_not(rt: HostRuntime) -> Result<(), Fail> {
        assert!(rt; valid(&leaf_page()));
        for (at, word, is_page) in [
            (0u8, 0x0300_0002_000D_0000, false),
            (0, 0x0101_0002_000D_0000, false),
            (0, 0x0201_0002_000D_0000, false),
            (0, 0x0100_0001_000D_0000, false),
            (0, 0x0100_0003_000D_0000, false),
            (0, 0x0100_FFFF_000D_0000, false),
            (0, 0x0100_0002_000E_0000, false),
            (0, 0x0100_0002_000D_0001, false),
            (0, 0x0100_0002_000D_0002, false),
            (1, 0x0000_0006_0000_0000, true),
            (1, 0x0000_0000_0000_0009, false),
            (2, 0x0005_0000_0006_0001, false),
            (2, 0x0005_01D0_0006_0001, false),
            (2, 0xFFFF_0001_FFFF_0001, false),
            (2, 0x0006_0001_0006_0001, false),
            (3, 1, false),
            (4, 0x000A_0007_0000_0000, false),
            (4, 0xFFFF_000A_0000_0000, false),
            (4, 0x0007_000A_0001_0000, false),
            (5, 0x6300_0000_0000_0000, true),
            (5, 0x6400_0000_0000_0000, false),
            (5, 0x6200_0000_0000_0001, false),
            (6, 0x6400_0000_0000_0000, false),
            (6, 0x6500_0000_0000_0000, true),
            (7, 0xFFFF_FFFF_0030_0400, true),
            (7, 0x0000_0007_0030_0300, false),
            (7, 0x0000_0007_0030_0500, true),
            (7, 0x0000_0007_0030_0600, false),
            (7, 0x0000_0007_FFF0_0400, false),
            (7, 0x0000_0007_0030_0401, false),
            (7, 0x0000_0007_0030_0402, false),
            (8, 0, true),
            (8, 0x0000_0000_0003_0000, false),
            (8, 0x0000_0102_0003_0001, false),
            (9, 0x6361_746D_656F_7701, false),
            (9, 0x7361_746D_656F_7700, false),
            (9, 0x6461_746D_656F_7700, true),
            (10, 0x0000_0008_0030_0000, true),
            (12, 0x6361_7400_0000_0000, false),
            (13, 1, false),
            (255, 1, false),
        ] {
            let mut page = leaf_page();
            page.words[at as usize] = word;
            assert_eq!(rt; valid(&page), is_page, "{word:#x} at {at}");
        }
        Ok(())
    }

    // The same of the inner page.
    #[test]
    fn words_are_an_inner_page_or_not(rt: HostRuntime) -> Result<(), Fail> {
        assert!(rt; valid(&inner_page()));
        for (at, word, is_page) in [
            (0u8, 0x0202_0003_000B_0001, true),
            (0, 0x0200_0003_000B_0001, false),
            (2, 0x0007_0000_0000_0000, false),
            (5, 0x0000_0000_0000_0000, false),
            (5, 0x0000_0001_0000_0001, false),
            (6, 0x0000_0003_01D0_0000, false),
            (7, 0x6B00_0000_0000_0000, false),
            (7, 0x6A00_0000_0000_0000, true),
            (10, 0x6100_0000_0000_0000, false),
        ] {
            let mut page = inner_page();
            page.words[at as usize] = word;
            assert_eq!(rt; valid(&page), is_page, "{word:#x} at {at}");
        }
        assert!(rt; !valid(&Page { words: [0; 256] }));
        Ok(())
    }
}

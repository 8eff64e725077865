//! Leaves without fences, written by puts.
ghost use Rattle.std.specs.Prelude.{◌≡◌, ◌≤◌, ◌^◌, ◌<◌, length, Some, IfSome};
ghost use Rattle.std.specs.Option.{option_copied};
ghost use Rattle.hc_base.specs.Content.{IsEntryOf, IsOlder, OfSome};
ghost use Rattle.hc_base.specs.Layout.{record_bytes};
ghost use Rattle.hc_page.specs.Drafts.{entry_of};
ghost use Rattle.hc_page.specs.Open.{IsOpenLeaf};

use hc_base::{Logical, Older, Page, Tid};
use hc_page::{
    EntryAt, Found, Head, NewEntry, begin, entry, find, finish, fits, fits_copied, with_copied,
    with_put, without,
};

fn empty_leaf() -> Page
    ensures { IsOpenLeaf result.words }
{
    let mut page = Page { words: [0; 256] };
    let head = Head {
        level: 0,
        own: Logical(1),
        right: None,
        low: &[],
        high: None,
    };
    let draft = begin(&head, 0, &mut page);
    finish(draft, &mut page);
    page
}

fn version<'a>(tid: u32, key: &'a [u8], rec: &'a [u8], older: Option<Older>) -> NewEntry<'a>
    requires key { length key.now ≤ 463 }
    requires rec { length rec.now ≤ 1000 }
    requires older { OfSome IsOlder older }
    ensures entry { IsEntryOf 0 (entry_of result) }
    ensures rec { length (record_bytes (option_copied result.rec)) ≤ 1000 }
{
    NewEntry {
        tid: Tid(tid),
        key,
        rec: Some(rec),
        older,
    }
}

fn tombstone(tid: u32, key: &[u8]) -> NewEntry<'_>
    requires { length key.now ≤ 463 }
    ensures entry { IsEntryOf 0 (entry_of result) }
    ensures rec { length (record_bytes (option_copied result.rec)) ≤ 1000 }
{
    NewEntry {
        tid: Tid(tid),
        key,
        rec: None,
        older: None,
    }
}

// The leaf with the entry in its key's place, where it fits.
fn put(page: &mut Page, new: &NewEntry<'_>) -> bool
    requires leaf { IsOpenLeaf page.old.words }
    requires entry { IsEntryOf 0 (entry_of new.now) }
    requires rec { length (record_bytes (option_copied new.now.rec)) ≤ 1000 }
    ensures { IsOpenLeaf page.new.words }
{
    if !fits(page, new.key, rec_len(new.rec)) {
        return false;
    }
    let mut out = Page { words: [7; 256] };
    with_put(page, new, &mut out);
    *page = out;
    true
}

fn put_tombstone(page: &mut Page, key: &[u8]) -> bool
    requires { IsOpenLeaf page.old.words }
    ensures { IsOpenLeaf page.new.words }
{
    key.len() <= 463 && put(page, &tombstone(1, key))
}

fn rec_len(rec: Option<&[u8]>) -> u16
    requires { length (record_bytes (option_copied rec)) ≤ 1000 }
    ensures { result ≡ length (record_bytes (option_copied rec.entry)) }
{
    match rec {
        Some(rec) => rec.len() as u16,
        None => 0,
    }
}

// The leaf without the entry of this key, where it has one.
fn take_out(page: &mut Page, key: &[u8]) -> bool
    requires { IsOpenLeaf page.old.words }
    ensures { IsOpenLeaf page.new.words }
{
    match find(page, key) {
        Found::At(slot) => {
            let mut out = Page { words: [7; 256] };
            without(page, slot, &mut out);
            *page = out;
            true
        }
        Found::Before(_) => false,
    }
}

// The leaf with the other one's entry of this key, where that has one and it fits.
fn put_copied(page: &mut Page, from: &Page, key: &[u8]) -> bool
    requires leaf { IsOpenLeaf page.old.words }
    requires from { IsOpenLeaf from.now.words }
    requires key { length key.now ≤ 463 }
    ensures { IsOpenLeaf page.new.words }
{
    match find(from, key) {
        Found::At(slot) if fits_copied(page, from, slot) => {
            let mut out = Page { words: [7; 256] };
            with_copied(page, from, slot, &mut out);
            *page = out;
            true
        }
        _ => false,
    }
}

// What is told of the entry of this key.
fn read(page: &Page, key: &[u8]) -> Option<EntryAt>
    requires { IsOpenLeaf page.now.words }
{
    match find(page, key) {
        Found::At(slot) => Some(entry(page, slot)),
        Found::Before(_) => None,
    }
}

#[cfg(test)]
mod tests {
    use super::*;
    use hc_base::Phys;
    use hc_page::valid;
    use std::test::Fail;

    const LONG: [u8; 463] = [0x7A; 463];

    // Keys that are prefixes of each other or end in zeros, the empty one and one of the greatest length, in order.
    fn keys() -> [&'static [u8]; 7] {
        [
            b"",
            b"a",
            b"a\0",
            b"a\0\0",
            b"a\0\0\0\0\0\0\0\0",
            b"ab",
            &LONG,
        ]
    }

    #[test]
    fn each_key_is_found_in_its_place(rt: HostRuntime) -> Result<(), Fail> {
        let mut page = empty_leaf();
        for at in [3, 0, 6, 1, 5, 2, 4] {
            assert!(rt; put_tombstone(&mut page, keys()[at]), "at {at}");
            assert!(rt; valid(&page), "at {at}");
        }
        for (at, key) in keys().into_iter().enumerate() {
            assert_eq!(rt; find(&page, key), Found::At(at as u16), "at {at}");
        }
        for (key, found) in [
            (b"\0".as_slice(), Found::Before(1)),
            (b"`".as_slice(), Found::Before(1)),
            (b"a\0\0\0".as_slice(), Found::Before(4)),
            (b"a\0\0\0\0\0\0\0".as_slice(), Found::Before(4)),
            (b"a\0\0\0\0\0\0\0\0\0".as_slice(), Found::Before(5)),
            (b"a\0\x01".as_slice(), Found::Before(5)),
            (b"aa".as_slice(), Found::Before(5)),
            (b"abc".as_slice(), Found::Before(6)),
            (&LONG[1..], Found::Before(6)),
            (b"{".as_slice(), Found::Before(7)),
        ] {
            assert_eq!(rt; find(&page, key), found);
        }
        Ok(())
    }

    // Four entries of 53 words with head and directory are 217. A fifth one makes the directory one word longer, so it
    // has 38 at most; one in the place of another has 92.
    #[test]
    fn four_entries_leave_so_much_room(rt: HostRuntime) -> Result<(), Fail> {
        let mut page = empty_leaf();
        for key in [b"first  1", b"second 2", b"third  3", b"fourth 4"] {
            assert!(rt; put(&mut page, &version(1, key, &[0x72; 400], None)));
        }
        for (key, rec_len, has_room) in [
            (b"fifth  5", 400, false),
            (b"fifth  5", 281, false),
            (b"fifth  5", 280, true),
            (b"third  3", 400, true),
            (b"third  3", 712, true),
            (b"third  3", 713, false),
        ] {
            assert_eq!(rt; fits(&page, key, rec_len), has_room, "{rec_len}");
        }
        assert!(rt; !put(&mut page, &version(1, b"fifth  5", &[0x72; 400], None)));
        assert_eq!(rt; find(&page, b"fifth  5"), Found::Before(0));
        Ok(())
    }

    #[test]
    fn an_empty_record_is_not_a_tombstone(rt: HostRuntime) -> Result<(), Fail> {
        let mut page = empty_leaf();
        let older = Some(Older {
            page: Phys(258),
            slot: 3,
        });
        assert!(rt; put(&mut page, &version(7, b"key", b"record", None)));
        assert!(rt; put(&mut page, &version(8, b"key", b"", older)));
        let told = EntryAt {
            tid: Tid(8),
            key_at: 56,
            key_len: 3,
            rec_at: 59,
            rec_len: 0,
            tombstone: false,
            older,
        };
        assert_eq!(rt; read(&page, b"key"), Some(told));
        assert!(rt; put(&mut page, &tombstone(9, b"key")));
        let told = EntryAt {
            tid: Tid(9),
            tombstone: true,
            older: None,
            ..told
        };
        assert_eq!(rt; read(&page, b"key"), Some(told));
        Ok(())
    }

    #[test]
    fn an_entry_is_taken_out_and_copied_back(rt: HostRuntime) -> Result<(), Fail> {
        let mut page = empty_leaf();
        let older = Some(Older {
            page: Phys(258),
            slot: 3,
        });
        for key in [b"a", b"b", b"c"] {
            assert!(rt; put(&mut page, &version(7, key, b"record", older)));
        }
        let before = page;
        assert!(rt; take_out(&mut page, b"b"));
        assert!(rt; !take_out(&mut page, b"b"));
        assert_eq!(rt; find(&page, b"b"), Found::Before(1));
        assert_eq!(rt; find(&page, b"c"), Found::At(1));
        assert!(rt; put(&mut page, &tombstone(8, b"b")));
        assert!(rt; put_copied(&mut page, &before, b"b"));
        assert!(rt; page == before);
        assert!(rt; !put_copied(&mut page, &before, b"d"));
        Ok(())
    }
}

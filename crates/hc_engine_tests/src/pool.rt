//! Pages of a region are claimed and given back.
ghost use Rattle.std.specs.Prelude.{◌≡◌};
ghost use Rattle.hc_rows.specs.Places.{HasPage};
ghost use Rattle.hc_rule.specs.Holders.{IsRegistered};
ghost use Rattle.hc_steps.specs.Same.{IsSame};

use hc_base::{Cid, Full, Page, PageWord, Phys};
use hc_pool::{claim, give_back};
use hc_steps::Grip;

// Claims a page, and then another one; where there is none, the first goes back.
fn claim_twice(grip: &mut Grip<'_>, floor: Cid) -> Result<(Phys, Result<Phys, Full>), Full>
    requires registered { IsRegistered grip.old.seat.me.0.stage }
    ensures registered { IsRegistered grip.new.seat.me.0.stage }
    ensures layout { grip.new.layout ≡ grip.old.layout }
{
    let p = claim(grip, floor)?;
    match claim(grip, floor) {
        Ok(other) => Ok((p, Ok(other))),
        Err(full) => {
            give_back(grip, p);
            Ok((p, Err(full)))
        }
    }
}

// Claims a page and stores its last word; the word and that of the whole row are loaded again.
fn write_and_read(grip: &mut Grip<'_>, word: u64) -> Result<(u64, u64), Full>
    requires registered { IsRegistered grip.old.seat.me.0.stage }
    ensures registered { IsRegistered grip.new.seat.me.0.stage }
    ensures layout { grip.new.layout ≡ grip.old.layout }
{
    let p = claim(grip, Cid(0))?;
    grip.store_row(p, 255, word);
    let mut row = Page { words: [7; 256] };
    grip.read_page(p, &mut row);
    Ok((grip.load_row(p, 255), row.words[255]))
}

// Claims a page, writes its row, reads it again and gives the page back. A page that was given back is claimed next.
fn rewrite(grip: &mut Grip<'_>, page: &Page, out: &mut Page) -> Result<Phys, Full>
    requires registered { IsRegistered grip.old.seat.me.0.stage }
    ensures registered { IsRegistered grip.new.seat.me.0.stage }
{
    let p = claim(grip, Cid(0))?;
    grip.write_page(p, page);
    grip.read_page(p, out);
    give_back(grip, p);
    Ok(p)
}

// Claims a page, names another next one, and loads the page's word.
fn thread_page(grip: &mut Grip<'_>, seat: u8, next: u32) -> Result<PageWord, Full>
    requires seat { seat ≡ grip.old.conn }
    requires registered { IsRegistered grip.old.seat.me.0.stage }
{
    let p = claim(grip, Cid(0))?;
    grip.store_page(p, PageWord::Owned { seat, next });
    Ok(grip.load_page(p))
}

// Loads the word of a page.
fn word_of(grip: &mut Grip<'_>, p: Phys) -> PageWord
    requires page { HasPage grip.old.layout p.0 }
    requires registered { IsRegistered grip.old.seat.me.0.stage }
    ensures registered { IsRegistered grip.new.seat.me.0.stage }
    ensures same { IsSame grip.old grip.new }
{
    grip.load_page(p)
}

#[cfg(test)]
mod tests {
    use super::*;
    use hc_base::Logical;
    use hc_pool::register;
    use hc_rows::Layout;
    use hc_steps::Region;
    use std::test::Fail;

    fn full(count: u32, floor: u32) -> Full {
        Full::Pages {
            count,
            floor: Cid(floor),
        }
    }

    fn owned(seat: u8) -> PageWord {
        PageWord::Owned { seat, next: 0 }
    }

    // Of four pages two are mapped from the start. The seat owns after `Full` what it owned.
    #[test]
    fn two_pages_of_four_are_claimed(rt: HostRuntime) -> Result<(), Fail> {
        let layout = Layout {
            pages: 4,
            numbers: 2,
            transactions: 1,
            seats: 1,
        };
        let (region, mut dealer) = Region::make(rt.alloc(), layout)?;
        let mut grip = region.deal(&mut dealer);
        register(&mut grip);
        assert_eq!(rt; claim(&mut grip, Cid(0)), Ok(Phys(3)));
        assert_eq!(rt;
            claim_twice(&mut grip, Cid(0)),
            Ok((Phys(4), Err(full(4, 0))))
        );
        assert_eq!(rt; word_of(&mut grip, Phys(3)), owned(0));
        assert_eq!(rt; word_of(&mut grip, Phys(4)), PageWord::Free);
        assert_eq!(rt;
            claim_twice(&mut grip, Cid(7)),
            Ok((Phys(4), Err(full(4, 7))))
        );
        assert_eq!(rt; claim(&mut grip, Cid(0)), Ok(Phys(4)));
        assert_eq!(rt; claim(&mut grip, Cid(9)), Err(full(4, 9)));
        assert_eq!(rt; word_of(&mut grip, Phys(3)), owned(0));
        assert_eq!(rt; word_of(&mut grip, Phys(4)), owned(0));
        Ok(())
    }

    #[test]
    fn a_region_of_two_pages_is_full(rt: HostRuntime) -> Result<(), Fail> {
        let layout = Layout {
            pages: 2,
            numbers: 2,
            transactions: 1,
            seats: 1,
        };
        let (region, mut dealer) = Region::make(rt.alloc(), layout)?;
        let mut grip = region.deal(&mut dealer);
        register(&mut grip);
        assert_eq!(rt; claim(&mut grip, Cid(0)), Err(full(2, 0)));
        assert_eq!(rt; word_of(&mut grip, Phys(1)), PageWord::Mapped(Logical(1)));
        assert_eq!(rt; word_of(&mut grip, Phys(2)), PageWord::Mapped(Logical(2)));
        assert_eq!(rt; grip.hint(), Phys(1));
        Ok(())
    }

    // The second connection begins in the middle. The first one begins at the last page but one, and the first free page
    // in turn from there is below it.
    #[test]
    fn a_claim_goes_round(rt: HostRuntime) -> Result<(), Fail> {
        let layout = Layout {
            pages: 8,
            numbers: 2,
            transactions: 1,
            seats: 2,
        };
        let (region, mut dealer) = Region::make(rt.alloc(), layout)?;
        let mut one = region.deal(&mut dealer);
        let mut two = region.deal(&mut dealer);
        register(&mut one);
        register(&mut two);
        assert_eq!(rt; claim_twice(&mut two, Cid(0)), Ok((Phys(5), Ok(Phys(6)))));
        assert_eq!(rt; claim_twice(&mut two, Cid(0)), Ok((Phys(7), Ok(Phys(8)))));
        one.begin_at(Phys(7));
        assert_eq!(rt; claim(&mut one, Cid(0)), Ok(Phys(3)));
        assert_eq!(rt; two.hint(), Phys(8));
        assert_eq!(rt; claim(&mut two, Cid(0)), Ok(Phys(4)));
        assert_eq!(rt; claim(&mut two, Cid(0)), Err(full(8, 0)));
        assert_eq!(rt; claim(&mut one, Cid(0)), Err(full(8, 0)));
        assert_eq!(rt; one.hint(), Phys(3));
        Ok(())
    }

    // By hand: of five connections each begins a fifth of the pages further, rounded down.
    #[test]
    fn connections_begin_evenly_spread(rt: HostRuntime) -> Result<(), Fail> {
        let layout = Layout {
            pages: 7,
            numbers: 2,
            transactions: 1,
            seats: 5,
        };
        let (region, mut dealer) = Region::make(rt.alloc(), layout)?;
        let one = region.deal(&mut dealer);
        let two = region.deal(&mut dealer);
        let three = region.deal(&mut dealer);
        let four = region.deal(&mut dealer);
        let five = region.deal(&mut dealer);
        let hints = [
            one.hint().0,
            two.hint().0,
            three.hint().0,
            four.hint().0,
            five.hint().0,
        ];
        assert_eq!(rt; hints, [1, 2, 3, 5, 6]);
        Ok(())
    }

    // Where an allocation fails (`rt try --test --fail-alloc N`) that region is not made, and the others are.
    #[test]
    fn a_region_is_made_after_one_that_was_not(rt: HostRuntime) -> Result<(), Fail> {
        let layout = Layout {
            pages: 4,
            numbers: 2,
            transactions: 1,
            seats: 1,
        };
        let mut failed = 0u32;
        for _ in 0..8u32 {
            match Region::make(rt.alloc(), layout) {
                Ok((region, mut dealer)) => {
                    let mut grip = region.deal(&mut dealer);
                    register(&mut grip);
                    assert_eq!(rt; claim(&mut grip, Cid(0)), Ok(Phys(3)));
                }
                Err(_) => failed = failed.saturating_add(1),
            }
        }
        assert!(rt; failed < 2);
        Ok(())
    }

    #[test]
    fn a_row_is_written_and_read(rt: HostRuntime) -> Result<(), Fail> {
        let layout = Layout {
            pages: 5,
            numbers: 2,
            transactions: 1,
            seats: 1,
        };
        let (region, mut dealer) = Region::make(rt.alloc(), layout)?;
        let mut grip = region.deal(&mut dealer);
        register(&mut grip);
        assert_eq!(rt;
            write_and_read(&mut grip, u64::MAX),
            Ok((u64::MAX, u64::MAX))
        );
        assert_eq!(rt; write_and_read(&mut grip, 5), Ok((5, 5)));
        assert_eq!(rt; grip.load_row(Phys(3), 255), u64::MAX);
        assert_eq!(rt; grip.load_row(Phys(5), 255), 0);
        Ok(())
    }

    // The words before the first that is 0 up to the end, from the table of the layout: a leaf of number 1 with no entry and
    // 4 used words, and an inner page of number 2 and level 1, whose one entry is at word 5 and names number 1.
    #[test]
    fn the_first_pages_are_a_leaf_and_an_inner_page(rt: HostRuntime) -> Result<(), Fail> {
        let layout = Layout {
            pages: 3,
            numbers: 2,
            transactions: 1,
            seats: 1,
        };
        let (region, mut dealer) = Region::make(rt.alloc(), layout)?;
        let mut grip = region.deal(&mut dealer);
        register(&mut grip);
        let leaf: [u64; 3] = [
            0x0100_0000_0004_0001,
            0x0000_0001_0000_0000,
            0x0004_0000_0000_0000,
        ];
        let inner: [u64; 6] = [
            0x0201_0001_0006_0001,
            0x0000_0002_0000_0000,
            0x0006_0000_0000_0000,
            0,
            0x0005_0000_0000_0000,
            0x0000_0001_0000_0000,
        ];
        let mut first = Page { words: [7; 256] };
        grip.read_page(Phys(1), &mut first);
        let mut second = Page { words: [7; 256] };
        grip.read_page(Phys(2), &mut second);
        let mut wanted = Page { words: [0; 256] };
        wanted.words[..3].copy_from_slice(&leaf);
        assert_eq!(rt; first.words, wanted.words);
        wanted.words[..6].copy_from_slice(&inner);
        assert_eq!(rt; second.words, wanted.words);
        assert_eq!(rt; word_of(&mut grip, Phys(1)), PageWord::Mapped(Logical(1)));
        assert_eq!(rt; word_of(&mut grip, Phys(2)), PageWord::Mapped(Logical(2)));
        assert_eq!(rt; word_of(&mut grip, Phys(3)), PageWord::Free);
        Ok(())
    }

    #[test]
    fn whole_rows_are_written(rt: HostRuntime) -> Result<(), Fail> {
        let layout = Layout {
            pages: 4,
            numbers: 2,
            transactions: 1,
            seats: 2,
        };
        let (region, mut dealer) = Region::make(rt.alloc(), layout)?;
        let mut one = region.deal(&mut dealer);
        let mut two = region.deal(&mut dealer);
        register(&mut one);
        register(&mut two);
        let note = one.tell();
        two.learn(note);
        let mut page = Page { words: [3; 256] };
        let mut read = Page { words: [0; 256] };
        assert_eq!(rt; rewrite(&mut one, &page, &mut read), Ok(Phys(3)));
        assert_eq!(rt; read.words, page.words);
        page.words[0] = u64::MAX;
        page.words[100] = 0;
        page.words[255] = 9;
        assert_eq!(rt; rewrite(&mut one, &page, &mut read), Ok(Phys(3)));
        assert_eq!(rt; read.words, page.words);
        two.read_page(Phys(3), &mut read);
        assert_eq!(rt; read.words, page.words);
        assert_eq!(rt;
            thread_page(&mut two, 1, 3),
            Ok(PageWord::Owned { seat: 1, next: 3 })
        );
        Ok(())
    }
}

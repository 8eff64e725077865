// Whether two refusals are the same, by their tags and arguments.
ghost use Rattle.std.specs.Prelude.{◌≡◌, ◌↔◌, IsTrue};
ghost use Rattle.hc_transcript.specs.Table.{line_told};
ghost use Rattle.hc_transcript.specs.Parts.{held, parts_of, parts_shown};

use crate::Refusal;
use crate::table::Told;
use crate::tag::RefusalTag;

// A tag with its arguments, and zeros and nothing in place of those that it has not.
#[derive(Debug, Clone, Copy)]
struct Parts<'a> {
    tag: RefusalTag,
    first: u64,
    second: u64,
    item: i64,
    name: &'a [u8],
    other: &'a [u8],
}

impl Refusal {
    /// Whether they are the same refusal, with the same numbers and names.
    pub fn is_same(&self, other: &Refusal) -> bool
        ensures { IsTrue result ↔ (self.now ≡ other.now) }
    {
        are_same(&parts_of(self.told()), &parts_of(other.told()))
    }
}

fn are_same(one: &Parts<'_>, other: &Parts<'_>) -> bool
    ensures { IsTrue result ↔ (parts_shown one.now ≡ parts_shown other.now) }
{
    one.tag == other.tag
        && one.first == other.first
        && one.second == other.second
        && one.item == other.item
        && one.name == other.name
        && one.other == other.other
}

fn parts_of<'a>(told: Told<'a>) -> Parts<'a>
    ensures { parts_shown result ≡ parts_of (line_told told.entry) }
{
    match told {
        Told::Bare(tag) => make_parts(RefusalTag::Bare(tag), 0, 0, 0, &[], &[]),
        Told::Number(tag, n) => make_parts(RefusalTag::Number(tag), u64::from(n), 0, 0, &[], &[]),
        Told::Name(tag, name) => make_parts(RefusalTag::Name(tag), 0, 0, 0, name.as_bytes(), &[]),
        Told::Names(tag, table, name) => {
            let name = name.as_bytes();
            make_parts(RefusalTag::Names(tag), 0, 0, 0, table.as_bytes(), name)
        }
        Told::Numbers(tag, first, second) => {
            let (first, second) = (u64::from(first), u64::from(second));
            make_parts(RefusalTag::Numbers(tag), first, second, 0, &[], &[])
        }
        Told::NoItem(item) => make_parts(RefusalTag::NoItem, 0, 0, item, &[], &[]),
        Told::TooBig(length) => make_parts(RefusalTag::TooBig, length, 0, 0, &[], &[]),
        Told::Busy(conn, ord, key) => {
            let (conn, ord) = (u64::from(conn), u64::from(ord));
            make_parts(RefusalTag::Busy, conn, ord, 0, key.as_slice(), &[])
        }
    }
}

fn make_parts<'a>(
    tag: RefusalTag,
    first: u64,
    second: u64,
    item: i64,
    name: &'a [u8],
    other: &'a [u8],
) -> Parts<'a>
    ensures { parts_shown result ≡ held tag first second item name.now other.now }
{
    Parts {
        tag,
        first,
        second,
        item,
        name,
        other,
    }
}

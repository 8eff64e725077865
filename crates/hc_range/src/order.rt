// The order of byte strings.
ghost use Rattle.std.specs.Prelude.{◌≡◌};
ghost use Rattle.hc_range.specs.Order.{is_below};

/// Whether one byte string comes before another: they compare by the first byte in which they differ,
/// and a proper prefix comes first.
pub fn is_below(a: &[u8], b: &[u8]) -> bool
    ensures { result ≡ is_below a.now b.now }
{
    a.cmp(&b).is_lt()
}

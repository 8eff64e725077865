// Names.
ghost use Rattle.std.specs.Prelude.{◌≡◌};
ghost use Rattle.hc_schema.specs.Binding.Names.{same_name};

use hc_text::is_same_name;

/// Whether two names are the same, in letters of any case.
pub fn is_same(a: &str, b: &str) -> bool
    ensures { result ≡ same_name a.now b.now }
{
    is_same_name(a, b)
}

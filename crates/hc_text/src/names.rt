ghost use Rattle.std.specs.Prelude.{◌↔◌, IsTrue};
ghost use Rattle.hc_text.specs.Names.{SameName};

/// Whether two names are the same. They differ at most in the case of ASCII letters then.
pub fn is_same_name(a: &str, b: &str) -> bool
    ensures { IsTrue result ↔ SameName a.now b.now }
{
    a.eq_ignore_ascii_case(b)
}

//! Whether several things hold.
ghost use Rattle.std.specs.Prelude.{◌↔◌, IsTrue};

pub(crate) fn both(first: bool, second: bool) -> bool
    ensures { IsTrue result ↔ (IsTrue first × IsTrue second) }
{
    first && second
}

pub(crate) fn all_three(first: bool, second: bool, third: bool) -> bool
    ensures { IsTrue result ↔ (IsTrue first × IsTrue second × IsTrue third) }
{
    first && second && third
}

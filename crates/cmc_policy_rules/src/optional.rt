// Copies and comparisons of optional values, one function a type, so that the long chains of
// comparisons of policies need no case of their own.
ghost use Rattle.std.specs.Prelude.{◌≡◌, ◌↔◌, IsTrue};

pub fn same_u32(left: Option<u32>, right: Option<u32>) -> bool
    ensures { IsTrue result ↔ (left ≡ right) }
{
    left == right
}

pub fn same_u64(left: Option<u64>, right: Option<u64>) -> bool
    ensures { IsTrue result ↔ (left ≡ right) }
{
    left == right
}

pub fn same_bool(left: Option<bool>, right: Option<bool>) -> bool
    ensures { IsTrue result ↔ (left ≡ right) }
{
    left == right
}

// Comparisons of optional numbers, one function a type, so that the long chains of comparisons above need no case of
// their own.
ghost use Rattle.std.specs.Prelude.{◌≡◌, ◌↔◌, IsTrue};

pub fn same_u32(left: Option<u32>, right: Option<u32>) -> bool
    ensures { IsTrue result ↔ (left ≡ right) }
{
    left == right
}

pub fn same_u64(left: Option<u64>, right: Option<u64>) -> bool
    ensures { IsTrue result ↔ (left ≡ right) }
{
    left == right
}

pub fn same_moment(left: Option<i64>, right: Option<i64>) -> bool
    ensures { IsTrue result ↔ (left ≡ right) }
{
    left == right
}

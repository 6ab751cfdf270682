// Texts in the order of their bytes, with ASCII letters folded.
ghost use Rattle.std.specs.Prelude.{◌≡◌};
ghost use Rattle.std.specs.Ordering.{nat_cmp};
ghost use Rattle.std.specs.Cmp.Lexicographic.{slice_cmp};
ghost use Rattle.o2_ne.specs.NameOrder.{folded};

use std::cmp::Ordering;

// How two texts compare, with ASCII letters folded.
pub(crate) fn compare_folded(a: &[u8], b: &[u8]) -> Ordering
    ensures { result ≡ slice_cmp nat_cmp (folded a.now) (folded b.now) }
{
    let common = a.len().min(b.len());
    for i in 0..common {
        let x = a[i].to_ascii_lowercase();
        let y = b[i].to_ascii_lowercase();
        if x != y {
            return x.cmp(&y);
        }
    }
    a.len().cmp(&b.len())
}

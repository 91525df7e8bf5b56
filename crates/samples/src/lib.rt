// Pages to try the planner on.
#![tactic(auto)]

ghost use Rattle.std.specs.Prelude.{◌≡◌, take, drop, IfOk};
ghost use Rattle.samples.specs.Patched.{patched_with};

use std::alloc::{AllocError, Global};

// The small farm: material 1 is wanted, 2 is bought, 3 and 4 are plain; unit 1 takes 2 and makes 1 and 3,
// unit 2 takes 4 and makes 1.
pub const SMALL_FARM: &[u8] =
    b"    4    2\nP    1\nR    2\n-    3\n-    4\nS    1    2                                       1    3                              \nS    2    4                                       1                                   \n";

// A farm whose one unit has all sixteen fields of its line filled.
pub const FULL_LINE: &[u8] =
    b"    8    1\nP    1\nR    2\n-    3\n-    4\n-    5\n-    6\n-    7\n-    8\nS    1    1    2    3    4    5    6    7    8    1    2    3    4    5    6    7    8\n";

// A page of six plain materials and five free numbers.
pub const BLANK_FARM: &[u8] =
    b"    6    5\n-    1\n-    2\n-    3\n-    4\n-    5\n-    6\n-    1                                                                                \n-    2                                                                                \n-    3                                                                                \n-    4                                                                                \n-    5                                                                                \n";

// The first so many items, or all where there are no more.
pub fn front<T>(items: &[T], count: usize) -> &[T]
    ensures { result.now ≡ take count items.now }
{
    items.get(..count).unwrap_or(items)
}

// The items behind the first so many, or none where there are no more.
fn rest<T>(items: &[T], count: usize) -> &[T]
    ensures { result.now ≡ drop count items.now }
{
    items.get(count..).unwrap_or(&[])
}

// The page with other bytes from `at` on; past its end they are added.
pub fn patched(heap: Global, page: &[u8], at: usize, patch: &[u8]) -> Result<Vec<u8>, AllocError>
    ensures { IfOk result (λ v. v.items ≡ patched_with page.now at patch.now) }
{
    let behind = rest(rest(page, at), patch.len());
    [front(page, at), patch, behind].concat(heap)
}

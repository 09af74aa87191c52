// Items with the hashes of their names.
ghost use Rattle.std.specs.Prelude.{◌≡◌, ◌≤◌, length, drop};
ghost use Rattle.numbering.specs.HashedItems.{hashed_run, hashed_item};

use lines::scan;
use name_store::index;

// A name behind `gap` spaces, by its length and its hash.
#[derive(Clone, Copy)]
pub struct HashedItem {
    pub gap: usize,
    pub size: usize,
    pub hash: usize,
}

// The name at `at`, in one walk for its end and its hash.
fn hashed_run_at(s: &[u8], at: usize, gap: usize) -> HashedItem
    requires { at ≤ length s.now }
    ensures { result ≡ hashed_run gap (drop at s.now) }
{
    let mut hash: usize = 0;
    for i in at..s.len() {
        if scan::is_delimiter(s[i]) {
            return HashedItem {
                gap,
                size: i - at,
                hash,
            };
        }
        hash = index::hash_step(hash, s[i]);
    }
    HashedItem {
        gap,
        size: s.len() - at,
        hash,
    }
}

// The item at `at` with its hash, unless anything else stands there.
pub fn hashed_item_at(s: &[u8], at: usize) -> Option<HashedItem>
    requires { at ≤ length s.now }
    ensures { result ≡ hashed_item (drop at s.now) }
{
    let gap = scan::gap_at(s, at);
    let start = at + gap;
    if s.len() <= start {
        return None;
    }
    if scan::is_delimiter(s[start]) {
        return None;
    }
    Some(hashed_run_at(s, start, gap))
}

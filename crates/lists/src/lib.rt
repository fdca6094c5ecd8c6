//! Walks over a slice. Every public function answers for every input.
#![tactic(auto)]

ghost use Rattle.std.specs.Prelude.{◌≡◌, ◌≤◌, length};
ghost use Rattle.scope.specs.Words.{◌∈◌, count, first_of, latest_of, same_list};

/// How often a value is in a slice of at most 1,024 words. The count is as wide as the words, so that many are compared at a time.
fn few(s: &[u32], v: u32) -> u32
    requires { length s.now ≤ 1024 }
    ensures value { result ≡ count v s.now }
    ensures within { result ≤ length s.now }
{
    let mut n: u32 = 0;
    for x in s {
        if *x == v {
            n += 1;
        }
    }
    n
}

/// How often a value is in a slice.
pub fn count_of(s: &[u32], v: u32) -> usize
    ensures { result ≡ count v s.now }
{
    let mut n = 0;
    let mut rest = s;
    while let Some((block, after)) = rest.split_first_chunk::<1024>() {
        n += few(block, v) as usize;
        rest = after;
    }
    n + few(rest, v) as usize
}

/// Whether a value is in a slice.
#[tactic(auto, using(crate::proofs::Finding::in_list))]
pub fn occurs(s: &[u32], v: u32) -> bool
    ensures { result ≡ (v ∈ s.now) }
{
    s.contains(&v)
}

/// The smallest index of a value, or nothing.
pub fn find_first(s: &[u32], v: u32) -> Option<usize>
    ensures { result ≡ first_of v s.now }
{
    s.iter().position(|x| *x == v)
}

/// The largest index of a value, or nothing. Blocks without the value are passed over whole.
#[tactic(auto, using(crate::proofs::Blocks::last_walk), unfolding(scope::specs::Words::latest_of))]
pub fn find_last(s: &[u32], v: u32) -> Option<usize>
    ensures { result ≡ latest_of v s.now }
{
    let mut rest = s;
    while let Some((before, block)) = rest.split_last_chunk::<64>() {
        if 0 < few(block, v) {
            break;
        }
        rest = before;
    }
    for k in (0..rest.len()).rev() {
        if rest[k] == v {
            return Some(k);
        }
    }
    None
}

/// Whether two slices have the same values in the same order.
#[tactic(auto, using(crate::proofs::Finding::same_slices))]
pub fn equal(a: &[u32], b: &[u32]) -> bool
    ensures { result ≡ same_list a.now b.now }
{
    a == b
}

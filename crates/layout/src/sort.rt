// Handles in the byte order of their types' names: a stable merge sort, and of two of one name the later.
ghost use Rattle.std.specs.Prelude.{ℕ, ◌+◌, ◌≤◌, ◌<◌, ◌≡◌, length, take, drop};
ghost use Rattle.record.specs.Base.{Str};
ghost use Rattle.layout.specs.Handles.{type_name};
ghost use Rattle.layout.specs.Fronts.{Fronts};
ghost use Rattle.layout.specs.Sort.{arranged, second_next, merge, chunks, halves, Bounded, ends_run, lasts, ascends};

use crate::fronts::fronted_before;
use crate::names::type_before;

// Whether the next of two lists is the second's: where the first is at its end, or the second's name goes before.
fn second_next(
    stream: &[u8],
    pool: &[u8],
    fronts: &[u64],
    left: &[u32],
    right: &[u32],
    i: usize,
    j: usize,
) -> bool
    requires { Fronts stream.now pool.now fronts.now }
    ensures { let key : ℕ → Str = type_name stream.now pool.now in
        result ≡ second_next key (drop i left.now) (drop j right.now) }
{
    if left.len() <= i {
        return true;
    }
    if right.len() <= j {
        return false;
    }
    fronted_before(stream, pool, fronts, right[j], left[i])
}

// Two lists of handles, merged.
fn merge_runs(
    stream: &[u8],
    pool: &[u8],
    fronts: &[u64],
    left: &[u32],
    right: &[u32],
    out: &mut [u32],
)
    requires { (length out.old ≡ length left.now + length right.now) × Fronts stream.now pool.now fronts.now }
    ensures { let key : ℕ → Str = type_name stream.now pool.now in
        out.new ≡ merge key left.now right.now }
{
    let mut i = 0;
    let mut j = 0;
    for slot in out.iter_mut() {
        if second_next(stream, pool, fronts, left, right, i, j) {
            *slot = right[j];
            j += 1;
        } else {
            *slot = left[i];
            i += 1;
        }
    }
}

// w past a, and no further than n.
fn bound(a: usize, w: usize, n: usize) -> usize
    requires { a ≤ n }
    ensures { Bounded a w n result }
{
    a + w.min(n - a)
}

// Each two stretches of w handles merged.
fn pass(stream: &[u8], pool: &[u8], fronts: &[u64], src: &[u32], dst: &mut [u32], w: usize)
    requires { (0 < w) × (length dst.old ≡ length src.now) × Fronts stream.now pool.now fronts.now }
    ensures { let key : ℕ → Str = type_name stream.now pool.now in
        dst.new ≡ chunks (halves key w) (w + w) src.now }
{
    let n = src.len();
    let mut lo = 0;
    while lo < n {
        let mid = bound(lo, w, n);
        let hi = bound(mid, w, n);
        merge_runs(
            stream,
            pool,
            fronts,
            &src[lo..mid],
            &src[mid..hi],
            &mut dst[lo..hi],
        );
        lo = hi;
    }
}

// The handles in byte order of their types' names; those of one name stay in their order.
pub(crate) fn sort_handles(
    stream: &[u8],
    pool: &[u8],
    fronts: &[u64],
    handles: &mut [u32],
    scratch: &mut [u32],
)
    requires { (length scratch.old ≡ length handles.old) × (length handles.old ≤ 65536) × Fronts stream.now pool.now fronts.now }
    ensures { let key : ℕ → Str = type_name stream.now pool.now in
        handles.new ≡ arranged key handles.old }
{
    let mut w = 1;
    while w < handles.len() {
        pass(stream, pool, fronts, handles, scratch, w);
        let v = w + w;
        pass(stream, pool, fronts, scratch, handles, v);
        w = v + v;
    }
}

// Whether a handle is the last of its name.
fn ends_run(stream: &[u8], pool: &[u8], fronts: &[u64], handles: &[u32], i: usize) -> bool
    requires { (i < length handles.now) × Fronts stream.now pool.now fronts.now }
    ensures { let key : ℕ → Str = type_name stream.now pool.now in
        result ≡ ends_run key (drop i handles.now) }
{
    let j = i + 1;
    if handles.len() <= j {
        return true;
    }
    fronted_before(stream, pool, fronts, handles[i], handles[j])
}

// The last handle of each name, moved to the front; and how many they are.
pub(crate) fn keep_last(stream: &[u8], pool: &[u8], fronts: &[u64], handles: &mut [u32]) -> usize
    requires { Fronts stream.now pool.now fronts.now }
    ensures { let key : ℕ → Str = type_name stream.now pool.now in
        (take result handles.new ≡ lasts key handles.old) × (result ≤ length handles.old) }
{
    let mut n = 0;
    for i in 0..handles.len() {
        if ends_run(stream, pool, fronts, handles, i) {
            handles[n] = handles[i];
            n += 1;
        }
    }
    n
}

// Whether each handle's name goes before the next one's.
pub(crate) fn ascending(stream: &[u8], pool: &[u8], handles: &[u32]) -> bool
    ensures { let key : ℕ → Str = type_name stream.now pool.now in
        result ≡ ascends key handles.now }
{
    handles.is_sorted_by(|g, h| type_before(stream, pool, *g, *h))
}

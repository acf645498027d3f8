// Parts of a slice, for every place: what reaches past the end is cut off.
ghost use Rattle.std.specs.Prelude.{◌≡◌, take, drop};
ghost use Rattle.record.specs.Cut.{place_of, before_byte, after_byte};

// The first bytes, at most so many.
pub fn upto(s: &[u8], end: usize) -> &[u8]
    ensures { result.now ≡ take end s.now }
{
    if s.len() <= end {
        return s;
    }
    &s[0..end]
}

// The bytes from a place on.
pub fn from(s: &[u8], at: usize) -> &[u8]
    ensures { result.now ≡ drop at s.now }
{
    let n = s.len();
    if n <= at {
        return &s[n..n];
    }
    &s[at..n]
}

// The place of the first byte that is b, and the length where there is none.
pub fn place_of(s: &[u8], b: u8) -> usize
    ensures { result ≡ place_of b s.now }
{
    s.iter().position(|x| *x == b).unwrap_or(s.len())
}

// The bytes before the first b.
pub fn before_byte(s: &[u8], b: u8) -> &[u8]
    ensures { result.now ≡ before_byte b s.now }
{
    upto(s, place_of(s, b))
}

// The bytes after the first b.
pub fn after_byte(s: &[u8], b: u8) -> &[u8]
    ensures { result.now ≡ after_byte b s.now }
{
    let at = place_of(s, b);
    if s.len() <= at {
        return from(s, at);
    }
    from(s, at + 1)
}

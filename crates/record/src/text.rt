// Texts: stretches of a pool of bytes.
ghost use Rattle.std.specs.Prelude.{◌≡◌};
ghost use Rattle.record.specs.Base.{eqs};
ghost use Rattle.record.specs.Stretch.{text_of};

// A text: len bytes of the pool, from start. What reaches past the pool's end is cut off.
#[derive(Clone, Copy)]
pub struct Text {
    pub start: u16,
    pub len: u8,
}

// The bytes of a text.
pub fn bytes_of(pool: &[u8], t: Text) -> &[u8]
    ensures { result.now ≡ text_of pool.now t }
{
    let n = pool.len();
    let a = t.start as usize;
    if n <= a {
        return &pool[n..n];
    }
    let k = t.len as usize;
    if n - a <= k {
        return &pool[a..n];
    }
    let e = a + k;
    &pool[a..e]
}

// Whether two texts are the same: by their lengths, then from the back (02, W-203).
pub fn same(a: &[u8], b: &[u8]) -> bool
    ensures { result ≡ eqs a.now b.now }
{
    texts::back::same(a, b)
}

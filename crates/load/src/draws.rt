// The draws of 02, W-213.
ghost use Rattle.std.specs.Prelude.{◌≡◌, ◌<◌};
ghost use Rattle.load.specs.Draws.{next_seed, seed_after, draw};

// The next seed.
fn next_seed(seed: u32) -> u32
    ensures { result ≡ next_seed seed }
{
    ((u64::from(seed) * 1103515245 + 12345) % 2147483648) as u32
}

// The seed after k draws.
pub(crate) fn seed_after(seed: u32, k: u32) -> u32
    ensures { result ≡ seed_after k seed }
{
    let mut s = seed;
    for _ in 0..k {
        s = next_seed(s);
    }
    s
}

// The k-th draw from a seed, below n.
pub(crate) fn draw(seed: u32, k: u32, n: u32) -> u32
    requires { 0 < n }
    ensures { (result ≡ draw seed k n) × (result < n) }
{
    seed_after(seed, k) / 65536 % n
}

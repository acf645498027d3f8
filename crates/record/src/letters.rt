// The letters of a pool.
ghost use Rattle.std.specs.Prelude.{◌≡◌};
ghost use Rattle.record.specs.Letters.{odd_letter};

// The first ill-formed sequence or control byte of a pool.
pub fn odd_letter(pool: &[u8]) -> Option<usize>
    ensures { result ≡ odd_letter pool.now }
{
    let at = texts::utf8::odd_letter(pool);
    if at == pool.len() {
        return None;
    }
    Some(at)
}

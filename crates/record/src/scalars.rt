// Scalar words: a table of bytes, rows of nine. A row is a word, filled up with zeros to eight bytes, and its size.
ghost use Rattle.std.specs.Prelude.{◌+◌, ◌≤◌, ◌≡◌, ◌||◌, eqb, length, take, drop, get_or};
ghost use Rattle.record.specs.Base.{eqs};
ghost use Rattle.record.specs.Scalars.{before_zero, scalars_of, prim_size, built_in_rows};

use crate::cut::place_of;
use crate::text::same;

// Whether the word of a row can be of so many bytes, at most eight: a 0 follows them, or the row has no more.
fn row_ends(row: &[u8], n: usize) -> bool
    requires { (9 ≤ length row.now) × (n ≤ 8) }
    ensures { result ≡ (eqb n 8 || eqb (get_or row.now n 0) 0) }
{
    n == 8 || row[n] == 0
}

// Whether a row is of a word: by the lengths, then the bytes. A word with a 0 in it is no row's.
fn row_is(row: &[u8], word: &[u8]) -> bool
    requires { 9 ≤ length row.now }
    ensures { result ≡ eqs (before_zero (take 8 row.now)) word.now }
{
    let n = word.len();
    if 8 < n || !row_ends(row, n) {
        return false;
    }
    same(&row[..n], word) && place_of(word, 0) == n
}

// The size of the first row of a word, and 0 where the table has no such row. A last part shorter than nine is no row.
pub fn prim_size(rows: &[u8], word: &[u8]) -> u32
    ensures { result ≡ prim_size (scalars_of rows.now) word.now }
{
    for row in rows.chunks_exact(9) {
        if row_is(row, word) {
            return u32::from(row[8]);
        }
    }
    0
}

// The table of the words that every schema has.
pub fn built_in() -> [u8; 36]
    ensures { result ≡ built_in_rows }
{
    *b"char\x00\x00\x00\x00\x01u16\x00\x00\x00\x00\x00\x02u32\x00\x00\x00\x00\x00\x04u8\x00\x00\x00\x00\x00\x00\x01"
}

// The operands of a command by their letters.
ghost use Rattle.std.specs.Prelude.{◌≡◌, ◌≤◌, length};
ghost use Rattle.record.specs.Commands.{operands, wide};
ghost use Rattle.drafts.specs.Code.{or_none};

// The letters of the operands of a command; a number that is no command's has none.
pub(crate) fn letters_of(byte: u8) -> &'static [u8]
    ensures { (result.now ≡ or_none (operands byte)) × (length result.now ≤ 8) }
{
    match byte {
        1 => b"!F",
        2 => b"TFV?FO",
        3 => b"TT",
        4 => b"TWFO",
        5 => b"TVO",
        6 => b"TW!",
        7 => b"TWNO",
        8 => b"TOO",
        9 => b"TTTTOF",
        10 => b"T",
        11 => b"TTOONNNN",
        12 => b"T!",
        13 => b"T!",
        14 => b"TW",
        15 => b"",
        _ => b"",
    }
}

// The bytes of an operand.
pub(crate) fn wide(letter: u8) -> usize
    ensures { (result ≡ wide letter) × (result ≤ 8) }
{
    match letter {
        b'F' => 1,
        b'W' => 4,
        b'V' => 8,
        b'N' => 5,
        _ => 3,
    }
}

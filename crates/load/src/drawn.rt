// Texts by a small number, and drawn fields. A text is a place of the pool: specs/Pool names them all.
ghost use Rattle.std.specs.Prelude.{◌≡◌, ◌+◌, ◌<◌, ◌≤◌, ◌%◌};
ghost use Rattle.load.specs.Pool.{at, absent, k·scalar, k·inline-array, k·inline-array2d, k·padding, struct_text, field_text};
ghost use Rattle.load.specs.Range.{InRange};
ghost use Rattle.load.specs.Draws.{scalar_text, retyped_text, enum_text, alias_text, slot_text, now_text, was_text};
ghost use Rattle.load.specs.Draws.{plain_field, array_field, grid_field, padding_field, field_as, kind_at, field_drawn};

use crate::commands::FieldCommand;
use crate::draws::draw;
use crate::settings::Setting;
use record::text::Text;

// A scalar word by its number.
pub(crate) fn scalar_text(n: u32) -> Text
    ensures { result ≡ scalar_text n }
{
    match n {
        0 => Text { start: 959, len: 2 },
        1 => Text { start: 961, len: 3 },
        2 => Text { start: 964, len: 3 },
        _ => Text { start: 967, len: 4 },
    }
}

fn enum_text(n: u32) -> Text
    ensures { result ≡ enum_text n }
{
    match n {
        0 => Text { start: 856, len: 6 },
        _ => Text { start: 874, len: 4 },
    }
}

fn alias_text(n: u32) -> Text
    ensures { result ≡ alias_text n }
{
    match n {
        0 => Text { start: 847, len: 5 },
        _ => Text { start: 852, len: 4 },
    }
}

// A structure's name.
pub(crate) fn struct_text(l: u32, i: u32) -> Text
    requires l_bound { l < 14 }
    requires i_bound { i < 8 }
    ensures { result ≡ struct_text l i }
{
    Text {
        start: (16 * i) as u16,
        len: (3 + (l + i) % 14) as u8,
    }
}

// For 36, a scalar word of another size.
pub(crate) fn retyped_text(n: u32) -> Text
    ensures { result ≡ retyped_text n }
{
    match n {
        0 => Text { start: 961, len: 3 },
        1 => Text { start: 964, len: 3 },
        2 => Text { start: 967, len: 4 },
        _ => Text { start: 964, len: 3 },
    }
}

// The root's slot.
pub(crate) fn slot_text(n: u32) -> Text
    ensures { result ≡ slot_text n }
{
    match n {
        0 => Text { start: 784, len: 8 },
        1 => Text { start: 792, len: 7 },
        _ => Text { start: 799, len: 4 },
    }
}

// The current release, and the released one.
pub(crate) fn now_text(n: u32) -> Text
    ensures { result ≡ now_text n }
{
    match n {
        0 => Text { start: 757, len: 5 },
        1 => Text { start: 762, len: 6 },
        2 => Text { start: 768, len: 5 },
        _ => Text { start: 778, len: 6 },
    }
}

pub(crate) fn was_text(n: u32) -> Text
    ensures { result ≡ was_text n }
{
    match n {
        0 => Text { start: 752, len: 5 },
        1 => Text { start: 757, len: 5 },
        2 => Text { start: 762, len: 6 },
        _ => Text { start: 773, len: 5 },
    }
}

// A field's name.
pub(crate) fn field_text(l: u32, i: u32) -> Text
    requires { (l < 14) × (i < 19) }
    ensures { result ≡ field_text l i }
{
    Text {
        start: (128 + 16 * i) as u16,
        len: (3 + (l + i) % 14) as u8,
    }
}

// No text.
pub(crate) const ABSENT: Text = Text {
    start: 65535,
    len: 0,
};

// A field without numbers.
fn plain(name: Text, kind: Text, typ: Text, element: Text) -> FieldCommand
    ensures { result ≡ plain_field name kind typ element }
{
    FieldCommand {
        name,
        kind,
        typ,
        element,
        count: None,
        rows: None,
        cols: None,
        size: None,
    }
}

// A field of a kind whose word stands at a place of the pool: one with a type.
fn typed(name: Text, start: u16, len: u8, typ: Text) -> FieldCommand
    ensures { result ≡ plain_field name (at start len) typ absent }
{
    plain(name, Text { start, len }, typ, ABSENT)
}

// One with an element.
fn of_element(name: Text, start: u16, len: u8, element: Text) -> FieldCommand
    ensures { result ≡ plain_field name (at start len) absent element }
{
    plain(name, Text { start, len }, ABSENT, element)
}

// One with neither.
fn untyped(name: Text, start: u16, len: u8) -> FieldCommand
    ensures { result ≡ plain_field name (at start len) absent absent }
{
    plain(name, Text { start, len }, ABSENT, ABSENT)
}

// An array of n + 1 elements.
fn array(name: Text, element: Text, n: u32) -> FieldCommand
    requires { n < 8 }
    ensures { result ≡ array_field name k·inline-array element (n + 1) }
{
    FieldCommand {
        count: Some(n + 1),
        ..of_element(name, 512, 12, element)
    }
}

// An array of n + 1 rows and t + 1 columns.
fn grid(name: Text, element: Text, n: u32, t: u32) -> FieldCommand
    requires n_bound { n < 8 }
    requires t_bound { t < 8 }
    ensures { result ≡ grid_field name k·inline-array2d element (n + 1) (t + 1) }
{
    FieldCommand {
        rows: Some(n + 1),
        cols: Some(t + 1),
        ..of_element(name, 532, 14, element)
    }
}

// Padding of n + 1 bytes.
fn padding(name: Text, n: u32) -> FieldCommand
    requires { n < 8 }
    ensures { result ≡ padding_field name k·padding (n + 1) }
{
    FieldCommand {
        size: Some(n + 1),
        ..untyped(name, 712, 7)
    }
}

// A field by its name, its kind's number, and two draws below 8; l has the lengths of names, a the number of structures.
pub(crate) fn field_as(l: u32, a: u32, name: Text, k: u32, n: u32, t: u32) -> FieldCommand
    requires l_bound { l < 14 }
    requires a_nonzero { 0 < a }
    requires a_bound { a ≤ 8 }
    requires n_bound { n < 8 }
    requires t_bound { t < 8 }
    ensures { result ≡ field_as (kind_at k) l a name n t }
{
    match k {
        0 => typed(name, 432, 6, scalar_text(t % 4)),
        1 => typed(name, 452, 4, enum_text(t % 2)),
        2 => typed(name, 472, 10, alias_text(t % 2)),
        3 => typed(name, 492, 8, Text { start: 891, len: 5 }),
        4 => array(name, scalar_text(t % 4), n),
        5 => grid(name, scalar_text(t % 4), n, t),
        6 => untyped(name, 552, 8),
        7 => typed(name, 572, 10, struct_text(l, t % a)),
        8 => of_element(name, 592, 16, struct_text(l, t % a)),
        9 => of_element(name, 612, 20, struct_text(l, t % a)),
        10 => typed(name, 632, 14, Text { start: 904, len: 5 }),
        11 => typed(name, 652, 14, Text { start: 930, len: 6 }),
        12 => untyped(name, 672, 10),
        13 => untyped(name, 692, 6),
        14 => padding(name, n),
        _ => untyped(name, 732, 6),
    }
}

// A scalar field.
pub(crate) fn scalar_field(name: Text, word: Text) -> FieldCommand
    ensures { result ≡ plain_field name k·scalar word absent }
{
    typed(name, 432, 6, word)
}

// The field of an index, from a seed.
pub(crate) fn field_drawn(g: Setting, seed: u32, j: u32) -> FieldCommand
    requires { InRange g × (j < 19) }
    ensures { result ≡ field_drawn g seed j }
{
    let k = draw(seed, 1, 16);
    let n = draw(seed, 2, 8);
    let t = draw(seed, 3, 8);
    let name = field_text(g.lengths, j);
    field_as(g.lengths, g.structs, name, k, n, t)
}

// A message written from a template, whose bytes below 32 are the numbers of arguments.
ghost use Rattle.std.specs.Prelude.{◌≡◌, [], ◌∷◌, ◌+◌, ◌*◌, ◌≤◌, length, take};
ghost use Rattle.record.specs.Base.{Str};
ghost use Rattle.record.specs.Write.{Puts};
ghost use Rattle.verdicts.specs.Template.{arg_of, pick_of, filled, Writes};
ghost use Rattle.verdicts.specs.declared.template.Arg.TheVariants.{Nothing};

use crate::arguments::{
    ConstantValue, Item, put_change, put_copy, put_item, put_standing, put_value,
};
use layout::names::{TypeName, put_name};
use record::cut::upto;
use record::describe::{Description, put_description};
use record::text::Text;
use record::writer::{put, put_number, put_signed, put_text};

// An argument of a message. What is Now has its texts in the current record's pool, what Was in the released one's.
#[derive(Clone, Copy)]
pub enum Arg {
    Nothing,
    Byte(u8),
    Now(Text),
    Was(Text),
    Number(u64),
    // A number in two's complement at 64 bits.
    Signed(u64),
    NowItem(Item),
    // The release of the copy, if it names one.
    WasCopy(Option<Text>),
    NowValue(ConstantValue),
    WasValue(ConstantValue),
    NowType(TypeName),
    WasType(TypeName),
    NowShape(Description),
    WasShape(Description),
    // Whether a family stands alone.
    Standing(bool),
    // The field that a layout gained, if it gained one.
    NowChange(Option<Text>),
}

// What a template's byte stands for: below 32 the argument of that number, else itself.
fn pick(b: u8, args: [Arg; 5]) -> Arg
    ensures { result ≡ pick_of args b }
{
    if 32 <= b {
        return Arg::Byte(b);
    }
    if 5 <= b {
        return Arg::Nothing;
    }
    let i = b as usize;
    args[i]
}

// Puts an argument.
fn put_arg(out: &mut [u8], at: usize, a: Arg, new: &[u8], old: &[u8]) -> usize
    ensures { let new : Str = new.entry.now in
        let old : Str = old.entry.now in
        Puts out.old at (arg_of new old a) out.new result × (result ≤ at + 559) }
{
    match a {
        Arg::Nothing => at,
        Arg::Byte(b) => put(out, at, &[b]),
        Arg::Now(t) => put_text(out, at, new, t),
        Arg::Was(t) => put_text(out, at, old, t),
        Arg::Number(n) => put_number(out, at, n),
        Arg::Signed(v) => put_signed(out, at, v),
        Arg::NowItem(what) => put_item(out, at, new, what),
        Arg::WasCopy(release) => put_copy(out, at, old, release),
        Arg::NowValue(value) => put_value(out, at, new, value),
        Arg::WasValue(value) => put_value(out, at, old, value),
        Arg::NowType(name) => put_name(out, at, new, name),
        Arg::WasType(name) => put_name(out, at, old, name),
        Arg::NowShape(d) => put_description(out, at, new, d),
        Arg::WasShape(d) => put_description(out, at, old, d),
        Arg::Standing(standalone) => put_standing(out, at, standalone),
        Arg::NowChange(gained) => put_change(out, at, new, gained),
    }
}

// Puts what a template's byte stands for. Most bytes stand for themselves, and those are put at once.
fn put_piece(out: &mut [u8], at: usize, b: u8, args: [Arg; 5], new: &[u8], old: &[u8]) -> usize
    ensures { let new : Str = new.entry.now in
        let old : Str = old.entry.now in
        Puts out.old at (arg_of new old (pick_of args b)) out.new result × (result ≤ at + 559) }
{
    if 32 <= b {
        return put(out, at, &[b]);
    }
    put_arg(out, at, pick(b, args), new, old)
}

// Puts a template with its arguments.
fn fill(out: &mut [u8], at: usize, template: &[u8], args: [Arg; 5], new: &[u8], old: &[u8]) -> usize
    ensures { let new : Str = new.entry.now in
        let old : Str = old.entry.now in
        let template : Str = template.entry.now in
        Puts out.old at (filled new old args template) out.new result × (result ≤ at + 559 * length template) }
{
    let mut next = at;
    for b in template {
        next = put_piece(out, next, *b, args, new, old);
    }
    next
}

// Puts a template, as far as 1,024 bytes, with its arguments at the front of out, and answers the message's length; where that is above the
// buffer's, nothing is written and the length is the error.
pub fn write(
    out: &mut [u8],
    template: &[u8],
    args: [Arg; 5],
    new: &[u8],
    old: &[u8],
) -> Result<usize, usize>
    ensures { let new : Str = new.entry.now in
        let old : Str = old.entry.now in
        let said : Str = filled new old args (take 1024 template.now) in
        Writes out.old said out.new result }
{
    let t = upto(template, 1024);
    let n = fill(&mut out[..0], 0, t, args, new, old);
    if out.len() < n {
        return Err(n);
    }
    fill(out, 0, t, args, new, old);
    Ok(n)
}

// Writes a template with one argument.
pub fn write_one(
    out: &mut [u8],
    template: &[u8],
    a: Arg,
    new: &[u8],
    old: &[u8],
) -> Result<usize, usize>
    ensures { let new : Str = new.entry.now in
        let old : Str = old.entry.now in
        let said : Str = filled new old (a ∷ Nothing ∷ Nothing ∷ Nothing ∷ Nothing ∷ []) (take 1024 template.now) in
        Writes out.old said out.new result }
{
    let no = Arg::Nothing;
    write(out, template, [a, no, no, no, no], new, old)
}

// Writes a template with two arguments.
pub fn write_two(
    out: &mut [u8],
    template: &[u8],
    a: Arg,
    b: Arg,
    new: &[u8],
    old: &[u8],
) -> Result<usize, usize>
    ensures { let new : Str = new.entry.now in
        let old : Str = old.entry.now in
        let said : Str = filled new old (a ∷ b ∷ Nothing ∷ Nothing ∷ Nothing ∷ []) (take 1024 template.now) in
        Writes out.old said out.new result }
{
    let no = Arg::Nothing;
    write(out, template, [a, b, no, no, no], new, old)
}

// Writes a template with three arguments.
pub fn write_three(
    out: &mut [u8],
    template: &[u8],
    a: Arg,
    b: Arg,
    c: Arg,
    new: &[u8],
    old: &[u8],
) -> Result<usize, usize>
    ensures { let new : Str = new.entry.now in
        let old : Str = old.entry.now in
        let said : Str = filled new old (a ∷ b ∷ c ∷ Nothing ∷ Nothing ∷ []) (take 1024 template.now) in
        Writes out.old said out.new result }
{
    let no = Arg::Nothing;
    write(out, template, [a, b, c, no, no], new, old)
}

// Writes a template with four arguments.
pub fn write_four(
    out: &mut [u8],
    template: &[u8],
    a: Arg,
    b: Arg,
    c: Arg,
    d: Arg,
    new: &[u8],
    old: &[u8],
) -> Result<usize, usize>
    ensures { let new : Str = new.entry.now in
        let old : Str = old.entry.now in
        let said : Str = filled new old (a ∷ b ∷ c ∷ d ∷ Nothing ∷ []) (take 1024 template.now) in
        Writes out.old said out.new result }
{
    let no = Arg::Nothing;
    write(out, template, [a, b, c, d, no], new, old)
}

// The judged cursor: the command at a place, or why it is refused.
ghost use Rattle.std.specs.Prelude.{◌≡◌, ◌≤◌, ◌+◌, length, drop, eqb, not};
ghost use Rattle.record.specs.Base.{Str, bytes};
ghost use Rattle.record.specs.Commands.{operands, wide, width_of};
ghost use Rattle.record.specs.Judge.{worse_of, if_absent, text_fault, flag_fault, operand_fault, faults_from, faults_of};
ghost use Rattle.record.specs.Judge.{parent_after, follows, is_open, in_family, row_of, row_at, ready, faulted, judged_at};

use crate::command::{Command, Cursor, Parent, Step, command_of};
use crate::operands::{flag_at, opt_text, whole_text};
use crate::refusal::{Refusal, Side};
use crate::text::Text;
use texts::utf8::at_edge;

// The least refusal among a command's operands, 4 before 5 before 6, and all of them before none.
#[derive(Clone, Copy, PartialEq, Eq, PartialOrd, Ord)]
pub enum Fault {
    Outside,
    Missing,
    Flag,
    Fine,
}

// The width of a command, and whether it may stand where it does. No command has the width 0.
#[derive(Clone, Copy)]
pub struct Row {
    pub width: usize,
    pub stands: bool,
}

// The command at a place with the cursor after it, or none at the end command; or why it is refused, and its place.
pub type Judged = Result<Step<Command>, (Refusal, usize)>;

// The fault with the lesser number.
fn worse(a: Fault, b: Fault) -> Fault
    ensures { result ≡ worse_of a b }
{
    a.min(b)
}

// What an absent text comes to, by the operand's letter.
fn if_absent(side: Side, s: &[u8], operand: u8) -> Fault
    ensures { result ≡ if_absent side s.now operand }
{
    match operand {
        b'O' => Fault::Fine,
        b'!' => match side {
            Side::Current => Fault::Missing,
            Side::Released => Fault::Fine,
        },
        b'?' => {
            if flag_at(s, 4) {
                Fault::Missing
            } else {
                Fault::Fine
            }
        }
        _ => Fault::Outside,
    }
}

// A text that is there must lie in the pool, which has n bytes.
fn text_fault(pool: &[u8], absent: Fault, text: Option<Text>) -> Fault
    ensures { result ≡ text_fault pool.now absent text }
{
    let Some(t) = text else {
        return absent;
    };
    let start = usize::from(t.start);
    let end = start + usize::from(t.len);
    if end <= pool.len() && at_edge(pool, start) && at_edge(pool, end) {
        return Fault::Fine;
    }
    Fault::Outside
}

fn flag_fault(flag: u8) -> Fault
    ensures { result ≡ flag_fault flag }
{
    if flag < 2 { Fault::Fine } else { Fault::Flag }
}

// The fault of the operand at a place of the command's bytes, which are all there: its bytes are read without a test of the length.
fn operand_fault(side: Side, pool: &[u8], s: &[u8], at: usize, operand: u8) -> Fault
    requires { at + wide operand ≤ length s.now }
    ensures { result ≡ operand_fault side pool.now s.now at operand }
{
    match operand {
        b'F' => flag_fault(s[at]),
        b'N' => flag_fault(s[at]),
        b'W' => Fault::Fine,
        b'V' => Fault::Fine,
        _ => text_fault(
            pool,
            if_absent(side, s, operand),
            opt_text(whole_text(s, at)),
        ),
    }
}

// The fault of the operands of each command, one after the other: a loop over their letters would test every letter at every command.
fn head_faults(side: Side, pool: &[u8], s: &[u8]) -> Fault
    requires { 5 ≤ length s.now }
    ensures { result ≡ faults_from side pool.now s.now 1 (bytes "!F") }
{
    worse(
        operand_fault(side, pool, s, 1, b'!'),
        operand_fault(side, pool, s, 4, b'F'),
    )
}

fn constant_faults(side: Side, pool: &[u8], s: &[u8]) -> Fault
    requires { 20 ≤ length s.now }
    ensures { result ≡ faults_from side pool.now s.now 1 (bytes "TFV?FO") }
{
    worse(
        operand_fault(side, pool, s, 1, b'T'),
        worse(
            operand_fault(side, pool, s, 4, b'F'),
            worse(
                operand_fault(side, pool, s, 13, b'?'),
                worse(
                    operand_fault(side, pool, s, 16, b'F'),
                    operand_fault(side, pool, s, 17, b'O'),
                ),
            ),
        ),
    )
}

fn alias_faults(side: Side, pool: &[u8], s: &[u8]) -> Fault
    requires { 7 ≤ length s.now }
    ensures { result ≡ faults_from side pool.now s.now 1 (bytes "TT") }
{
    worse(
        operand_fault(side, pool, s, 1, b'T'),
        operand_fault(side, pool, s, 4, b'T'),
    )
}

fn enum_faults(side: Side, pool: &[u8], s: &[u8]) -> Fault
    requires { 12 ≤ length s.now }
    ensures { result ≡ faults_from side pool.now s.now 1 (bytes "TWFO") }
{
    worse(
        operand_fault(side, pool, s, 1, b'T'),
        worse(
            operand_fault(side, pool, s, 8, b'F'),
            operand_fault(side, pool, s, 9, b'O'),
        ),
    )
}

fn value_faults(side: Side, pool: &[u8], s: &[u8]) -> Fault
    requires { 15 ≤ length s.now }
    ensures { result ≡ faults_from side pool.now s.now 1 (bytes "TVO") }
{
    worse(
        operand_fault(side, pool, s, 1, b'T'),
        operand_fault(side, pool, s, 12, b'O'),
    )
}

fn bitfield_faults(side: Side, pool: &[u8], s: &[u8]) -> Fault
    requires { 11 ≤ length s.now }
    ensures { result ≡ faults_from side pool.now s.now 1 (bytes "TW!") }
{
    worse(
        operand_fault(side, pool, s, 1, b'T'),
        operand_fault(side, pool, s, 8, b'!'),
    )
}

fn member_faults(side: Side, pool: &[u8], s: &[u8]) -> Fault
    requires { 16 ≤ length s.now }
    ensures { result ≡ faults_from side pool.now s.now 1 (bytes "TWNO") }
{
    worse(
        operand_fault(side, pool, s, 1, b'T'),
        worse(
            operand_fault(side, pool, s, 8, b'N'),
            operand_fault(side, pool, s, 13, b'O'),
        ),
    )
}

fn struct_faults(side: Side, pool: &[u8], s: &[u8]) -> Fault
    requires { 10 ≤ length s.now }
    ensures { result ≡ faults_from side pool.now s.now 1 (bytes "TOO") }
{
    worse(
        operand_fault(side, pool, s, 1, b'T'),
        worse(
            operand_fault(side, pool, s, 4, b'O'),
            operand_fault(side, pool, s, 7, b'O'),
        ),
    )
}

fn family_faults(side: Side, pool: &[u8], s: &[u8]) -> Fault
    requires { 17 ≤ length s.now }
    ensures { result ≡ faults_from side pool.now s.now 1 (bytes "TTTTOF") }
{
    worse(
        operand_fault(side, pool, s, 1, b'T'),
        worse(
            operand_fault(side, pool, s, 4, b'T'),
            worse(
                operand_fault(side, pool, s, 7, b'T'),
                worse(
                    operand_fault(side, pool, s, 10, b'T'),
                    worse(
                        operand_fault(side, pool, s, 13, b'O'),
                        operand_fault(side, pool, s, 16, b'F'),
                    ),
                ),
            ),
        ),
    )
}

// The four numbers of a field.
fn number_faults(side: Side, pool: &[u8], s: &[u8]) -> Fault
    requires { 33 ≤ length s.now }
    ensures { result ≡ faults_from side pool.now s.now 13 (bytes "NNNN") }
{
    worse(
        operand_fault(side, pool, s, 13, b'N'),
        worse(
            operand_fault(side, pool, s, 18, b'N'),
            worse(
                operand_fault(side, pool, s, 23, b'N'),
                operand_fault(side, pool, s, 28, b'N'),
            ),
        ),
    )
}

fn field_faults(side: Side, pool: &[u8], s: &[u8]) -> Fault
    requires { 33 ≤ length s.now }
    ensures { result ≡ faults_from side pool.now s.now 1 (bytes "TTOONNNN") }
{
    worse(
        operand_fault(side, pool, s, 1, b'T'),
        worse(
            operand_fault(side, pool, s, 4, b'T'),
            worse(
                operand_fault(side, pool, s, 7, b'O'),
                worse(
                    operand_fault(side, pool, s, 10, b'O'),
                    number_faults(side, pool, s),
                ),
            ),
        ),
    )
}

fn key_faults(side: Side, pool: &[u8], s: &[u8]) -> Fault
    requires { 7 ≤ length s.now }
    ensures { result ≡ faults_from side pool.now s.now 1 (bytes "T!") }
{
    worse(
        operand_fault(side, pool, s, 1, b'T'),
        operand_fault(side, pool, s, 4, b'!'),
    )
}

// The fault of the operands of a command by its number, from the bytes that begin with it.
fn faults(side: Side, pool: &[u8], s: &[u8], byte: u8) -> Fault
    requires { width_of byte ≤ length s.now }
    ensures { result ≡ faults_of side pool.now s.now (operands byte) }
{
    match byte {
        1 => head_faults(side, pool, s),
        2 => constant_faults(side, pool, s),
        3 => alias_faults(side, pool, s),
        4 => enum_faults(side, pool, s),
        5 => value_faults(side, pool, s),
        6 => bitfield_faults(side, pool, s),
        7 => member_faults(side, pool, s),
        8 => struct_faults(side, pool, s),
        9 => family_faults(side, pool, s),
        10 => operand_fault(side, pool, s, 1, b'T'),
        11 => field_faults(side, pool, s),
        12 => key_faults(side, pool, s),
        13 => key_faults(side, pool, s),
        14 => operand_fault(side, pool, s, 1, b'T'),
        15 => Fault::Fine,
        0 | 16..=255 => Fault::Fine,
    }
}

// What is open after a command of this number: fields, variants and plugin keys leave it as it is.
fn parent_after(parent: Parent, byte: u8) -> Parent
    ensures { result ≡ parent_after parent byte }
{
    match byte {
        8 => Parent::InStruct,
        9 => Parent::InFamily,
        10 => parent,
        11 => parent,
        12 => parent,
        _ => Parent::NoParent,
    }
}

fn takes(width: usize, stands: bool) -> Row
    ensures { result ≡ row_of width stands }
{
    Row { width, stands }
}

impl Cursor {
    fn first(self) -> bool
        ensures { result ≡ eqb self.last 0 }
    {
        self.last == 0
    }

    fn begun(self) -> bool
        ensures { result ≡ not (eqb self.last 0) }
    {
        self.last != 0
    }

    // Right after a command of one of two numbers.
    #[tactic(auto, unfolding(crate::specs::Judge::follows))]
    fn after(self, a: u8, b: u8) -> bool
        ensures { result ≡ follows self a b }
    {
        self.last == a || self.last == b
    }

    // While a structure, a family or a variant is open.
    fn in_type(self) -> bool
        ensures { result ≡ is_open self.parent }
    {
        matches!(self.parent, Parent::InStruct | Parent::InFamily)
    }

    fn in_family(self) -> bool
        ensures { result ≡ in_family self.parent }
    {
        matches!(self.parent, Parent::InFamily)
    }

    // A command without fault: the end must be the stream's last byte.
    fn ready(self, stream: &[u8], byte: u8, width: usize) -> Judged
        requires { self.at + width ≤ length stream.now }
        ensures { result ≡ ready stream.now self byte width }
    {
        let at = self.at;
        let end = at + width;
        if byte == 15 {
            if end == stream.len() {
                return Ok(None);
            }
            return Err((Refusal::Misplaced, end));
        }
        let parent = self.parent;
        Ok(Some((
            command_of(byte, &stream[at..]),
            Cursor {
                at: end,
                last: byte,
                parent: parent_after(parent, byte),
            },
        )))
    }

    // The command byte decides: each number has its fixed width and its rule of place.
    fn row(self, byte: u8) -> Row
        ensures { result ≡ row_at self byte }
    {
        match byte {
            1 => takes(5, self.first()),
            2 => takes(20, self.begun()),
            3 => takes(7, self.begun()),
            4 => takes(12, self.begun()),
            5 => takes(15, self.after(4, 5)),
            6 => takes(11, self.begun()),
            7 => takes(16, self.after(6, 7)),
            8 => takes(10, self.begun()),
            9 => takes(17, self.begun()),
            10 => takes(4, self.in_family()),
            11 => takes(33, self.in_type()),
            12 => takes(7, self.after(11, 11)),
            13 => takes(7, self.begun()),
            14 => takes(8, self.begun()),
            15 => takes(1, self.begun()),
            0 => takes(0, self.begun()),
            16..=255 => takes(0, self.begun()),
        }
    }

    // A whole command that may stand here, by its operands: 4, 5 and 6.
    fn judge(self, side: Side, stream: &[u8], pool: &[u8], byte: u8, width: usize) -> Judged
        requires { (self.at + width ≤ length stream.now) × (width ≡ width_of byte) }
        ensures { let s : Str = stream.now in
            result ≡ faulted self.at (ready s self byte width) (faults_of side pool.now (drop self.at s) (operands byte)) }
    {
        let at = self.at;
        match faults(side, pool, &stream[at..], byte) {
            Fault::Outside => Err((Refusal::Outside, at)),
            Fault::Missing => Err((Refusal::Missing, at)),
            Fault::Flag => Err((Refusal::Flag, at)),
            Fault::Fine => self.ready(stream, byte, width),
        }
    }

    // The command at the cursor with the cursor after it, or the refusal and its place: 2, then 1, then 3, then those of its operands. All of it is
    // in one place for every number, so that a caller who drops the command does not pay for it.
    pub fn judged(self, side: Side, stream: &[u8], pool: &[u8]) -> Judged
        ensures { result ≡ judged_at side stream.now pool.now self }
    {
        let at = self.at;
        if stream.len() <= at {
            return Err((Refusal::Cut, at));
        }
        let byte = stream[at];
        let row = self.row(byte);
        let width = row.width;
        if width == 0 {
            return Err((Refusal::Unknown, at));
        }
        if stream.len() - at < width {
            return Err((Refusal::Cut, at));
        }
        if row.stands {
            return self.judge(side, stream, pool, byte, width);
        }
        Err((Refusal::Misplaced, at))
    }
}

// The constants, enums and unstored keys of a record by their names, found by its index: the first where the Rust looks along a
// list, the last where it collects a map.
ghost use Rattle.record.specs.Named.{ConstantThere, EnumThere, FirstConstant, LastConstant, ApiConstant, FirstEnum, ApiEnum, LastUnstored};

use crate::command::{Constant, Cursor, Enum, PluginKey, Step, constant_at, enum_at, key_at};
use crate::cut;
use crate::index::{find_declared, find_last};

// The constant at a place.
fn constant_there(stream: &[u8], there: Option<(usize, usize)>) -> Step<Constant>
    ensures { ConstantThere stream.now there result }
{
    let Some((place, after)) = there else {
        return None;
    };
    Some((constant_at(cut::from(stream, place)), Cursor::place(after)))
}

// The enum at a place, with the cursor at its values.
fn enum_there(stream: &[u8], there: Option<(usize, usize)>) -> Step<Enum>
    ensures { EnumThere stream.now there result }
{
    let Some((place, after)) = there else {
        return None;
    };
    Some((enum_at(cut::from(stream, place)), Cursor::place(after)))
}

// The first constant of a name.
pub fn first_constant(stream: &[u8], pool: &[u8], index: &[u16], name: &[u8]) -> Step<Constant>
    ensures { FirstConstant stream.now pool.now index.now name.now result }
{
    constant_there(stream, find_declared(stream, pool, index, 2, name))
}

// The last constant of a name.
pub fn last_constant(stream: &[u8], pool: &[u8], index: &[u16], name: &[u8]) -> Step<Constant>
    ensures { LastConstant stream.now pool.now index.now name.now result }
{
    constant_there(stream, find_last(stream, pool, index, 2, 0, name))
}

// The last constant of a name in the plugin API.
pub fn api_constant(stream: &[u8], pool: &[u8], index: &[u16], name: &[u8]) -> Step<Constant>
    ensures { ApiConstant stream.now pool.now index.now name.now result }
{
    constant_there(stream, find_last(stream, pool, index, 2, 16, name))
}

// The first enum of a name.
pub fn first_enum(stream: &[u8], pool: &[u8], index: &[u16], name: &[u8]) -> Step<Enum>
    ensures { FirstEnum stream.now pool.now index.now name.now result }
{
    enum_there(stream, find_declared(stream, pool, index, 4, name))
}

// The last enum of a name in the plugin API.
pub fn api_enum(stream: &[u8], pool: &[u8], index: &[u16], name: &[u8]) -> Step<Enum>
    ensures { ApiEnum stream.now pool.now index.now name.now result }
{
    enum_there(stream, find_last(stream, pool, index, 4, 8, name))
}

// The last unstored key of a name.
pub fn last_unstored(stream: &[u8], pool: &[u8], index: &[u16], name: &[u8]) -> Step<PluginKey>
    ensures { LastUnstored stream.now pool.now index.now name.now result }
{
    let Some((place, after)) = find_last(stream, pool, index, 13, 0, name) else {
        return None;
    };
    Some((key_at(cut::from(stream, place)), Cursor::place(after)))
}

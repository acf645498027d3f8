// The walk over the plugin keys of a record: those of structures' fields in the record's order, then the unstored ones (plugin_keys of the Rust).
ghost use Rattle.record.specs.declared.keys.StoredAt.TheVariants.{Structs};
ghost use Rattle.record.specs.declared.keys.KeysAt.TheVariants.{Unstored};
ghost use Rattle.record.specs.Keys.{AllStored, AllKeys, InFields, StoredFrom, PluginKeysFrom};

use crate::command::{Cursor, PluginKey, Struct};
use crate::lists::{UnstoredKey, next};
use crate::seek::{Between, seek};

// What is left of the walk over structures' fields: the structures from a cursor on; the fields and then the structures from a cursor on.
// Each state has a cursor, and neither is a failure, so that no Option or Result says it more plainly.
#[derive(Clone, Copy)]
pub enum StoredAt {
    Structs(Cursor),
    Fields(Cursor),
}

// What is left of the walk over all keys: those of structures' fields and then the unstored ones; the unstored ones from a cursor on.
// Each state has what is left of its walk, and neither is a failure, so that no Option or Result says it more plainly.
#[derive(Clone, Copy)]
pub enum KeysAt {
    Stored(StoredAt),
    Unstored(Cursor),
}

// The whole walk over structures' fields.
pub fn first_stored() -> StoredAt
    ensures { AllStored result }
{
    StoredAt::Structs(Cursor::new())
}

// The whole walk over all keys.
pub fn first_key() -> KeysAt
    ensures { AllKeys result }
{
    KeysAt::Stored(first_stored())
}

// A plugin key of some fields, with the cursor after its field; or none, with the cursor after the last field.
// An end is no failure and has its cursor too, so that no Option or Result says it more plainly.
#[derive(Clone, Copy)]
enum FieldKey {
    Ended(Cursor),
    Keyed(PluginKey, Cursor),
}

// The next plugin key of the fields from a cursor on.
fn next_in_fields(stream: &[u8], from: Cursor) -> FieldKey
    ensures { InFields stream.now from.at result }
{
    let mut at = from.at;
    loop {
        let Some((_, after)) = seek(stream, at, 11, Between::Keys) else {
            return FieldKey::Ended(Cursor::place(at));
        };
        let here = Cursor::place(after);
        if let Some((e, _)) = next::<PluginKey>(stream, here) {
            return FieldKey::Keyed(e, here);
        }
        at = after;
    }
}

// The next unstored key from a cursor on.
fn next_unstored_key(stream: &[u8], from: Cursor) -> Option<(PluginKey, KeysAt)>
    ensures { PluginKeysFrom stream.now (Unstored from) result }
{
    let Some((e, after)) = next::<UnstoredKey>(stream, from) else {
        return None;
    };
    Some((e.key, KeysAt::Unstored(after)))
}

// The next plugin key of the structures from a cursor on.
fn next_in_structs(stream: &[u8], from: Cursor) -> Option<(PluginKey, StoredAt)>
    ensures { StoredFrom stream.now (Structs from) result }
{
    let mut cursor = from;
    loop {
        let Some((_, after)) = next::<Struct>(stream, cursor) else {
            return None;
        };
        let key = next_in_fields(stream, after);
        match key {
            FieldKey::Keyed(e, inside) => {
                return Some((e, StoredAt::Fields(inside)));
            }
            FieldKey::Ended(end) => {
                cursor = end;
            }
        }
    }
}

// The next plugin key of structures' fields, with what is left of the walk after it.
pub fn next_stored_key(stream: &[u8], at: StoredAt) -> Option<(PluginKey, StoredAt)>
    ensures { StoredFrom stream.now at result }
{
    match at {
        StoredAt::Structs(from) => next_in_structs(stream, from),
        StoredAt::Fields(from) => {
            let key = next_in_fields(stream, from);
            match key {
                FieldKey::Keyed(e, inside) => Some((e, StoredAt::Fields(inside))),
                FieldKey::Ended(end) => next_in_structs(stream, end),
            }
        }
    }
}

// The next plugin key, with what is left of the walk after it.
pub fn next_plugin_key(stream: &[u8], at: KeysAt) -> Option<(PluginKey, KeysAt)>
    ensures { PluginKeysFrom stream.now at result }
{
    match at {
        KeysAt::Stored(from) => {
            let Some((e, rest)) = next_stored_key(stream, from) else {
                return next_unstored_key(stream, Cursor::new());
            };
            Some((e, KeysAt::Stored(rest)))
        }
        KeysAt::Unstored(from) => next_unstored_key(stream, from),
    }
}

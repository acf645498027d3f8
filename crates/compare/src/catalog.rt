// A record as the passes read it, with the index of its names where they look one up.
ghost use Rattle.record.specs.Index.{Indexed};
ghost use Rattle.compare.specs.Once.{indexed-once};

use record::command::{Constant, Enum, PluginKey, Step};
use record::generation::generation_constant;
use record::named;
use record::text::Text;

// A record, or its front as far as a pass reads: its commands and its texts.
#[derive(Clone, Copy)]
pub struct Record<'a> {
    pub stream: &'a [u8],
    pub pool: &'a [u8],
}

// A record whose names can be looked up, by the index of them.
#[derive(Clone, Copy)]
pub struct Catalog<'a> {
    pub record: Record<'a>,
    pub index: &'a [u16],
    pub ghost indexed: { Indexed record.stream.now record.pool.now index.now } by { indexed-once record.stream.now record.pool.now index.now },
}

impl<'a> Catalog<'a> {
    ghost use Rattle.std.specs.Prelude.{◌≡◌, ◌&&◌};
    ghost use Rattle.record.specs.Base.{eqs, find_last};
    ghost use Rattle.record.specs.Schema as M;
    ghost use Rattle.record.specs.Steps.{constant_in, constant_found, enum_in, enum_found, unstored_at};
    ghost use Rattle.record.specs.Named.{unstored_found};
    ghost use Rattle.record.specs.Generation.{generation_of, held_as};
    ghost use Rattle.record.specs.Reading.{Rec};
    ghost use Rattle.compare.specs.Catalog.{read};
    ghost use Rattle.compare.specs.Records.{constant_list, enum_list, struct_list};

    // The first constant of a name.
    pub fn first_constant(&self, name: &[u8]) -> Step<Constant>
        ensures { let r : Rec = read self.now.record in
            constant_in name.now (constant_list r) ≡ constant_found r.stream r.pool result }
    {
        let r = self.record;
        named::first_constant(r.stream, r.pool, self.index, name)
    }

    // The last constant of a name.
    pub fn last_constant(&self, name: &[u8]) -> Step<Constant>
        ensures { let r : Rec = read self.now.record in
            find_last (λ (c : M.Const). eqs c.name name.now) (constant_list r) ≡ constant_found r.stream r.pool result }
    {
        let r = self.record;
        named::last_constant(r.stream, r.pool, self.index, name)
    }

    // The last constant of a name in the plugin API.
    pub fn api_constant(&self, name: &[u8]) -> Step<Constant>
        ensures { let r : Rec = read self.now.record in
            find_last (λ (c : M.Const). c.api && eqs c.name name.now) (constant_list r) ≡ constant_found r.stream r.pool result }
    {
        let r = self.record;
        named::api_constant(r.stream, r.pool, self.index, name)
    }

    // The first enum of a name.
    pub fn first_enum(&self, name: &[u8]) -> Step<Enum>
        ensures { let r : Rec = read self.now.record in
            enum_in name.now (enum_list r) ≡ enum_found r.stream r.pool result }
    {
        let r = self.record;
        named::first_enum(r.stream, r.pool, self.index, name)
    }

    // The last enum of a name in the plugin API.
    pub fn api_enum(&self, name: &[u8]) -> Step<Enum>
        ensures { let r : Rec = read self.now.record in
            find_last (λ (e : M.Enum). e.api && eqs e.name name.now) (enum_list r) ≡ enum_found r.stream r.pool result }
    {
        let r = self.record;
        named::api_enum(r.stream, r.pool, self.index, name)
    }

    // The last unstored key of a name.
    pub fn last_unstored(&self, name: &[u8]) -> Step<PluginKey>
        ensures { let r : Rec = read self.now.record in
            find_last (λ (k : M.Key). eqs k.name name.now) (unstored_at r.stream r.pool 0) ≡ unstored_found r.pool result }
    {
        let r = self.record;
        named::last_unstored(r.stream, r.pool, self.index, name)
    }

    // The constant that holds the generation of a structure of a name, with its number.
    pub fn generation(&self, name: &[u8]) -> Option<(Text, u32)>
        ensures { let r : Rec = read self.now.record in
            held_as r.pool result ≡ generation_of (struct_list r) (constant_list r) name.now }
    {
        let r = self.record;
        generation_constant(r.stream, r.pool, self.index, name)
    }
}

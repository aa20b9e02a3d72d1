// The entries of a field.
ghost use Rattle.std.specs.Prelude.{◌≡◌};
ghost use Rattle.deinline.specs.Entry.{section_no, exports_of, first_of, item_in, second_of, third_of};

use crate::section;
use syntax::{Entry, Field, List, Own, Seen, Source, Space};

// Where a field stands: what was seen before it, where its head ends, and its record.
#[derive(Clone, Copy)]
pub struct Spot {
    pub seen: Seen,
    pub here: usize,
    pub rec: u32,
}

// The number of an entry's section; 0 where there is none.
pub fn section_of(e: Entry) -> u8
    ensures { result ≡ section_no e }
{
    match e {
        Entry::Nothing => 0,
        Entry::Import(_, _) => section::IMPORT,
        Entry::Func(_) => section::FUNC,
        Entry::Table(_) => section::TABLE,
        Entry::InlineTable(_, _) => section::TABLE,
        Entry::Mem(_) => section::MEM,
        Entry::InlineMem(_, _) => section::MEM,
        Entry::Global(_, _) => section::GLOBAL,
        Entry::Export(_, _, _) => section::EXPORT,
        Entry::Exports(_, _, _) => section::EXPORT,
        Entry::Start(_) => section::START,
        Entry::Elem(_, _) => section::ELEM,
        Entry::InlineElem(_, _, _) => section::ELEM,
        Entry::Code(_, _, _) => section::CODE,
        Entry::Data(_, _) => section::DATA,
        Entry::InlineData(_, _, _) => section::DATA,
    }
}

// The exports of the next item of a space: they have its number.
fn exports_of(exports: List, k: Space, seen: Seen) -> Entry
    ensures { result ≡ exports_of exports k seen }
{
    Entry::Exports(exports, k, sources::seen::count_of(seen, k))
}

// A field's first entry, and for most the only one; what was seen before the field numbers its items. A type is in the table of types, from
// which its section is written.
#[tactic(auto, unfolding(crate::specs::Entry::first_of))]
pub fn first_of(f: Field, seen: Seen) -> Entry
    ensures { result ≡ first_of f seen }
{
    match f {
        Field::Type {
            id: _,
            params: _,
            results: _,
        } => Entry::Nothing,
        Field::Import { name, id: _, what } => Entry::Import(name, what),
        Field::Item {
            id: _,
            exports,
            source,
        } => exports_of(exports, counting::source_space(source), seen),
        Field::Export { name, space, index } => Entry::Export(name, space, index),
        Field::Start(x) => Entry::Start(x),
        Field::Elem { id: _, mode, funcs } => Entry::Elem(mode, funcs),
        Field::Data { id: _, mode, bytes } => Entry::Data(mode, bytes),
    }
}

#[tactic(auto, unfolding(crate::specs::Entry::item_in))]
pub fn item_in(f: Field) -> Option<Source>
    ensures { result ≡ item_in f }
{
    match f {
        Field::Item { source, .. } => Some(source),
        _ => None,
    }
}

// An inline table or memory is two entries beside its exports: the segment, and the item with the same number.
#[tactic(auto, unfolding(crate::specs::Entry::second_of))]
pub fn second_of(x: Source, seen: Seen) -> Entry
    ensures { result ≡ second_of x seen }
{
    match x {
        Source::Own(o) => match o {
            Own::Func(t, _) => Entry::Func(t),
            Own::Table(t) => Entry::Table(t),
            Own::Mem(l) => Entry::Mem(l),
            Own::Global(t, c) => Entry::Global(t, c),
        },
        Source::Imported(n, e) => Entry::Import(n, e),
        Source::TableOf(w, xs) => Entry::InlineElem(
            w,
            sources::seen::count_of(seen, Space::Tables),
            xs,
        ),
        Source::MemOf(w, d) => Entry::InlineData(w, sources::seen::count_of(seen, Space::Mems), d),
    }
}

// A function's body begins at `here`.
#[tactic(auto, unfolding(crate::specs::Entry::third_of))]
pub fn third_of(x: Source, here: usize) -> Entry
    ensures { result ≡ third_of x here }
{
    match x {
        Source::Own(o) => match o {
            Own::Func(t, ls) => Entry::Code(t, ls, here),
            Own::Table(_) => Entry::Nothing,
            Own::Mem(_) => Entry::Nothing,
            Own::Global(_, _) => Entry::Nothing,
        },
        Source::Imported(_, _) => Entry::Nothing,
        Source::TableOf(w, xs) => Entry::InlineTable(w, xs),
        Source::MemOf(w, d) => Entry::InlineMem(w, d),
    }
}

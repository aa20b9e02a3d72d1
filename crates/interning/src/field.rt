// The uses of a field.
ghost use Rattle.std.specs.Prelude.{◌≡◌, true, ◌+◌, ◌<◌};
ghost use Rattle.area.specs.Lent.{Lent};
ghost use Rattle.definition.specs.Types as Types;
ghost use Rattle.definition.specs.Read as Read;
ghost use Rattle.syntax.specs.Items.{extern_is, own_of, source_of};
ghost use Rattle.syntax.specs.Fields.{field_of};
ghost use Rattle.reread.specs.Known.{ReadableExtern, ReadableOwn, ReadableSource, ReadableHead};
ghost use Rattle.walk.specs.Walk.{body_in, whole_field};
ghost use Rattle.type_table.specs.Table.{Indexed};
ghost use Rattle.interning.specs.Uses.{Handles, Skips, uses_own, uses_source, uses_field, end_after};

use crate::body::use_func;
use crate::uses::use_type;
use syntax::{Extern, Field, Own, Resolved, Source};

// What is imported.
fn use_extern(s: &[u8], work: &mut [u32], count: u32, x: Extern, rec: u32) -> Resolved<u32>
    requires { Lent s.now work.old × Indexed s.now work.old count × (rec < 4096) × ReadableExtern s.now x }
    ensures { Handles rec (rec + 1) s.now (Types.used_at rec (Types.extern_uses (extern_is s.now x))) work.old count result work.new }
{
    match x {
        Extern::Func(t) => use_type(s, work, count, t, rec),
        Extern::Table(_) => Ok(count),
        Extern::Mem(_) => Ok(count),
        Extern::Global(_) => Ok(count),
    }
}

// The module's own item; the body of a function begins at `at`, and `own` functions came before it.
fn use_own(
    s: &[u8],
    work: &mut [u32],
    count: u32,
    o: Own,
    own: u32,
    at: usize,
    rec: u32,
) -> Resolved<u32>
    requires { Lent s.now work.old × Indexed s.now work.old count × (rec < 4096) × Skips work.old own (Types.body_uses (body_in (Read.own_body (own_of s.now o)) (rec + 1) s.now at)) × (whole_field (Read.own_body (own_of s.now o)) (rec + 1) s.now at ≡ true) × ReadableOwn s.now o }
    ensures { Handles rec (end_after (Read.own_body (own_of s.now o)) rec s.now at) s.now (uses_own rec (own_of s.now o) s.now at) work.old count result work.new }
{
    match o {
        Own::Func(t, _) => use_func(s, work, count, t, own, at, rec),
        Own::Table(_) => Ok(count),
        Own::Mem(_) => Ok(count),
        Own::Global(_, _) => Ok(count),
    }
}

// An item, by where it comes from.
fn use_source(
    s: &[u8],
    work: &mut [u32],
    count: u32,
    x: Source,
    own: u32,
    at: usize,
    rec: u32,
) -> Resolved<u32>
    requires { Lent s.now work.old × Indexed s.now work.old count × (rec < 4096) × Skips work.old own (Types.body_uses (body_in (Read.source_body (source_of s.now x)) (rec + 1) s.now at)) × (whole_field (Read.source_body (source_of s.now x)) (rec + 1) s.now at ≡ true) × ReadableSource s.now x }
    ensures { Handles rec (end_after (Read.source_body (source_of s.now x)) rec s.now at) s.now (uses_source rec (source_of s.now x) s.now at) work.old count result work.new }
{
    match x {
        Source::Own(o) => use_own(s, work, count, o, own, at, rec),
        Source::Imported(_, e) => use_extern(s, work, count, e, rec),
        Source::TableOf(_, _) => Ok(count),
        Source::MemOf(_, _) => Ok(count),
    }
}

// A field and, of an own function, the body that begins at `at`, where that may have uses; `own` functions came before.
pub fn use_field(
    s: &[u8],
    work: &mut [u32],
    count: u32,
    f: Field,
    own: u32,
    at: usize,
    rec: u32,
) -> Resolved<u32>
    requires { Lent s.now work.old × Indexed s.now work.old count × (rec < 4096) × Skips work.old own (Types.body_uses (body_in (Read.field_body (field_of s.now f)) (rec + 1) s.now at)) × (whole_field (Read.field_body (field_of s.now f)) (rec + 1) s.now at ≡ true) × ReadableHead s.now f }
    ensures { Handles rec (end_after (Read.field_body (field_of s.now f)) rec s.now at) s.now (uses_field rec (field_of s.now f) s.now at) work.old count result work.new }
{
    match f {
        Field::Type {
            id: _,
            params: _,
            results: _,
        } => Ok(count),
        Field::Import {
            name: _,
            id: _,
            what,
        } => use_extern(s, work, count, what, rec),
        Field::Item {
            id: _,
            exports: _,
            source,
        } => use_source(s, work, count, source, own, at, rec),
        Field::Export {
            name: _,
            space: _,
            index: _,
        } => Ok(count),
        Field::Start(_) => Ok(count),
        Field::Elem {
            id: _,
            mode: _,
            funcs: _,
        } => Ok(count),
        Field::Data {
            id: _,
            mode: _,
            bytes: _,
        } => Ok(count),
    }
}

// The forms of an item's record: 0 the module's own, 1 imported, 2 made of an inline segment.
ghost use Rattle.std.specs.Prelude.{◌≡◌};
ghost use Rattle.definition.specs.Records as Records;
ghost use Rattle.syntax.specs.Items.{room_of, source_at};
ghost use Rattle.sources.specs.Readers.{extern_of, source, func_forms, table_forms, mem_forms, global_forms, forms_of};

use syntax::{Elem, Fault, Kind, Own, Read, Seen, Source, Space};

#[tactic(auto, using(laws::proofs::Ways::ways, syntax::proofs::Ways::reads), unfolding(definition::specs::Records::import_form))]
fn import_form(s: &[u8], at: usize, kind: Kind) -> Read<Source>
    ensures { Records.import_form (extern_of kind) s.now at ≡ source_at s.now result }
{
    let (n, a) = crate::import::read_import_name(s, at)?;
    let (x, b) = crate::import::read_extern(s, a, kind)?;
    Ok((Source::Imported(n, x), b))
}

#[tactic(auto, using(laws::proofs::Ways::ways, syntax::proofs::Ways::reads), unfolding(definition::specs::Records::own_func_form))]
fn own_func_form(s: &[u8], at: usize) -> Read<Source>
    ensures { Records.own_func_form s.now at ≡ source_at s.now result }
{
    let (t, a) = typeuse::read_type_use(s, at)?;
    let (locals, b) = typeuse::read_list(s, a, 64, Elem::Local)?;
    Ok((Source::Own(Own::Func(t, locals)), b))
}

#[tactic(auto, using(laws::proofs::Ways::ways, syntax::proofs::Ways::reads), unfolding(definition::specs::Records::own_table_form))]
fn own_table_form(s: &[u8], at: usize) -> Read<Source>
    ensures { Records.own_table_form s.now at ≡ source_at s.now result }
{
    let (t, next) = coretypes::read_table_type(s, at)?;
    Ok((Source::Own(Own::Table(t)), next))
}

#[tactic(auto, using(laws::proofs::Ways::ways, syntax::proofs::Ways::reads), unfolding(definition::specs::Records::own_mem_form))]
fn own_mem_form(s: &[u8], at: usize) -> Read<Source>
    ensures { Records.own_mem_form s.now at ≡ source_at s.now result }
{
    let (l, next) = coretypes::read_limits(s, at)?;
    Ok((Source::Own(Own::Mem(l)), next))
}

#[tactic(auto, using(laws::proofs::Ways::ways, syntax::proofs::Ways::reads), unfolding(definition::specs::Records::own_global_form))]
fn own_global_form(s: &[u8], at: usize) -> Read<Source>
    ensures { Records.own_global_form s.now at ≡ source_at s.now result }
{
    let (t, a) = coretypes::read_global_type(s, at)?;
    let b = expr::pass_const(s, a)?;
    Ok((Source::Own(Own::Global(t, a)), b))
}

// It brings an element segment too.
#[tactic(auto, using(crate::proofs::Ways::rooms, laws::proofs::Ways::ways, syntax::proofs::Ways::reads), unfolding(definition::specs::Records::inline_table_form))]
fn inline_table_form(s: &[u8], at: usize, seen: Seen) -> Read<Source>
    ensures { Records.inline_table_form (room_of seen) s.now at ≡ source_at s.now result }
{
    if !crate::seen::has_room(seen, Space::Elems) {
        return Err(Fault::TooMany);
    }
    let (is64, a) = coretypes::flag64(s, at)?;
    let (xs, b) = typeuse::read_list(s, a, 1024, Elem::Index)?;
    Ok((Source::TableOf(is64, xs), b))
}

// It brings a data segment too.
#[tactic(auto, using(crate::proofs::Ways::rooms, laws::proofs::Ways::ways, syntax::proofs::Ways::reads), unfolding(definition::specs::Records::inline_mem_form))]
fn inline_mem_form(s: &[u8], at: usize, seen: Seen) -> Read<Source>
    ensures { Records.inline_mem_form (room_of seen) s.now at ≡ source_at s.now result }
{
    if !crate::seen::has_room(seen, Space::Datas) {
        return Err(Fault::TooMany);
    }
    let (is64, a) = coretypes::flag64(s, at)?;
    let (p, b) = token::read_data(s, a)?;
    Ok((Source::MemOf(is64, p), b))
}

#[tactic(auto, using(laws::proofs::Ways::ways, syntax::proofs::Ways::reads), unfolding(crate::specs::Readers::source))]
fn func_source(s: &[u8], at: usize) -> Read<Source>
    ensures { source func_forms s.now at ≡ source_at s.now result }
{
    let (b, next) = token::read_byte(s, at)?;
    if b == 0 {
        return own_func_form(s, next);
    }
    if b == 1 {
        return import_form(s, next, Kind::Func);
    }
    Err(Fault::UnknownByte)
}

#[tactic(auto, using(laws::proofs::Ways::ways, syntax::proofs::Ways::reads), unfolding(crate::specs::Readers::source))]
fn table_source(s: &[u8], at: usize, seen: Seen) -> Read<Source>
    ensures { source (table_forms (room_of seen)) s.now at ≡ source_at s.now result }
{
    let (b, next) = token::read_byte(s, at)?;
    if b == 0 {
        return own_table_form(s, next);
    }
    if b == 1 {
        return import_form(s, next, Kind::Table);
    }
    if b == 2 {
        return inline_table_form(s, next, seen);
    }
    Err(Fault::UnknownByte)
}

#[tactic(auto, using(laws::proofs::Ways::ways, syntax::proofs::Ways::reads), unfolding(crate::specs::Readers::source))]
fn mem_source(s: &[u8], at: usize, seen: Seen) -> Read<Source>
    ensures { source (mem_forms (room_of seen)) s.now at ≡ source_at s.now result }
{
    let (b, next) = token::read_byte(s, at)?;
    if b == 0 {
        return own_mem_form(s, next);
    }
    if b == 1 {
        return import_form(s, next, Kind::Mem);
    }
    if b == 2 {
        return inline_mem_form(s, next, seen);
    }
    Err(Fault::UnknownByte)
}

#[tactic(auto, using(laws::proofs::Ways::ways, syntax::proofs::Ways::reads), unfolding(crate::specs::Readers::source))]
fn global_source(s: &[u8], at: usize) -> Read<Source>
    ensures { source global_forms s.now at ≡ source_at s.now result }
{
    let (b, next) = token::read_byte(s, at)?;
    if b == 0 {
        return own_global_form(s, next);
    }
    if b == 1 {
        return import_form(s, next, Kind::Global);
    }
    Err(Fault::UnknownByte)
}

// The form byte of a record, and what it says.
pub fn read_source(s: &[u8], at: usize, seen: Seen, kind: Kind) -> Read<Source>
    ensures { source (forms_of (room_of seen) kind) s.now at ≡ source_at s.now result }
{
    match kind {
        Kind::Func => func_source(s, at),
        Kind::Table => table_source(s, at, seen),
        Kind::Mem => mem_source(s, at, seen),
        Kind::Global => global_source(s, at),
    }
}

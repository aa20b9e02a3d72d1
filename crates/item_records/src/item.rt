// Types, imports, and the items that a form follows: functions, tables, memories, globals.
ghost use Rattle.std.specs.Prelude.{◌≡◌};
ghost use Rattle.definition.specs.Records as Records;
ghost use Rattle.definition.specs.Token as Token;
ghost use Rattle.syntax.specs.Tokens.{id_of};
ghost use Rattle.syntax.specs.TypeUses.{list_of};
ghost use Rattle.syntax.specs.Items.{room_of, name_of, kind_of};
ghost use Rattle.sources.specs.Readers.{extern_of, forms_of};
ghost use Rattle.syntax.specs.Fields.{field_at};
ghost use Rattle.item_records.specs.Readers.{item_of};

use syntax::{Elem, Fault, Field, ImportName, Kind, List, Part, Read, Seen, Space};

#[tactic(auto, using(sources::proofs::Ways::rooms, laws::proofs::Ways::ways, syntax::proofs::Ways::reads), unfolding(definition::specs::Records::type_rec))]
pub fn read_type(s: &[u8], at: usize, seen: Seen) -> Read<Field>
    ensures { Records.type_rec (room_of seen) s.now at ≡ field_at s.now result }
{
    if !sources::has_room(seen, Space::Types) {
        return Err(Fault::TooMany);
    }
    let (id, a) = token::read_identifier(s, at)?;
    let (params, b) = typeuse::read_list(s, a, 64, Elem::Type)?;
    let (results, c) = typeuse::read_list(s, b, 16, Elem::Type)?;
    Ok((
        Field::Type {
            id,
            params,
            results,
        },
        c,
    ))
}

// What follows the kind byte of an import.
#[tactic(auto, using(sources::proofs::Ways::rooms, laws::proofs::Ways::ways, syntax::proofs::Ways::reads), unfolding(definition::specs::Records::import_of))]
fn import_of(s: &[u8], at: usize, seen: Seen, name: ImportName, kind: Kind) -> Read<Field>
    ensures { Records.import_of (room_of seen) (name_of s.now name) (kind_of kind) (extern_of kind) s.now at ≡ field_at s.now result }
{
    if !sources::has_room_for(seen, kind) {
        return Err(Fault::TooMany);
    }
    let (id, a) = token::read_identifier(s, at)?;
    let (what, b) = sources::read_extern(s, a, kind)?;
    Ok((Field::Import { name, id, what }, b))
}

#[tactic(auto, using(laws::proofs::Ways::ways, syntax::proofs::Ways::reads), unfolding(definition::specs::Records::import_rec))]
pub fn read_import(s: &[u8], at: usize, seen: Seen) -> Read<Field>
    ensures { Records.import_rec (room_of seen) s.now at ≡ field_at s.now result }
{
    let (name, a) = sources::read_import_name(s, at)?;
    let (b, next) = token::read_byte(s, a)?;
    if b == 0 {
        return import_of(s, next, seen, name, Kind::Func);
    }
    if b == 1 {
        return import_of(s, next, seen, name, Kind::Table);
    }
    if b == 2 {
        return import_of(s, next, seen, name, Kind::Mem);
    }
    if b == 3 {
        return import_of(s, next, seen, name, Kind::Global);
    }
    Err(Fault::UnknownByte)
}

// What follows the exports of an item: its form.
#[tactic(auto, using(crate::proofs::Ways::form_not, crate::proofs::Ways::form_read, syntax::proofs::Ways::reads))]
fn item_of(s: &[u8], at: usize, seen: Seen, kind: Kind, id: Part, exports: List) -> Read<Field>
    ensures { item_of (forms_of (room_of seen) kind) (id_of s.now id) (list_of Token.string s.now exports) s.now at ≡ field_at s.now result }
{
    let (source, next) = sources::read_source(s, at, seen, kind)?;
    Ok((
        Field::Item {
            id,
            exports,
            source,
        },
        next,
    ))
}

// A function, a table, a memory or a global.
#[tactic(auto, using(sources::proofs::Ways::rooms, laws::proofs::Ways::ways, syntax::proofs::Ways::reads), unfolding(definition::specs::Records::item_rec, crate::specs::Readers::item_of))]
pub fn read_item(s: &[u8], at: usize, seen: Seen, kind: Kind) -> Read<Field>
    ensures { Records.item_rec (room_of seen) (kind_of kind) (forms_of (room_of seen) kind) s.now at ≡ field_at s.now result }
{
    if !sources::has_room_for(seen, kind) {
        return Err(Fault::TooMany);
    }
    let (id, a) = token::read_identifier(s, at)?;
    let (exports, b) = typeuse::read_list(s, a, 8, Elem::String)?;
    item_of(s, b, seen, kind, id, exports)
}

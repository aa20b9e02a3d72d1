// Field records that are known to be readable: of an own function's head and of an imported function only the lengths are looked at.
#![tactic(auto)]

ghost use Rattle.std.specs.Prelude.{◌≡◌};
ghost use Rattle.definition.specs.Records as Records;
ghost use Rattle.definition.specs.Token as Token;
ghost use Rattle.token.specs.Known.{Gets};
ghost use Rattle.syntax.specs.Tokens.{id_of};
ghost use Rattle.syntax.specs.TypeUses.{list_of};
ghost use Rattle.syntax.specs.Items.{room_of, name_of, name_at};
ghost use Rattle.reread.specs.Known.{imported_item, ReadableField};
ghost use Rattle.syntax.specs.Fields.{field_at};
ghost use Rattle.item_records.specs.Readers.{own_item, imported_func};

use syntax::{Extern, Field, ImportName, List, Own, Part, Read, Seen, Source};

// What follows the form byte of an own function.
#[tactic(auto, using(crate::proofs::Gets::known_owns))]
fn known_own(s: &[u8], at: usize, id: Part, exports: List) -> Read<Field>
    requires { Gets (Records.own_func_form s.now at) }
    ensures { (own_item (id_of s.now id) (list_of Token.string s.now exports) s.now at ≡ field_at s.now result) × ReadableField s.now result }
{
    let (t, a) = typeuse::known_type_use(s, at)?;
    let (locals, b) = typeuse::known_local_list(s, a)?;
    Ok((
        Field::Item {
            id,
            exports,
            source: Source::Own(Own::Func(t, locals)),
        },
        b,
    ))
}

// What follows the form byte of a function that is imported where it stands.
#[tactic(auto, using(crate::proofs::Gets::known_inlines))]
fn known_imported(s: &[u8], at: usize, id: Part, exports: List) -> Read<Field>
    requires { Gets (Records.import_form Records.func_extern s.now at) }
    ensures { (imported_item (id_of s.now id) (list_of Token.string s.now exports) s.now at ≡ field_at s.now result) × ReadableField s.now result }
{
    let (name, a) = known_import_name(s, at)?;
    let (t, b) = typeuse::known_type_use(s, a)?;
    Ok((
        Field::Item {
            id,
            exports,
            source: Source::Imported(name, Extern::Func(t)),
        },
        b,
    ))
}

// A function: form 0 is the module's own, and no other form but 1 can be read.
#[tactic(auto, using(crate::proofs::Gets::known_funcs))]
fn known_func(s: &[u8], at: usize, seen: Seen) -> Read<Field>
    requires { Gets (Records.func_rec (room_of seen) s.now at) }
    ensures { (Records.func_rec (room_of seen) s.now at ≡ field_at s.now result) × ReadableField s.now result }
{
    let (id, a) = token::known_identifier(s, at)?;
    let (exports, b) = typeuse::known_strings(s, a)?;
    let (form, c) = token::read_byte(s, b)?;
    if form == 0 {
        return known_own(s, c, id, exports);
    }
    known_imported(s, c, id, exports)
}

// What follows the kind byte of an imported function.
#[tactic(auto, using(crate::proofs::Gets::known_externs))]
fn known_extern_func(s: &[u8], at: usize, name: ImportName) -> Read<Field>
    requires { Gets (imported_func (name_of s.now name) s.now at) }
    ensures { (imported_func (name_of s.now name) s.now at ≡ field_at s.now result) × ReadableField s.now result }
{
    let (id, a) = token::known_identifier(s, at)?;
    let (t, b) = typeuse::known_type_use(s, a)?;
    Ok((
        Field::Import {
            name,
            id,
            what: Extern::Func(t),
        },
        b,
    ))
}

// The name of an import: two strings.
#[tactic(auto, using(crate::proofs::Gets::known_names, syntax::proofs::Ways::reads), unfolding(definition::specs::Records::import_name))]
fn known_import_name(s: &[u8], at: usize) -> Read<ImportName>
    requires { Gets (Records.import_name s.now at) }
    ensures { Records.import_name s.now at ≡ name_at s.now result }
{
    let (module, a) = token::known_string(s, at)?;
    let (item, b) = token::known_string(s, a)?;
    Ok((ImportName { module, item }, b))
}

// An import; one that is not of a function is read as always.
#[tactic(auto, using(crate::proofs::Gets::known_imports))]
fn known_import(s: &[u8], at: usize, seen: Seen) -> Read<Field>
    requires { Gets (Records.import_rec (room_of seen) s.now at) }
    ensures { (Records.import_rec (room_of seen) s.now at ≡ field_at s.now result) × ReadableField s.now result }
{
    let (name, a) = known_import_name(s, at)?;
    let (kind, b) = token::read_byte(s, a)?;
    if kind == 0 {
        return known_extern_func(s, b, name);
    }
    item_records::item::read_import(s, at, seen)
}

// A field record that was read before.
#[tactic(auto, using(crate::proofs::Gets::known_fields))]
pub fn known_field(s: &[u8], at: usize, seen: Seen) -> Read<Field>
    requires { Gets (Records.field_rec (room_of seen) s.now at) }
    ensures { (Records.field_rec (room_of seen) s.now at ≡ field_at s.now result) × ReadableField s.now result }
{
    let (b, next) = token::read_byte(s, at)?;
    if b == 0x02 {
        return known_import(s, next, seen);
    }
    if b == 0x03 {
        return known_func(s, next, seen);
    }
    field_records::read_field(s, at, seen)
}

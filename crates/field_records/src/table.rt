// The table of field records.
ghost use Rattle.std.specs.Prelude.{◌≡◌};
ghost use Rattle.definition.specs.Records as Records;
ghost use Rattle.syntax.specs.Items.{room_of};
ghost use Rattle.syntax.specs.Fields.{field_at};

use syntax::{Fault, Field, Kind, Read, Seen};

// A field record, where the records before have brought what was seen.
#[tactic(auto, using(laws::proofs::Ways::ways, syntax::proofs::Ways::reads), unfolding(definition::specs::Records::field_rec, definition::specs::Records::field_recs, definition::specs::Records::func_rec, definition::specs::Records::table_rec, definition::specs::Records::mem_rec, definition::specs::Records::global_rec))]
pub fn read_field(s: &[u8], at: usize, seen: Seen) -> Read<Field>
    ensures { Records.field_rec (room_of seen) s.now at ≡ field_at s.now result }
{
    let (b, next) = token::read_byte(s, at)?;
    if b == 0x01 {
        return item_records::item::read_type(s, next, seen);
    }
    if b == 0x02 {
        return item_records::item::read_import(s, next, seen);
    }
    if b == 0x03 {
        return item_records::item::read_item(s, next, seen, Kind::Func);
    }
    if b == 0x04 {
        return item_records::item::read_item(s, next, seen, Kind::Table);
    }
    if b == 0x05 {
        return item_records::item::read_item(s, next, seen, Kind::Mem);
    }
    if b == 0x06 {
        return item_records::item::read_item(s, next, seen, Kind::Global);
    }
    if b == 0x07 {
        return crate::export::read_export(s, next);
    }
    if b == 0x08 {
        return crate::export::read_start(s, next, seen);
    }
    if b == 0x09 {
        return crate::segment::read_elem(s, next, seen);
    }
    if b == 0x0A {
        return crate::segment::read_data(s, next, seen);
    }
    Err(Fault::UnknownByte)
}

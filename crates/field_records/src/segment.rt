// Element and data segments.
ghost use Rattle.std.specs.Prelude.{◌≡◌};
ghost use Rattle.definition.specs.Records as Records;
ghost use Rattle.syntax.specs.Items.{room_of};
ghost use Rattle.syntax.specs.Fields.{field_at};

use syntax::{Elem, Fault, Field, Read, Seen, Space};

#[tactic(auto, using(sources::proofs::Ways::rooms, laws::proofs::Ways::ways, syntax::proofs::Ways::reads), unfolding(definition::specs::Records::elem_rec))]
pub fn read_elem(s: &[u8], at: usize, seen: Seen) -> Read<Field>
    ensures { Records.elem_rec (room_of seen) s.now at ≡ field_at s.now result }
{
    if !sources::has_room(seen, Space::Elems) {
        return Err(Fault::TooMany);
    }
    let (id, a) = token::read_identifier(s, at)?;
    let (mode, b) = item_records::read_mode(s, a)?;
    let (funcs, c) = typeuse::read_list(s, b, 1024, Elem::Index)?;
    Ok((Field::Elem { id, mode, funcs }, c))
}

#[tactic(auto, using(sources::proofs::Ways::rooms, laws::proofs::Ways::ways, syntax::proofs::Ways::reads), unfolding(definition::specs::Records::data_rec))]
pub fn read_data(s: &[u8], at: usize, seen: Seen) -> Read<Field>
    ensures { Records.data_rec (room_of seen) s.now at ≡ field_at s.now result }
{
    if !sources::has_room(seen, Space::Datas) {
        return Err(Fault::TooMany);
    }
    let (id, a) = token::read_identifier(s, at)?;
    let (mode, b) = item_records::read_mode(s, a)?;
    let (bytes, c) = token::read_data(s, b)?;
    Ok((Field::Data { id, mode, bytes }, c))
}

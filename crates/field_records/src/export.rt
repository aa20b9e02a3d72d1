// Exports, and the start.
ghost use Rattle.std.specs.Prelude.{◌≡◌};
ghost use Rattle.definition.specs.Records as Records;
ghost use Rattle.syntax.specs.Items.{room_of};
ghost use Rattle.syntax.specs.Fields.{field_at};

use syntax::{Fault, Field, Read, Seen};

#[tactic(auto, using(laws::proofs::Ways::ways, syntax::proofs::Ways::reads), unfolding(definition::specs::Records::export_rec))]
pub fn read_export(s: &[u8], at: usize) -> Read<Field>
    ensures { Records.export_rec s.now at ≡ field_at s.now result }
{
    let (name, a) = token::read_string(s, at)?;
    let (space, b) = item_records::read_kind(s, a)?;
    let (index, c) = token::read_present(s, b)?;
    Ok((Field::Export { name, space, index }, c))
}

// A second start is refused.
#[tactic(auto, using(item_records::proofs::Ways::starts, sources::proofs::Ways::stop_both, laws::proofs::Ways::ways, syntax::proofs::Ways::reads), unfolding(definition::specs::Records::start_rec))]
pub fn read_start(s: &[u8], at: usize, seen: Seen) -> Read<Field>
    ensures { Records.start_rec (room_of seen) s.now at ≡ field_at s.now result }
{
    if seen.started {
        return Err(Fault::SecondStart);
    }
    let (x, next) = token::read_present(s, at)?;
    Ok((Field::Start(x), next))
}

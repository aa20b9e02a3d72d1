// The kind byte of an export.
ghost use Rattle.std.specs.Prelude.{◌≡◌};
ghost use Rattle.definition.specs.Records as Records;
ghost use Rattle.syntax.specs.Fields.{space_at};

use syntax::{Fault, Read, Space};

#[tactic(auto, using(laws::proofs::Ways::ways, syntax::proofs::Ways::reads), unfolding(definition::specs::Records::kind))]
pub fn read_kind(s: &[u8], at: usize) -> Read<Space>
    ensures { Records.kind s.now at ≡ space_at result }
{
    let (b, next) = token::read_byte(s, at)?;
    if b == 0 {
        return Ok((Space::Funcs, next));
    }
    if b == 1 {
        return Ok((Space::Tables, next));
    }
    if b == 2 {
        return Ok((Space::Mems, next));
    }
    if b == 3 {
        return Ok((Space::Globals, next));
    }
    Err(Fault::UnknownByte)
}

// Where a segment stands.
ghost use Rattle.std.specs.Prelude.{◌≡◌};
ghost use Rattle.definition.specs.Records as Records;
ghost use Rattle.syntax.specs.Fields.{mode_at};

use syntax::{Fault, Mode, Read};

#[tactic(auto, using(laws::proofs::Ways::ways, syntax::proofs::Ways::reads), unfolding(definition::specs::Records::active_mode))]
fn active_mode(s: &[u8], at: usize) -> Read<Mode>
    ensures { Records.active_mode s.now at ≡ mode_at s.now result }
{
    let (x, a) = token::read_optional(s, at)?;
    let b = expr::pass_const(s, a)?;
    Ok((Mode::Active(x, a), b))
}

#[tactic(auto, using(laws::proofs::Ways::ways, syntax::proofs::Ways::reads), unfolding(definition::specs::Records::mode))]
pub fn read_mode(s: &[u8], at: usize) -> Read<Mode>
    ensures { Records.mode s.now at ≡ mode_at s.now result }
{
    let (b, next) = token::read_byte(s, at)?;
    if b == 0 {
        return Ok((Mode::Passive, next));
    }
    if b == 1 {
        return active_mode(s, next);
    }
    Err(Fault::UnknownByte)
}

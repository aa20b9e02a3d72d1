// Constants that are known by their places.
ghost use Rattle.std.specs.Prelude.{◌≡◌};
ghost use Rattle.definition.specs.Instructions as Instructions;
ghost use Rattle.syntax.specs.Plain.{plain_is, constant_at, constant_past};

use syntax::{Operand, Pass, Plain};

// Where a constant ends.
#[tactic(auto, using(crate::proofs::Constants::constants))]
pub fn pass_const(s: &[u8], at: usize) -> Pass
    ensures { Instructions.constant s.now at ≡ constant_past s.now at result }
{
    let (_, next) = crate::read_const(s, at)?;
    Ok(next)
}

// The constant at a place that was passed over.
#[tactic(auto, using(crate::proofs::Constants::constants))]
pub fn const_at(s: &[u8], at: usize) -> Plain
    ensures { plain_is s.now result ≡ constant_at s.now at }
{
    match crate::read_const(s, at) {
        Ok((c, _)) => c,
        Err(_) => {
            Plain {
                opcode: 0,
                operand: Operand::Nothing,
            }
        }
    }
}

// What stands after FC: a second byte, and the indices that it asks for. They are read once for all second bytes, by their spaces.
ghost use Rattle.std.specs.Prelude.{◌≡◌};
ghost use Rattle.definition.specs.Instructions as Instructions;
ghost use Rattle.laws.specs.Steps.{stops};
ghost use Rattle.syntax.specs.Tokens.{space_of, index_at, skip};
ghost use Rattle.syntax.specs.Plain.{plain_at};
ghost use Rattle.expr.specs.Readers.{bulk_past};

use syntax::{Fault, Index, Operand, Pass, Plain, Read, Space, Spaces};

// An index of this space: that of a memory may be absent.
#[tactic(auto, using(crate::proofs::Bulks::ins))]
pub fn read_in(s: &[u8], at: usize, k: Space) -> Read<Index>
    ensures { Instructions.index_in (space_of k) s.now at ≡ index_at s.now result }
{
    match k {
        Space::Mems => token::read_optional(s, at),
        _ => token::read_present(s, at),
    }
}

#[tactic(auto, using(crate::proofs::Bulks::ins))]
fn pass_in(s: &[u8], at: usize, k: Space) -> Pass
    ensures { stops (Instructions.index_in (space_of k) s.now at) ≡ skip result }
{
    match k {
        Space::Mems => token::pass_optional(s, at),
        _ => token::pass_present(s, at),
    }
}

// Where the indices after the second byte end.
#[tactic(auto, using(crate::proofs::Bulks::bulks_passed))]
fn pass_indices(s: &[u8], at: usize, b: u8) -> Pass
    ensures { Instructions.bulk_of b (Instructions.spaces_of b) s.now at ≡ bulk_past b s.now at result }
{
    match syntax::bulk_spaces(b) {
        Spaces::None => Err(Fault::UnknownByte),
        Spaces::One(k) => pass_in(s, at, k),
        Spaces::Two(j, k) => {
            let a = pass_in(s, at, j)?;
            return pass_in(s, a, k);
        }
    }
}

#[tactic(auto, using(syntax::proofs::Ways::reads), unfolding(definition::specs::Instructions::plain_of))]
pub fn bulk_plain(s: &[u8], at: usize, opcode: u8) -> Read<Plain>
    ensures { Instructions.plain_of opcode Instructions.bulk s.now at ≡ plain_at s.now result }
{
    let (b, a) = token::read_byte(s, at)?;
    let next = pass_indices(s, a, b)?;
    Ok((
        Plain {
            opcode,
            operand: Operand::Items(b, a),
        },
        next,
    ))
}

#[tactic(auto, using(crate::proofs::Bulks::seconds))]
pub fn pass_bulk(s: &[u8], at: usize) -> Pass
    ensures { stops (Instructions.plain_of 0 Instructions.bulk s.now at) ≡ skip result }
{
    let (b, a) = token::read_byte(s, at)?;
    pass_indices(s, a, b)
}

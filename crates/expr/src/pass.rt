// Instructions that are passed over: where their operands end. That is the same for every opcode, so the contracts name the opcode 0.
ghost use Rattle.std.specs.Prelude.{◌≡◌};
ghost use Rattle.definition.specs.Instructions as Instructions;
ghost use Rattle.definition.specs.Token as Token;
ghost use Rattle.laws.specs.Steps.{stops};
ghost use Rattle.syntax.specs.Tokens.{skip};
ghost use Rattle.syntax.specs.Plain.{operands_is};

use syntax::{Elem, Operands, Pass};

#[tactic(auto, using(token::proofs::Skips::passed_over), unfolding(definition::specs::Instructions::plain_of))]
fn pass_labels(s: &[u8], at: usize) -> Pass
    ensures { stops (Instructions.plain_of 0 Instructions.labelidxs s.now at) ≡ skip result }
{
    let (_, next) = typeuse::read_list(s, at, 1024, Elem::Index)?;
    token::pass_present(s, next)
}

// The offset stands before the memory.
#[tactic(auto, using(crate::proofs::Skips::accesses))]
fn pass_access(s: &[u8], at: usize) -> Pass
    ensures { stops (Instructions.plain_of 0 Instructions.memarg s.now at) ≡ skip result }
{
    let (_, a) = crate::alignment(s, at)?;
    let c = token::pass_u32(s, a)?;
    token::pass_optional(s, c)
}

#[tactic(auto, using(token::proofs::Skips::passed_over))]
fn pass_u64(s: &[u8], at: usize) -> Pass
    ensures { stops (Token.u64 s.now at) ≡ skip result }
{
    let (_, next) = leb::read_u64(s, at)?;
    Ok(next)
}

#[tactic(auto, using(token::proofs::Skips::passed_over))]
fn pass_heap(s: &[u8], at: usize) -> Pass
    ensures { stops (Token.ref_type s.now at) ≡ skip result }
{
    let (_, next) = coretypes::ref_type(s, at)?;
    Ok(next)
}

#[tactic(auto, using(token::proofs::Skips::passed_over), unfolding(definition::specs::Instructions::plain_of))]
pub fn pass_plain(s: &[u8], at: usize, what: Operands) -> Pass
    ensures { stops (Instructions.plain_of 0 (operands_is what) s.now at) ≡ skip result }
{
    match what {
        Operands::Bare => Ok(at),
        Operands::LabelIdx => token::pass_present(s, at),
        Operands::LabelIdxs => pass_labels(s, at),
        Operands::LocalIdx => token::pass_present(s, at),
        Operands::FuncIdx => token::pass_present(s, at),
        Operands::GlobalIdx => token::pass_present(s, at),
        Operands::MemIdx => token::pass_optional(s, at),
        Operands::MemArg => pass_access(s, at),
        Operands::I32 => token::pass_u32(s, at),
        Operands::I64 => pass_u64(s, at),
        Operands::F32 => token::pass_bytes(s, at, 4),
        Operands::F64 => token::pass_bytes(s, at, 8),
        Operands::HeapType => pass_heap(s, at),
        Operands::Bulk => crate::bulk::pass_bulk(s, at),
    }
}

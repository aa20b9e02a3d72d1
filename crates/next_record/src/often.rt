// What stands after the opcodes that are met most.
ghost use Rattle.std.specs.Prelude.{◌≡◌};
ghost use Rattle.syntax.specs.Tokens.{skip};
ghost use Rattle.next_record.specs.Often.{OftenIs, often_stops};

use syntax::{Index, Operands, Pass};

// Nothing, an index that must be present, what a load or store has, or a number of 32 bits.
#[derive(Clone, Copy)]
pub enum Often {
    Nothing,
    Index,
    Access,
    Number,
}

// By a table of its own, which is taken into its one caller: `instr::opcode_form`, which others need too, is a call. From 45 to C4 nothing stands
// after any. Of the other opcodes nothing is said.
pub fn often_after(opcode: u8) -> Option<Often>
    ensures { OftenIs opcode result }
{
    if 0x44 < opcode {
        if opcode < 0xC5 {
            return Some(Often::Nothing);
        }
        return None;
    }
    match opcode {
        0x0C => Some(Often::Index),
        0x0D => Some(Often::Index),
        0x0F => Some(Often::Nothing),
        0x10 => Some(Often::Index),
        0x1A => Some(Often::Nothing),
        0x1B => Some(Often::Nothing),
        0x20 => Some(Often::Index),
        0x21 => Some(Often::Index),
        0x22 => Some(Often::Index),
        0x23 => Some(Often::Index),
        0x24 => Some(Often::Index),
        0x28 => Some(Often::Access),
        0x29 => Some(Often::Access),
        0x2A => Some(Often::Access),
        0x2B => Some(Often::Access),
        0x2C => Some(Often::Access),
        0x2D => Some(Often::Access),
        0x2E => Some(Often::Access),
        0x2F => Some(Often::Access),
        0x30 => Some(Often::Access),
        0x31 => Some(Often::Access),
        0x32 => Some(Often::Access),
        0x33 => Some(Often::Access),
        0x34 => Some(Often::Access),
        0x35 => Some(Often::Access),
        0x36 => Some(Often::Access),
        0x37 => Some(Often::Access),
        0x38 => Some(Often::Access),
        0x39 => Some(Often::Access),
        0x3A => Some(Often::Access),
        0x3B => Some(Often::Access),
        0x3C => Some(Often::Access),
        0x3D => Some(Often::Access),
        0x3E => Some(Often::Access),
        0x41 => Some(Often::Number),
        _ => None,
    }
}

// Passed over.
pub fn pass_often(s: &[u8], at: usize, what: Often) -> Pass
    ensures { often_stops what s.now at ≡ skip result }
{
    match what {
        Often::Nothing => Ok(at),
        Often::Index => token::pass_present(s, at),
        Often::Access => instr::read_past(s, at, Operands::MemArg),
        Often::Number => token::pass_u32(s, at),
    }
}

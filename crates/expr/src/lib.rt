// Instructions that open and close no block and have no type use, and constants.
#![tactic(auto)]

pub mod bulk;
pub mod constant;
pub mod pass;

ghost use Rattle.std.specs.Prelude.{◌≡◌};
ghost use Rattle.definition.specs.Instructions as Instructions;
ghost use Rattle.syntax.specs.Tokens.{byte_at};
ghost use Rattle.syntax.specs.Plain.{operands_is, plain_at};
ghost use Rattle.expr.specs.Readers.{operand_to, indexed, raw_of};

pub use bulk::read_in;
pub use constant::{const_at, pass_const};
pub use pass::pass_plain;
use syntax::{Elem, Fault, Index, Local, Operand, Operands, Plain, Read, Space};

// What an index refers to.
#[derive(Clone, Copy)]
pub enum Refers {
    Label,
    Local,
    Func,
    Global,
}

#[tactic(auto, using(crate::proofs::Ways::to_is))]
fn operand_to(to: Refers, x: Index) -> Operand
    ensures { result ≡ operand_to to x }
{
    match to {
        Refers::Label => Operand::Label(x),
        Refers::Local => Operand::Local(x),
        Refers::Func => Operand::Item(Space::Funcs, x),
        Refers::Global => Operand::Item(Space::Globals, x),
    }
}

// An instruction whose operand is an index that must be present.
#[tactic(auto, using(syntax::proofs::Ways::reads, crate::proofs::Ways::index_operand), unfolding(crate::specs::Readers::indexed))]
fn index_plain(s: &[u8], at: usize, opcode: u8, to: Refers) -> Read<Plain>
    ensures { indexed opcode to s.now at ≡ plain_at s.now result }
{
    let (x, next) = token::read_present(s, at)?;
    let operand = operand_to(to, x);
    Ok((Plain { opcode, operand }, next))
}

#[tactic(auto, using(syntax::proofs::Ways::reads), unfolding(definition::specs::Instructions::plain_of))]
fn labels_plain(s: &[u8], at: usize, opcode: u8) -> Read<Plain>
    ensures { Instructions.plain_of opcode Instructions.labelidxs s.now at ≡ plain_at s.now result }
{
    let (xs, a) = typeuse::read_list(s, at, 1024, Elem::Index)?;
    let (x, b) = token::read_present(s, a)?;
    Ok((
        Plain {
            opcode,
            operand: Operand::Labels(xs, x),
        },
        b,
    ))
}

#[tactic(auto, using(syntax::proofs::Ways::reads), unfolding(definition::specs::Instructions::plain_of))]
fn mem_plain(s: &[u8], at: usize, opcode: u8) -> Read<Plain>
    ensures { Instructions.plain_of opcode Instructions.memidx s.now at ≡ plain_at s.now result }
{
    let (x, next) = token::read_optional(s, at)?;
    Ok((
        Plain {
            opcode,
            operand: Operand::Item(Space::Mems, x),
        },
        next,
    ))
}

// The natural exponents of the opcodes 28 to 3E.
const NATURAL: [u8; 23] =
    *b"\x02\x03\x02\x03\x00\x00\x01\x01\x00\x00\x01\x01\x02\x02\x02\x03\x02\x03\x00\x01\x00\x01\x02";

#[tactic(auto, using(crate::proofs::Ways::natural_low, crate::proofs::Ways::natural_high), unfolding(definition::specs::Instructions::exponent, definition::specs::Instructions::naturals))]
fn natural(op: u8) -> u8
    ensures { result ≡ Instructions.exponent op 0 }
{
    if op < 0x28 {
        return NATURAL[0];
    }
    if 0x3E < op {
        return 0;
    }
    NATURAL[(op - 0x28) as usize]
}

// The exponent that an alignment byte says.
#[tactic(auto, using(laws::proofs::Exits::exits), unfolding(definition::specs::Instructions::exponent))]
fn exponent(op: u8, b: u8) -> u8
    ensures { result ≡ Instructions.exponent op b }
{
    if b == 0 {
        return natural(op);
    }
    b - 1
}

#[tactic(auto, using(syntax::proofs::Ways::reads, laws::proofs::Ways::ways), unfolding(definition::specs::Instructions::alignment))]
fn alignment(s: &[u8], at: usize) -> Read<u8>
    ensures { Instructions.alignment s.now at ≡ byte_at result }
{
    let (b, next) = token::read_byte(s, at)?;
    if b <= 32 {
        return Ok((b, next));
    }
    Err(Fault::UnknownByte)
}

#[tactic(auto, using(syntax::proofs::Ways::reads), unfolding(definition::specs::Instructions::plain_of))]
fn access_plain(s: &[u8], at: usize, opcode: u8) -> Read<Plain>
    ensures { Instructions.plain_of opcode Instructions.memarg s.now at ≡ plain_at s.now result }
{
    let (b, a) = alignment(s, at)?;
    let (offset, c) = leb::read_u32(s, a)?;
    let (x, d) = token::read_optional(s, c)?;
    let e = exponent(opcode, b);
    Ok((
        Plain {
            opcode,
            operand: Operand::Access(e, offset, x),
        },
        d,
    ))
}

#[tactic(auto, using(syntax::proofs::Ways::reads), unfolding(definition::specs::Instructions::plain_of))]
fn i32_plain(s: &[u8], at: usize, opcode: u8) -> Read<Plain>
    ensures { Instructions.plain_of opcode Instructions.i32 s.now at ≡ plain_at s.now result }
{
    let (n, next) = leb::read_u32(s, at)?;
    Ok((
        Plain {
            opcode,
            operand: Operand::Int32(n),
        },
        next,
    ))
}

#[tactic(auto, using(syntax::proofs::Ways::reads), unfolding(definition::specs::Instructions::plain_of))]
fn i64_plain(s: &[u8], at: usize, opcode: u8) -> Read<Plain>
    ensures { Instructions.plain_of opcode Instructions.i64 s.now at ≡ plain_at s.now result }
{
    let (n, next) = leb::read_u64(s, at)?;
    Ok((
        Plain {
            opcode,
            operand: Operand::Int64(n),
        },
        next,
    ))
}

// A float constant: four or eight raw bytes.
#[tactic(auto, using(syntax::proofs::Ways::reads), unfolding(crate::specs::Readers::raw_of))]
fn raw_plain(s: &[u8], at: usize, opcode: u8, len: u32) -> Read<Plain>
    ensures { raw_of opcode len s.now at ≡ plain_at s.now result }
{
    let (p, next) = token::read_raw(s, at, len)?;
    Ok((
        Plain {
            opcode,
            operand: Operand::Raw(p),
        },
        next,
    ))
}

#[tactic(auto, using(syntax::proofs::Ways::reads), unfolding(definition::specs::Instructions::plain_of))]
fn heap_plain(s: &[u8], at: usize, opcode: u8) -> Read<Plain>
    ensures { Instructions.plain_of opcode Instructions.heaptype s.now at ≡ plain_at s.now result }
{
    let (t, next) = coretypes::ref_type(s, at)?;
    Ok((
        Plain {
            opcode,
            operand: Operand::Heap(t),
        },
        next,
    ))
}

#[tactic(auto, unfolding(definition::specs::Instructions::plain_of, crate::specs::Readers::indexed, crate::specs::Readers::raw_of))]
pub fn read_plain(s: &[u8], at: usize, opcode: u8, what: Operands) -> Read<Plain>
    ensures { Instructions.plain_of opcode (operands_is what) s.now at ≡ plain_at s.now result }
{
    match what {
        Operands::Bare => Ok((
            Plain {
                opcode,
                operand: Operand::Nothing,
            },
            at,
        )),
        Operands::LabelIdx => index_plain(s, at, opcode, Refers::Label),
        Operands::LabelIdxs => labels_plain(s, at, opcode),
        Operands::LocalIdx => index_plain(s, at, opcode, Refers::Local),
        Operands::FuncIdx => index_plain(s, at, opcode, Refers::Func),
        Operands::GlobalIdx => index_plain(s, at, opcode, Refers::Global),
        Operands::MemIdx => mem_plain(s, at, opcode),
        Operands::MemArg => access_plain(s, at, opcode),
        Operands::I32 => i32_plain(s, at, opcode),
        Operands::I64 => i64_plain(s, at, opcode),
        Operands::F32 => raw_plain(s, at, opcode, 4),
        Operands::F64 => raw_plain(s, at, opcode, 8),
        Operands::HeapType => heap_plain(s, at, opcode),
        Operands::Bulk => crate::bulk::bulk_plain(s, at, opcode),
    }
}

// A constant is one instruction, chosen by its first byte.
#[tactic(auto, using(syntax::proofs::Ways::reads, laws::proofs::Ways::ways), unfolding(definition::specs::Instructions::constant, definition::specs::Instructions::plain_of, crate::specs::Readers::indexed, crate::specs::Readers::raw_of))]
pub fn read_const(s: &[u8], at: usize) -> Read<Plain>
    ensures { Instructions.constant s.now at ≡ plain_at s.now result }
{
    let (b, next) = token::read_byte(s, at)?;
    if b == 0 {
        return i32_plain(s, next, 0x41);
    }
    if b == 1 {
        return i64_plain(s, next, 0x42);
    }
    if b == 2 {
        return raw_plain(s, next, 0x43, 4);
    }
    if b == 3 {
        return raw_plain(s, next, 0x44, 8);
    }
    if b == 4 {
        return index_plain(s, next, 0x23, Refers::Global);
    }
    if b == 5 {
        return heap_plain(s, next, 0xD0);
    }
    if b == 6 {
        return index_plain(s, next, 0xD2, Refers::Func);
    }
    Err(Fault::UnknownByte)
}

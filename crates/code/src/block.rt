// Instructions that open or close a block or have a type use.
ghost use Rattle.std.specs.Prelude.{◌≡◌, [], ◌-◌, ◌≤◌, length};
ghost use Rattle.std.proofs.Math.Option.{none};
ghost use Rattle.area.specs.Layout.{WORDS};
ghost use Rattle.area.specs.Lent.{Lent};
ghost use Rattle.definition.specs.Syntax.{opens, indirect, instr};
ghost use Rattle.definition.specs.Reader.{got};
ghost use Rattle.definition.specs.Instructions as Instructions;
ghost use Rattle.definition.specs.Types as Types;
ghost use Rattle.definition.specs.Names as Names;
ghost use Rattle.definition.specs.Binary as Binary;
ghost use Rattle.syntax.specs.Tokens.{id_of, index_of};
ghost use Rattle.token.specs.Known.{Gets};
ghost use Rattle.syntax.specs.TypeUses.{use_of};
ghost use Rattle.type_table.specs.Table.{types_in, Recalled};
ghost use Rattle.instr.specs.Bodies.{deep_instr};
ghost use Rattle.scope.specs.Scope.{scope_in};
ghost use Rattle.type_table.specs.Uses.{block_uses};
ghost use Rattle.binary.specs.Emits.{Emits};
ghost use Rattle.plain.specs.Turns.{InBody, record_of, read_uses, AnyLocals};
ghost use Rattle.code.specs.Code.{closing_code, closing_form, closing_op};

use syntax::{Index, Part, Place, Resolved, Space, TypeUse};

// A block, a loop or an if.
#[tactic(auto, using(crate::proofs::Blocks::opens_to, crate::proofs::Blocks::opens_not))]
fn emit_opens(
    s: &[u8],
    work: &[u32],
    out: &mut [u8],
    at: usize,
    p: Place,
    opcode: u8,
    t: TypeUse,
) -> Resolved<usize>
    requires { (WORDS ≤ length work.now) × Recalled work.now (types_in s.now work.now) (Types.used_at p.rec (block_uses (use_of s.now t))) }
    ensures { Emits Binary.instruction (Names.instr_op (scope_in s.now work.now) [] [] p.rec (opens opcode none (use_of s.now t))) out.old at result out.new }
{
    let b = scope::block_type(s, work, t, p.rec)?;
    let a = emit::put(out, at, opcode);
    Ok(binary::put_block_type(out, a, b))
}

// It is written, and its label is the innermost.
#[tactic(auto, using(crate::proofs::Blocks::opened_on, crate::proofs::Blocks::opened_not), unfolding(binary::specs::Emits::Emits))]
fn opened(
    s: &[u8],
    work: &mut [u32],
    out: &mut [u8],
    at: usize,
    p: Place,
    next: usize,
    opcode: u8,
    label: Part,
    t: TypeUse,
) -> Resolved<Option<(usize, Place)>>
    requires { Lent s.now work.old × InBody p × (p.depth ≤ 128) × Recalled work.old (types_in s.now work.old) (Types.used_at p.rec (block_uses (use_of s.now t))) }
    ensures { AnyLocals s.now work.old (p.depth - 1) p.rec (got (instr (opens opcode (id_of s.now label) (use_of s.now t))) next) out.old at result work.new out.new }
{
    let o = emit_opens(s, work, out, at, p, opcode, t)?;
    frames::open_block(s, work, p.depth - 1, label);
    plain::go_on(Ok(o), p, next, p.depth + 1)
}

pub fn opens_record(
    s: &[u8],
    work: &mut [u32],
    out: &mut [u8],
    at: usize,
    p: Place,
    opcode: u8,
) -> Resolved<Option<(usize, Place)>>
    requires { Lent s.now work.old × InBody p × Recalled work.old (types_in s.now work.old) (read_uses p.rec (deep_instr (p.depth - 1) opcode Instructions.opening s.now p.at)) × Gets (deep_instr (p.depth - 1) opcode Instructions.opening s.now p.at) }
    ensures { AnyLocals s.now work.old (p.depth - 1) p.rec (record_of (deep_instr (p.depth - 1) opcode Instructions.opening s.now p.at)) out.old at result work.new out.new }
{
    if 128 < p.depth {
        return Ok(None);
    }
    match token::known_identifier(s, p.at) {
        Ok((label, a)) => match typeuse::known_type_use(s, a) {
            Ok((t, next)) => opened(s, work, out, at, p, next, opcode, label, t),
            Err(_) => Ok(None),
        },
        Err(_) => Ok(None),
    }
}

// An else or an end: its label, if any, is that of the innermost block.
#[tactic(auto, using(crate::proofs::Blocks::closing_to, crate::proofs::Blocks::closing_not))]
fn emit_closing(
    s: &[u8],
    work: &[u32],
    out: &mut [u8],
    at: usize,
    p: Place,
    opcode: u8,
    label: Part,
) -> Resolved<usize>
    requires { (WORDS ≤ length work.now) × InBody p }
    ensures { Emits Binary.instruction (closing_op s.now work.now (p.depth - 1) p.rec opcode (id_of s.now label)) out.old at result out.new }
{
    scope::closes(s, work, p.depth - 1, label, p.rec)?;
    Ok(emit::put(out, at, opcode))
}

// An else closes no block, an end one.
pub fn closing_record(
    s: &[u8],
    work: &[u32],
    out: &mut [u8],
    at: usize,
    p: Place,
    opcode: u8,
    closed: u32,
) -> Resolved<Option<(usize, Place)>>
    requires { (WORDS ≤ length work.now) × InBody p × (closed ≤ 1) × (opcode ≡ closing_code closed) × Gets (deep_instr (p.depth - 1) opcode (closing_form closed) s.now p.at) }
    ensures { AnyLocals s.now work.now (p.depth - 1) p.rec (record_of (deep_instr (p.depth - 1) opcode (closing_form closed) s.now p.at)) out.old at result work.now out.new }
{
    if p.depth < 2 {
        return Ok(None);
    }
    match token::known_identifier(s, p.at) {
        Ok((label, next)) => {
            let e = emit_closing(s, work, out, at, p, opcode, label);
            plain::go_on(e, p, next, p.depth - closed)
        }
        Err(_) => Ok(None),
    }
}

// A call_indirect: the table is resolved before the type.
#[tactic(auto, using(crate::proofs::Blocks::indirect_to, crate::proofs::Blocks::indirect_stops, crate::proofs::Blocks::indirect_not))]
fn emit_indirect(
    s: &[u8],
    work: &[u32],
    out: &mut [u8],
    at: usize,
    p: Place,
    x: Index,
    t: TypeUse,
) -> Resolved<usize>
    requires { (WORDS ≤ length work.now) × Recalled work.now (types_in s.now work.now) (Types.used_at p.rec (Types.use_of (use_of s.now t))) }
    ensures { Emits Binary.instruction (Names.instr_op (scope_in s.now work.now) [] [] p.rec (indirect (index_of s.now x) (use_of s.now t))) out.old at result out.new }
{
    let table = scope::item_no(s, work, Space::Tables, x, p.rec)?;
    let n = scope::type_no(s, work, t, p.rec)?;
    let a = emit::put(out, at, 0x11);
    Ok(binary::put_indirect(out, a, n, table))
}

pub fn indirect_record(
    s: &[u8],
    work: &[u32],
    out: &mut [u8],
    at: usize,
    p: Place,
) -> Resolved<Option<(usize, Place)>>
    requires { (WORDS ≤ length work.now) × InBody p × Recalled work.now (types_in s.now work.now) (read_uses p.rec (deep_instr (p.depth - 1) 0x11 Instructions.calling s.now p.at)) × Gets (deep_instr (p.depth - 1) 0x11 Instructions.calling s.now p.at) }
    ensures { AnyLocals s.now work.now (p.depth - 1) p.rec (record_of (deep_instr (p.depth - 1) 0x11 Instructions.calling s.now p.at)) out.old at result work.now out.new }
{
    match token::known_optional(s, p.at) {
        Ok((x, a)) => match typeuse::known_type_use(s, a) {
            Ok((t, next)) => {
                let e = emit_indirect(s, work, out, at, p, x, t);
                plain::go_on(e, p, next, p.depth)
            }
            Err(_) => Ok(None),
        },
        Err(_) => Ok(None),
    }
}

// Operands, each resolved and put.
ghost use Rattle.std.specs.Prelude.{[], ◌≤◌, length};
ghost use Rattle.area.specs.Layout.{WORDS};
ghost use Rattle.definition.specs.Syntax.{label, local, item, access};
ghost use Rattle.definition.specs.Names as Names;
ghost use Rattle.definition.specs.Binary as Binary;
ghost use Rattle.syntax.specs.Tokens.{space_of, index_of};
ghost use Rattle.syntax.specs.Plain.{operand_of, plain_is};
ghost use Rattle.scope.specs.Scope.{scope_in, locals_in, FewLocals, labels_in};
ghost use Rattle.binary.specs.Emits.{Emits};

use scope::Locals;
use syntax::{Index, Operand, Plain, Resolved, Space};

pub fn emit_label(
    s: &[u8],
    work: &[u32],
    out: &mut [u8],
    at: usize,
    k: u32,
    x: Index,
    rec: u32,
) -> Resolved<usize>
    requires { (WORDS ≤ length work.now) × (k ≤ 128) }
    ensures { Emits Binary.imm (Names.immediate (scope_in s.now work.now) [] (labels_in s.now work.now k) rec (label (index_of s.now x))) out.old at result out.new }
{
    crate::indices::emit_depth(s, work, out, at, k, x, rec)
}

pub fn emit_local(
    s: &[u8],
    work: &[u32],
    out: &mut [u8],
    at: usize,
    l: Locals,
    x: Index,
    rec: u32,
) -> Resolved<usize>
    requires { (WORDS ≤ length work.now) × FewLocals l }
    ensures { Emits Binary.imm (Names.immediate (scope_in s.now work.now) (locals_in s.now work.now l) [] rec (local (index_of s.now x))) out.old at result out.new }
{
    let n = scope::local_no(s, work, l, x, rec)?;
    Ok(binary::put_local(out, at, n))
}

pub fn emit_item(
    s: &[u8],
    work: &[u32],
    out: &mut [u8],
    at: usize,
    kind: Space,
    x: Index,
    rec: u32,
) -> Resolved<usize>
    requires { WORDS ≤ length work.now }
    ensures { Emits Binary.imm (Names.immediate (scope_in s.now work.now) [] [] rec (item (space_of kind) (index_of s.now x))) out.old at result out.new }
{
    crate::indices::emit_number(s, work, out, at, kind, x, rec)
}

// A load's or store's alignment, offset and memory.
fn emit_access(
    s: &[u8],
    work: &[u32],
    out: &mut [u8],
    at: usize,
    exponent: u8,
    offset: u32,
    x: Index,
    rec: u32,
) -> Resolved<usize>
    requires { WORDS ≤ length work.now }
    ensures { Emits Binary.imm (Names.immediate (scope_in s.now work.now) [] [] rec (access exponent offset (index_of s.now x))) out.old at result out.new }
{
    let m = scope::item_no(s, work, Space::Mems, x, rec)?;
    Ok(binary::put_memarg(out, at, exponent, offset, m))
}

fn emit_operand(
    s: &[u8],
    work: &[u32],
    out: &mut [u8],
    at: usize,
    l: Locals,
    k: u32,
    operand: Operand,
    rec: u32,
) -> Resolved<usize>
    requires { (WORDS ≤ length work.now) × FewLocals l × (k ≤ 128) }
    ensures { Emits Binary.imm (Names.immediate (scope_in s.now work.now) (locals_in s.now work.now l) (labels_in s.now work.now k) rec (operand_of s.now operand)) out.old at result out.new }
{
    match operand {
        Operand::Nothing => Ok(at),
        Operand::Label(x) => emit_label(s, work, out, at, k, x, rec),
        Operand::Labels(xs, x) => crate::indices::emit_labels(s, work, out, at, k, xs, x, rec),
        Operand::Local(x) => emit_local(s, work, out, at, l, x, rec),
        Operand::Item(kind, x) => emit_item(s, work, out, at, kind, x, rec),
        Operand::Items(b, here) => crate::items::emit_items(s, work, out, at, b, here, rec),
        Operand::Access(e, o, x) => emit_access(s, work, out, at, e, o, x, rec),
        Operand::Int32(n) => Ok(leb::put_i32(out, at, n)),
        Operand::Int64(n) => Ok(leb::put_i64(out, at, n)),
        Operand::Raw(p) => Ok(binary::put_part(s, out, at, p)),
        Operand::Heap(t) => Ok(emit::put(out, at, t)),
    }
}

// An instruction that opens and closes no block and has no type use: its opcode, and then its operand.
pub fn emit_plain(
    s: &[u8],
    work: &[u32],
    out: &mut [u8],
    at: usize,
    l: Locals,
    k: u32,
    p: Plain,
    rec: u32,
) -> Resolved<usize>
    requires { (WORDS ≤ length work.now) × FewLocals l × (k ≤ 128) }
    ensures { Emits Binary.instruction (Names.plain_op (scope_in s.now work.now) (locals_in s.now work.now l) (labels_in s.now work.now k) rec (plain_is s.now p)) out.old at result out.new }
{
    let operand = p.operand;
    let a = emit::put(out, at, p.opcode);
    emit_operand(s, work, out, a, l, k, operand, rec)
}

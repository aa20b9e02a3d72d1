// Constants: one instruction and the end.
ghost use Rattle.std.specs.Prelude.{◌≤◌, length};
ghost use Rattle.area.specs.Layout.{WORDS};
ghost use Rattle.definition.specs.Names as Names;
ghost use Rattle.emit.specs.Put.{Put};
ghost use Rattle.syntax.specs.Plain.{constant_at};
ghost use Rattle.scope.specs.Scope.{scope_in};
ghost use Rattle.binary.specs.Emits.{Emits};
ghost use Rattle.operands.specs.Operands.{const_bytes, zero_op};

use scope::Locals;
use syntax::Resolved;

// The constant at the place c. It has no locals and no blocks, so no label or local of it has a name.
pub fn emit_const(
    s: &[u8],
    work: &[u32],
    out: &mut [u8],
    at: usize,
    c: usize,
    rec: u32,
) -> Resolved<usize>
    requires { WORDS ≤ length work.now }
    ensures { Emits const_bytes (Names.const_op (scope_in s.now work.now) rec (constant_at s.now c)) out.old at result out.new }
{
    let plain = expr::const_at(s, c);
    let none = Locals {
        nameless: 0,
        count: 0,
    };
    let o = crate::operand::emit_plain(s, work, out, at, none, 0, plain, rec)?;
    Ok(emit::put(out, o, 0x0B))
}

// Offset 0, as wide as the item's indices.
pub fn put_zero_offset(out: &mut [u8], at: usize, is64: bool) -> usize
    ensures { Put out.old at (const_bytes (zero_op is64)) result out.new }
{
    if is64 {
        let a = emit::put(out, at, 0x42);
        let b = leb::put_i64(out, a, 0);
        return emit::put(out, b, 0x0B);
    }
    let a = emit::put(out, at, 0x41);
    let b = leb::put_i32(out, a, 0);
    emit::put(out, b, 0x0B)
}

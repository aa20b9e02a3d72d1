// Data segments.
ghost use Rattle.std.specs.Prelude.{[], ◌∷◌, ◌≤◌, eqb, length, if◌then◌else◌};
ghost use Rattle.std.proofs.Math.Option.{none};
ghost use Rattle.area.specs.Layout.{WORDS};
ghost use Rattle.definition.specs.Syntax.{mems, active, data_f};
ghost use Rattle.definition.specs.Names as Names;
ghost use Rattle.definition.specs.Binary as Binary;
ghost use Rattle.emit.specs.Put.{Put};
ghost use Rattle.syntax.specs.Tokens.{part_of, index_of};
ghost use Rattle.syntax.specs.Plain.{constant_at};
ghost use Rattle.syntax.specs.Fields.{mode_of};
ghost use Rattle.scope.specs.Scope.{scope_in};
ghost use Rattle.binary.specs.Emits.{Emits};
ghost use Rattle.import_export.specs.Entry.{entry_of};
ghost use Rattle.segments.specs.Segments.{at_memory, data_mode};
ghost use Rattle.operands.specs.Operands.{zero_op};

use syntax::{Index, Mode, Part, Resolved, Space};

// Form 0 on memory 0, form 2 on another.
fn put_memory(out: &mut [u8], at: usize, m: u32) -> usize
    ensures { Put out.old at (if eqb m 0 then 0 ∷ [] else 2 ∷ Binary.u m) result out.new }
{
    if m == 0 {
        return emit::put(out, at, 0);
    }
    crate::elem_segment::put_form_2(out, at, m)
}

// The memory and the offset.
fn emit_on_memory(
    s: &[u8],
    work: &[u32],
    out: &mut [u8],
    at: usize,
    m: u32,
    c: usize,
    rec: u32,
) -> Resolved<usize>
    requires { WORDS ≤ length work.now }
    ensures { Emits (at_memory m) (Names.const_op (scope_in s.now work.now) rec (constant_at s.now c)) out.old at result out.new }
{
    let a = put_memory(out, at, m);
    operands::emit_const(s, work, out, a, c, rec)
}

fn emit_at_memory(
    s: &[u8],
    work: &[u32],
    out: &mut [u8],
    at: usize,
    x: Index,
    c: usize,
    rec: u32,
) -> Resolved<usize>
    requires { WORDS ≤ length work.now }
    ensures { Emits data_mode (Names.mode_of (scope_in s.now work.now) (Names.item_no (scope_in s.now work.now) mems) rec (active (index_of s.now x) (constant_at s.now c))) out.old at result out.new }
{
    let m = scope::item_no(s, work, Space::Mems, x, rec)?;
    emit_on_memory(s, work, out, at, m, c, rec)
}

// What stands before the bytes: form 1, or the memory and the offset.
fn emit_data_mode(
    s: &[u8],
    work: &[u32],
    out: &mut [u8],
    at: usize,
    mode: Mode,
    rec: u32,
) -> Resolved<usize>
    requires { WORDS ≤ length work.now }
    ensures { Emits data_mode (Names.mode_of (scope_in s.now work.now) (Names.item_no (scope_in s.now work.now) mems) rec (mode_of s.now mode)) out.old at result out.new }
{
    match mode {
        Mode::Passive => Ok(emit::put(out, at, 1)),
        Mode::Active(x, c) => emit_at_memory(s, work, out, at, x, c, rec),
    }
}

pub fn emit_data(
    s: &[u8],
    work: &[u32],
    out: &mut [u8],
    at: usize,
    mode: Mode,
    bytes: Part,
    rec: u32,
) -> Resolved<usize>
    requires { WORDS ≤ length work.now }
    ensures { Emits entry_of (Names.resolve (scope_in s.now work.now) rec (data_f none (mode_of s.now mode) (part_of s.now bytes))) out.old at result out.new }
{
    let a = emit_data_mode(s, work, out, at, mode, rec)?;
    Ok(binary::put_name(s, out, a, bytes))
}

// The data of an inline memory, which is the memory numbered n.
pub fn put_inline_data(
    s: &[u8],
    out: &mut [u8],
    at: usize,
    is64: bool,
    n: u32,
    bytes: Part,
) -> usize
    ensures { Put out.old at (Binary.data' (active n (zero_op is64)) (part_of s.now bytes)) result out.new }
{
    let a = put_memory(out, at, n);
    let b = operands::put_zero_offset(out, a, is64);
    binary::put_name(s, out, b, bytes)
}

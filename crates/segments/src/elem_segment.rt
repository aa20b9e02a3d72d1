// Element segments.
ghost use Rattle.std.specs.Prelude.{◌≡◌, [], ◌∷◌, ◌≤◌, length};
ghost use Rattle.std.proofs.Math.Option.{none, some};
ghost use Rattle.area.specs.Layout.{WORDS};
ghost use Rattle.definition.specs.Syntax.{active, own_index, elem_f};
ghost use Rattle.definition.specs.Token as Token;
ghost use Rattle.definition.specs.Deinline as Deinline;
ghost use Rattle.definition.specs.Names as Names;
ghost use Rattle.definition.specs.Binary as Binary;
ghost use Rattle.emit.specs.Put.{Put};
ghost use Rattle.syntax.specs.Tokens.{index_of};
ghost use Rattle.syntax.specs.TypeUses.{list_of};
ghost use Rattle.syntax.specs.Plain.{constant_at};
ghost use Rattle.syntax.specs.Fields.{mode_of};
ghost use Rattle.scope.specs.Scope.{scope_in};
ghost use Rattle.binary.specs.Emits.{Emits};
ghost use Rattle.operands.specs.Operands.{zero_op};
ghost use Rattle.import_export.specs.Entry.{entry_of};
ghost use Rattle.segments.specs.Segments.{at_table, elem_mode, table_at};

use syntax::{Index, List, Mode, Resolved, Space};

fn table_no(s: &[u8], work: &[u32], x: Index, rec: u32) -> Resolved<Option<u32>>
    requires { WORDS ≤ length work.now }
    ensures { Names.table_no (scope_in s.now work.now) rec (index_of s.now x) ≡ table_at result }
{
    let n = scope::item_no(s, work, Space::Tables, x, rec)?;
    match x {
        Index::Absent => Ok(None),
        Index::Number(_) => Ok(Some(n)),
        Index::Named(_) => Ok(Some(n)),
    }
}

// Form 0, and the offset.
fn emit_without_table(
    s: &[u8],
    work: &[u32],
    out: &mut [u8],
    at: usize,
    c: usize,
    rec: u32,
) -> Resolved<usize>
    requires { WORDS ≤ length work.now }
    ensures { Emits (at_table none) (Names.const_op (scope_in s.now work.now) rec (constant_at s.now c)) out.old at result out.new }
{
    let a = emit::put(out, at, 0);
    operands::emit_const(s, work, out, a, c, rec)
}

// Form 2, and the item.
pub fn put_form_2(out: &mut [u8], at: usize, n: u32) -> usize
    ensures { Put out.old at (2 ∷ Binary.u n) result out.new }
{
    let a = emit::put(out, at, 2);
    leb::put_u(out, a, n as u64)
}

// Form 2: the table, the offset, and the kind funcref.
fn emit_with_table(
    s: &[u8],
    work: &[u32],
    out: &mut [u8],
    at: usize,
    n: u32,
    c: usize,
    rec: u32,
) -> Resolved<usize>
    requires { WORDS ≤ length work.now }
    ensures { Emits (at_table (some n)) (Names.const_op (scope_in s.now work.now) rec (constant_at s.now c)) out.old at result out.new }
{
    let a = put_form_2(out, at, n);
    let b = operands::emit_const(s, work, out, a, c, rec)?;
    Ok(emit::put(out, b, 0))
}

fn emit_at_table(
    s: &[u8],
    work: &[u32],
    out: &mut [u8],
    at: usize,
    x: Index,
    c: usize,
    rec: u32,
) -> Resolved<usize>
    requires { WORDS ≤ length work.now }
    ensures { Emits elem_mode (Names.mode_of (scope_in s.now work.now) (Names.table_no (scope_in s.now work.now)) rec (active (index_of s.now x) (constant_at s.now c))) out.old at result out.new }
{
    match table_no(s, work, x, rec)? {
        None => emit_without_table(s, work, out, at, c, rec),
        Some(n) => emit_with_table(s, work, out, at, n, c, rec),
    }
}

// Form 1, and the kind funcref.
fn put_passive(out: &mut [u8], at: usize) -> usize
    ensures { Put out.old at (1 ∷ 0 ∷ []) result out.new }
{
    let a = emit::put(out, at, 1);
    emit::put(out, a, 0)
}

// What stands before the functions.
fn emit_elem_mode(
    s: &[u8],
    work: &[u32],
    out: &mut [u8],
    at: usize,
    mode: Mode,
    rec: u32,
) -> Resolved<usize>
    requires { WORDS ≤ length work.now }
    ensures { Emits elem_mode (Names.mode_of (scope_in s.now work.now) (Names.table_no (scope_in s.now work.now)) rec (mode_of s.now mode)) out.old at result out.new }
{
    match mode {
        Mode::Passive => Ok(put_passive(out, at)),
        Mode::Active(x, c) => emit_at_table(s, work, out, at, x, c, rec),
    }
}

pub fn emit_elem(
    s: &[u8],
    work: &[u32],
    out: &mut [u8],
    at: usize,
    mode: Mode,
    funcs: List,
    rec: u32,
) -> Resolved<usize>
    requires { WORDS ≤ length work.now }
    ensures { Emits entry_of (Names.resolve (scope_in s.now work.now) rec (elem_f none (mode_of s.now mode) (list_of Token.present s.now funcs))) out.old at result out.new }
{
    let a = emit_elem_mode(s, work, out, at, mode, rec)?;
    operands::emit_funcs(s, work, out, a, funcs, rec)
}

// Form 2: the table, offset 0, and the kind funcref.
fn put_inline_table(out: &mut [u8], at: usize, is64: bool, n: u32) -> usize
    ensures { Put out.old at (at_table (some n) (zero_op is64)) result out.new }
{
    let a = put_form_2(out, at, n);
    let b = operands::put_zero_offset(out, a, is64);
    emit::put(out, b, 0)
}

// The functions of an inline table, which is the table numbered n.
pub fn emit_inline_elem(
    s: &[u8],
    work: &[u32],
    out: &mut [u8],
    at: usize,
    is64: bool,
    n: u32,
    funcs: List,
    rec: u32,
) -> Resolved<usize>
    requires { WORDS ≤ length work.now }
    ensures { Emits entry_of (Names.resolve (scope_in s.now work.now) rec (elem_f none (active (own_index n) (Deinline.zero_offset is64)) (list_of Token.present s.now funcs))) out.old at result out.new }
{
    let a = put_inline_table(out, at, is64, n);
    operands::emit_funcs(s, work, out, a, funcs, rec)
}

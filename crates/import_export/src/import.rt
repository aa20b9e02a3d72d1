// Imports.
ghost use Rattle.std.specs.Prelude.{◌∷◌, ◌≤◌, length};
ghost use Rattle.std.proofs.Math.Option.{none};
ghost use Rattle.area.specs.Layout.{WORDS};
ghost use Rattle.definition.specs.Syntax.{func, import_f};
ghost use Rattle.definition.specs.Types as Types;
ghost use Rattle.definition.specs.Names as Names;
ghost use Rattle.definition.specs.Binary as Binary;
ghost use Rattle.emit.specs.Put.{Put};
ghost use Rattle.syntax.specs.CoreTypes.{limits_is, table_type_is, global_type_is};
ghost use Rattle.syntax.specs.TypeUses.{use_of};
ghost use Rattle.syntax.specs.Items.{name_of, extern_is};
ghost use Rattle.type_table.specs.Table.{types_in, Recalled};
ghost use Rattle.scope.specs.Scope.{scope_in};
ghost use Rattle.syntax.specs.Resolved.{type_no_of};
ghost use Rattle.binary.specs.Emits.{Emits};
ghost use Rattle.import_export.specs.Entry.{entry_of};

use syntax::{Extern, GlobalType, ImportName, Limits, Resolved, TableType, TypeNo, TypeUse};

fn put_func(out: &mut [u8], at: usize, n: TypeNo) -> usize
    ensures { Put out.old at (0x00 ∷ Binary.u (type_no_of n).type_no) result out.new }
{
    let a = emit::put(out, at, 0x00);
    binary::put_type_no(out, a, n)
}

fn put_table(out: &mut [u8], at: usize, t: TableType) -> usize
    ensures { Put out.old at (0x01 ∷ Binary.table_type (table_type_is t)) result out.new }
{
    let a = emit::put(out, at, 0x01);
    binary_types::put_table_type(out, a, t)
}

fn put_mem(out: &mut [u8], at: usize, l: Limits) -> usize
    ensures { Put out.old at (0x02 ∷ Binary.limits (limits_is l)) result out.new }
{
    let a = emit::put(out, at, 0x02);
    binary_types::put_limits(out, a, l)
}

fn put_global(out: &mut [u8], at: usize, t: GlobalType) -> usize
    ensures { Put out.old at (0x03 ∷ Binary.global_type (global_type_is t)) result out.new }
{
    let a = emit::put(out, at, 0x03);
    binary_types::put_global_type(out, a, t)
}

fn emit_func_type(
    s: &[u8],
    work: &[u32],
    out: &mut [u8],
    at: usize,
    t: TypeUse,
    rec: u32,
) -> Resolved<usize>
    requires { (WORDS ≤ length work.now) × Recalled work.now (types_in s.now work.now) (Types.used_at rec (Types.use_of (use_of s.now t))) }
    ensures { Emits Binary.extern_type (Names.extern_no (scope_in s.now work.now) rec (func (use_of s.now t))) out.old at result out.new }
{
    let n = scope::type_no(s, work, t, rec)?;
    Ok(put_func(out, at, n))
}

// What is imported.
fn emit_extern(
    s: &[u8],
    work: &[u32],
    out: &mut [u8],
    at: usize,
    what: Extern,
    rec: u32,
) -> Resolved<usize>
    requires { (WORDS ≤ length work.now) × Recalled work.now (types_in s.now work.now) (Types.used_at rec (Types.extern_uses (extern_is s.now what))) }
    ensures { Emits Binary.extern_type (Names.extern_no (scope_in s.now work.now) rec (extern_is s.now what)) out.old at result out.new }
{
    match what {
        Extern::Func(t) => emit_func_type(s, work, out, at, t, rec),
        Extern::Table(t) => Ok(put_table(out, at, t)),
        Extern::Mem(l) => Ok(put_mem(out, at, l)),
        Extern::Global(t) => Ok(put_global(out, at, t)),
    }
}

pub fn emit_import(
    s: &[u8],
    work: &[u32],
    out: &mut [u8],
    at: usize,
    name: ImportName,
    what: Extern,
    rec: u32,
) -> Resolved<usize>
    requires { (WORDS ≤ length work.now) × Recalled work.now (types_in s.now work.now) (Types.used_at rec (Types.extern_uses (extern_is s.now what))) }
    ensures { Emits entry_of (Names.resolve (scope_in s.now work.now) rec (import_f (name_of s.now name) none (extern_is s.now what))) out.old at result out.new }
{
    let a = binary::put_import_name(s, out, at, name);
    emit_extern(s, work, out, a, what, rec)
}

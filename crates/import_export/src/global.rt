// Globals.
ghost use Rattle.std.specs.Prelude.{[], ◌≤◌, length};
ghost use Rattle.std.proofs.Math.Option.{none};
ghost use Rattle.area.specs.Layout.{WORDS};
ghost use Rattle.definition.specs.Syntax.{own_f, own_global};
ghost use Rattle.definition.specs.Names as Names;
ghost use Rattle.syntax.specs.CoreTypes.{global_type_is};
ghost use Rattle.syntax.specs.Plain.{constant_at};
ghost use Rattle.scope.specs.Scope.{scope_in};
ghost use Rattle.binary.specs.Emits.{Emits};
ghost use Rattle.import_export.specs.Entry.{entry_of};

use syntax::{GlobalType, Resolved};

pub fn emit_global(
    s: &[u8],
    work: &[u32],
    out: &mut [u8],
    at: usize,
    t: GlobalType,
    c: usize,
    rec: u32,
) -> Resolved<usize>
    requires { WORDS ≤ length work.now }
    ensures { Emits entry_of (Names.resolve (scope_in s.now work.now) rec (own_f none (own_global (global_type_is t) (constant_at s.now c)) [])) out.old at result out.new }
{
    let a = binary_types::put_global_type(out, at, t);
    operands::emit_const(s, work, out, a, c, rec)
}

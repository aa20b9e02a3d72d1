// An own function: its type is resolved once, for its entry in the function section and for its code.
ghost use Rattle.std.specs.Prelude.{◌≡◌};
ghost use Rattle.area.specs.Lent.{At};
ghost use Rattle.syntax.specs.Resolved.{type_no_of};
ghost use Rattle.scope.specs.Scope.{scope_in};
ghost use Rattle.deinline.specs.Entry.{both, entry_in};
ghost use Rattle.syntax.specs.declared.Entry.TheVariants as E;
ghost use Rattle.kept.specs.Tally.{Ready, Tallied, ChecksIn, tallied};
ghost use Rattle.resolve.specs.Func.{func_in, type_entry, code_entry, KeepsCode};

use deinline::section;
use kept::Tally;
use syntax::{List, Own, Resolved, Source, TypeNo, TypeUse};

#[tactic(auto, unfolding(crate::specs::Func::func_in))]
pub fn func_in(x: Source) -> Option<(TypeUse, List)>
    ensures { result ≡ func_in x }
{
    match x {
        Source::Own(o) => match o {
            Own::Func(t, ls) => Some((t, ls)),
            _ => None,
        },
        _ => None,
    }
}

// An own function: its type use, its locals, where its body begins, and its record.
#[derive(Clone, Copy)]
pub struct Func {
    pub ty: TypeUse,
    pub locals: List,
    pub body: usize,
    pub rec: u32,
}

// The number of its type, in the function section's part.
fn keep_type_no(kept: &mut [u8], tally: &mut Tally, n: TypeNo)
    ensures { Tallied (type_entry (type_no_of n)) tally.old kept.old tally.new kept.new }
{
    let from = tally.sizes[section::FUNC as usize] as usize;
    let a = kept::start_of(kept.len(), section::FUNC);
    let b = kept::start_of(kept.len(), section::TABLE);
    let to = binary::put_type_no(&mut kept[a..b], from, n);
    tally.reach(section::FUNC, to, 1);
}

// Its code, in the code section's part, after the bytes that are there; the number of its type is known.
fn keep_code(
    s: &[u8],
    work: &mut [u32],
    kept: &mut [u8],
    from: usize,
    n: TypeNo,
    f: Func,
) -> Resolved<usize>
    requires { At s.now work.old f.rec × Ready s.now work.old f.rec (E.Code f.ty f.locals f.body) }
    ensures { KeepsCode s.now work.old f.rec (type_no_of n) f.ty f.locals f.body kept.old from result work.new kept.new }
{
    let a = kept::start_of(kept.len(), section::CODE);
    let b = kept::start_of(kept.len(), section::DATA);
    let ty = f.ty;
    let locals = f.locals;
    function::emit_typed(s, work, &mut kept[a..b], from, n, ty, locals, f.body, f.rec)
}

// It is kept, and tallied.
fn check_code(
    s: &[u8],
    work: &mut [u32],
    kept: &mut [u8],
    tally: &mut Tally,
    n: TypeNo,
    f: Func,
) -> Resolved<()>
    requires { At s.now work.old f.rec × Ready s.now work.old f.rec (E.Code f.ty f.locals f.body) }
    ensures { ChecksIn (code_entry s.now work.old f.rec (type_no_of n) f.ty f.locals f.body) tally.old work.old kept.old (tallied result tally.new) work.new kept.new }
{
    let from = tally.sizes[section::CODE as usize] as usize;
    let to = keep_code(s, work, kept, from, n, f)?;
    tally.reach(section::CODE, to, 1);
    Ok(())
}

// Both.
pub fn check_func(
    s: &[u8],
    work: &mut [u32],
    kept: &mut [u8],
    tally: &mut Tally,
    f: Func,
) -> Resolved<()>
    requires { At s.now work.old f.rec × Ready s.now work.old f.rec (E.Func f.ty) × Ready s.now work.old f.rec (E.Code f.ty f.locals f.body) }
    ensures { ChecksIn (both (entry_in (scope_in s.now work.old) s.now f.rec (E.Func f.ty)) (entry_in (scope_in s.now work.old) s.now f.rec (E.Code f.ty f.locals f.body))) tally.old work.old kept.old (tallied result tally.new) work.new kept.new }
{
    let ty = f.ty;
    let n = scope::type_no(s, work, ty, f.rec)?;
    keep_type_no(kept, tally, n);
    check_code(s, work, kept, tally, n, f)
}

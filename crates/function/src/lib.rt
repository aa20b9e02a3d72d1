// A function's entry in the code section: its locals in runs and its body, after their length.
#![tactic(auto)]

ghost use Rattle.std.specs.Prelude.{◌+◌, ◌-◌, ◌≤◌, ◌<◌, ◌≡◌, ◌++◌, length, take, drop};
ghost use Rattle.area.specs.Lent.{At, Lent};
ghost use Rattle.definition.specs.Types as Types;
ghost use Rattle.definition.specs.Binary.{u};
ghost use Rattle.emit.specs.Put.{Put, past};
ghost use Rattle.typeuse.specs.Known.{Readable};
ghost use Rattle.syntax.specs.TypeUses.{use_of};
ghost use Rattle.syntax.specs.Resolved.{type_no_of};
ghost use Rattle.type_table.specs.Table.{types_in, Recalled};
ghost use Rattle.scope.specs.Scope.{FewLocals};
ghost use Rattle.frames.specs.Locals.{Head};
ghost use Rattle.instr.specs.Bodies.{body_from};
ghost use Rattle.code.specs.Body.{Resolvable};
ghost use Rattle.function.specs.Function.{body_answer, code_bytes, sized_bytes, EmitsCode, MeasuresCode, MeasuresSized, EmitsAgain, EmitsTyped, EmitsFunc};

use scope::Locals;
use syntax::{List, Resolved, TypeNo, TypeUse};

// The locals and the body.
#[tactic(auto, using(crate::proofs::Laws::code_to, crate::proofs::Laws::code_not))]
fn emit_code(
    s: &[u8],
    work: &mut [u32],
    out: &mut [u8],
    at: usize,
    here: usize,
    rec: u32,
    ls: List,
    l: Locals,
) -> Resolved<usize>
    requires { Lent s.now work.old × FewLocals l × (rec < 4096) × Resolvable s.now work.old (body_from 0 (rec + 1) s.now here) × Readable s.now ls }
    ensures { EmitsCode (code_bytes s.now ls) (body_answer s.now work.old rec here l) work.old out.old at result work.new out.new }
{
    let a = runs::put_runs(s, out, at, ls);
    let b = code::emit_body(s, work, out, a, here, rec + 1, l)?;
    Ok(emit::put(out, b, 0x0B))
}

// How long they are.
#[tactic(auto, using(crate::proofs::Laws::code_measured))]
fn measure_code(
    s: &[u8],
    work: &mut [u32],
    here: usize,
    rec: u32,
    ls: List,
    l: Locals,
) -> Resolved<usize>
    requires { Lent s.now work.old × FewLocals l × (rec < 4096) × Resolvable s.now work.old (body_from 0 (rec + 1) s.now here) × Readable s.now ls }
    ensures { MeasuresCode (code_bytes s.now ls) (body_answer s.now work.old rec here l) work.old result work.new }
{
    let mut none = [0u8; 1];
    emit_code(s, work, &mut none[0..0], 0, here, rec, ls, l)
}

// Both, after their length, at a place where nothing can be stored.
#[tactic(auto, using(crate::proofs::Laws::measured_to, crate::proofs::Laws::measured_not))]
fn measure_sized(
    s: &[u8],
    work: &mut [u32],
    at: usize,
    here: usize,
    rec: u32,
    ls: List,
    l: Locals,
) -> Resolved<usize>
    requires { Lent s.now work.old × FewLocals l × (rec < 4096) × Resolvable s.now work.old (body_from 0 (rec + 1) s.now here) × Readable s.now ls }
    ensures { MeasuresSized (code_bytes s.now ls) (body_answer s.now work.old rec here l) work.old at result work.new }
{
    let n = measure_code(s, work, here, rec, ls, l)?;
    let a = emit::tally(at, leb::group_count(n as u64));
    Ok(emit::tally(a, n))
}

// Where `n` bytes that end at `b`, after a place for one group, end after all the groups of their length.
fn sized_end(b: usize, n: usize) -> usize
    ensures { result ≡ past b (length (u n) - 1) }
{
    emit::tally(b, leb::group_count(n as u64) - 1)
}

// The length before the `n` bytes that stand after a place for one group: its other groups move them up.
fn put_length(out: &mut [u8], at: usize, n: usize) -> usize
    requires { at + length (u n) + n ≤ length out.old }
    ensures { Put out.old at (u n ++ take n (drop (at + 1) out.old)) result out.new }
{
    let more = leb::group_count(n as u64) - 1;
    emit::move_up(out, at + 1, n, more);
    emit::tally(leb::put_u(out, at, n as u64), n)
}

// The length, and after it the code once more: of what was written, not all has room after the whole length.
#[tactic(auto, using(crate::proofs::Laws::again_to))]
fn emit_again(
    s: &[u8],
    work: &mut [u32],
    out: &mut [u8],
    at: usize,
    here: usize,
    rec: u32,
    n: usize,
    ls: List,
    l: Locals,
) -> Resolved<usize>
    requires { Lent s.now work.old × FewLocals l × (rec < 4096) × Resolvable s.now work.old (body_from 0 (rec + 1) s.now here) × Readable s.now ls }
    ensures { EmitsAgain (code_bytes s.now ls) (body_answer s.now work.old rec here l) work.old out.old at n result work.new out.new }
{
    let a = leb::put_u(out, at, n as u64);
    emit_code(s, work, out, a, here, rec, ls, l)
}

// Both, after their length. Most functions are short: their code is written after a place for one group, which then takes the length. A
// length of more groups moves the code up.
fn emit_sized(
    s: &[u8],
    work: &mut [u32],
    out: &mut [u8],
    at: usize,
    here: usize,
    rec: u32,
    ls: List,
    l: Locals,
) -> Resolved<usize>
    requires { Lent s.now work.old × FewLocals l × (rec < 4096) × Resolvable s.now work.old (body_from 0 (rec + 1) s.now here) × Readable s.now ls }
    ensures { EmitsCode (sized_bytes s.now ls) (body_answer s.now work.old rec here l) work.old out.old at result work.new out.new }
{
    if out.len() <= at {
        return measure_sized(s, work, at, here, rec, ls, l);
    }
    let a = at + 1;
    let b = emit_code(s, work, out, a, here, rec, ls, l)?;
    let n = b - a;
    if n < 128 {
        emit::put(out, at, n as u8);
        return Ok(b);
    }
    if sized_end(b, n) <= out.len() {
        return Ok(put_length(out, at, n));
    }
    emit_again(s, work, out, at, here, rec, n, ls, l)
}

// The entry of a function whose type's number is known: its locals, and then its code.
pub fn emit_typed(
    s: &[u8],
    work: &mut [u32],
    out: &mut [u8],
    at: usize,
    n: TypeNo,
    t: TypeUse,
    ls: List,
    here: usize,
    rec: u32,
) -> Resolved<usize>
    requires { At s.now work.old rec × Resolvable s.now work.old (body_from 0 (rec + 1) s.now here) × Head s.now t ls }
    ensures { EmitsTyped s.now work.old rec (type_no_of n) t ls here out.old at result work.new out.new }
{
    let l = frames::set_locals(s, work, n, t, ls, rec)?;
    emit_sized(s, work, out, at, here, rec, ls, l)
}

// The entry of a function: its type, its locals, its body.
#[tactic(auto, using(crate::proofs::Laws::func_to, crate::proofs::Laws::func_not))]
pub fn emit_func(
    s: &[u8],
    work: &mut [u32],
    out: &mut [u8],
    at: usize,
    t: TypeUse,
    ls: List,
    here: usize,
    rec: u32,
) -> Resolved<usize>
    requires { At s.now work.old rec × Recalled work.old (types_in s.now work.old) (Types.used_at rec (Types.use_of (use_of s.now t))) × Resolvable s.now work.old (body_from 0 (rec + 1) s.now here) × Head s.now t ls }
    ensures { EmitsFunc s.now work.old rec t ls here out.old at result work.new out.new }
{
    let n = scope::type_no(s, work, t, rec)?;
    emit_typed(s, work, out, at, n, t, ls, here, rec)
}

// The uses of a function: its own, and then those of its body.
ghost use Rattle.std.specs.Prelude.{◌≡◌, true, ◌++◌, ◌+◌, ◌≤◌, ◌<◌};
ghost use Rattle.area.specs.Lent.{Lent};
ghost use Rattle.definition.specs.Types as Types;
ghost use Rattle.syntax.specs.TypeUses.{use_of};
ghost use Rattle.typeuse.specs.Known.{Readable};
ghost use Rattle.instr.specs.Bodies.{operands_by, tree_at, body_from};
ghost use Rattle.type_table.specs.Table.{Indexed};
ghost use Rattle.interning.specs.Uses.{Handles, HandlesTo, Nests, nested, Skips};

use crate::uses::{use_instr, use_type};
use syntax::{BodyRec, Instr, Resolved, TypeUse};
use walk::Stop;

// How many blocks are open after an instruction.
fn depth_after(i: Instr, depth: u32) -> u32
    requires { Nests i depth }
    ensures { result ≡ nested i depth }
{
    match i {
        Instr::Opens(_, _, _) => depth + 1,
        Instr::Elses(_) => depth,
        Instr::Ends(_) => depth - 1,
        Instr::Indirect(_, _) => depth,
        Instr::Plain(_) => depth,
    }
}

// A folded record in which so many are nested at most, itself included: the uses of its operands, and then that of its operator.
#[cycle(use_folded_use_operands)]
fn use_folded(
    s: &[u8],
    work: &mut [u32],
    count: u32,
    at: usize,
    rec: u32,
    left: u32,
) -> Resolved<(u32, Stop)>
    requires { Lent s.now work.old × Indexed s.now work.old count × (rec ≤ 4096) × ((tree_at left s.now rec at).whole ≡ true) }
    ensures { HandlesTo rec s.now (tree_at left s.now rec at) work.old count result work.new }
{
    if left < 1 {
        return Ok((count, Stop { at, rec }));
    }
    if 4096 <= rec {
        return Ok((count, Stop { at, rec }));
    }
    match instr::known_folded(s, at) {
        Ok(((i, n), next)) => {
            let (k, stop) = use_operands(s, work, count, n, next, rec + 1, left - 1)?;
            let m = use_instr(s, work, k, i, rec)?;
            Ok((m, stop))
        }
        Err(_) => Ok((count, Stop { at, rec: rec + 1 })),
    }
}

// So many operands, from left to right, in each of which so many folded records are nested at most.
#[cycle(use_folded_use_operands)]
fn use_operands(
    s: &[u8],
    work: &mut [u32],
    count: u32,
    n: u32,
    at: usize,
    rec: u32,
    left: u32,
) -> Resolved<(u32, Stop)>
    requires { Lent s.now work.old × Indexed s.now work.old count × (rec ≤ 4096) × ((operands_by (tree_at left s.now) n rec at).whole ≡ true) }
    ensures { HandlesTo rec s.now (operands_by (tree_at left s.now) n rec at) work.old count result work.new }
{
    let mut k = count;
    let mut due = n;
    let mut here = at;
    let mut r = rec;
    while 0 < due {
        let (m, stop) = use_folded(s, work, k, here, r, left)?;
        k = m;
        here = stop.at;
        r = stop.rec;
        due -= 1;
    }
    Ok((k, Stop { at: here, rec: r }))
}

// The uses of a body, whose first instruction has the record `rec`.
fn use_body(s: &[u8], work: &mut [u32], count: u32, at: usize, rec: u32) -> Resolved<u32>
    requires { Lent s.now work.old × Indexed s.now work.old count × (rec ≤ 4096) × ((body_from 0 rec s.now at).whole ≡ true) }
    ensures { Handles rec (body_from 0 rec s.now at).rec s.now (Types.body_uses (body_from 0 rec s.now at).body) work.old count result work.new }
{
    let mut k = count;
    let mut here = at;
    let mut r = rec;
    let mut depth: u32 = 0;
    while r < 4096 {
        match instr::known_body(s, here, depth) {
            Some(BodyRec::Instr(i, next)) => {
                let m = use_instr(s, work, k, i, r)?;
                k = m;
                depth = depth_after(i, depth);
                here = next;
                r += 1;
            }
            Some(BodyRec::Folded) => {
                let (m, stop) = use_folded(s, work, k, here, r, 32)?;
                k = m;
                here = stop.at;
                r = stop.rec;
            }
            Some(BodyRec::End(_)) => {
                return Ok(k);
            }
            None => {
                return Ok(k);
            }
        }
    }
    Ok(k)
}

// A function's own use before its body, which begins at `at`. The body of the `own`-th function is read only where it may have uses.
pub fn use_func(
    s: &[u8],
    work: &mut [u32],
    count: u32,
    t: TypeUse,
    own: u32,
    at: usize,
    rec: u32,
) -> Resolved<u32>
    requires { Lent s.now work.old × Indexed s.now work.old count × (rec < 4096) × Skips work.old own (Types.body_uses (body_from 0 (rec + 1) s.now at).body) × ((body_from 0 (rec + 1) s.now at).whole ≡ true) × Readable s.now t.params }
    ensures { Handles rec (body_from 0 (rec + 1) s.now at).rec s.now (Types.used_at rec (Types.use_of (use_of s.now t)) ++ Types.body_uses (body_from 0 (rec + 1) s.now at).body) work.old count result work.new }
{
    let looks = walk::body_uses(work, own);
    let k = use_type(s, work, count, t, rec)?;
    if looks {
        return use_body(s, work, k, at, rec + 1);
    }
    Ok(k)
}

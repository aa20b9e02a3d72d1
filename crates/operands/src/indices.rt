// Lists of indices: the functions of an element segment, the labels of a br_table. The count, and each in its turn.
ghost use Rattle.std.specs.Prelude.{◌≡◌, [], ◌≤◌, length};
ghost use Rattle.area.specs.Layout.{WORDS};
ghost use Rattle.definition.specs.Basic.{each, concat_map};
ghost use Rattle.definition.specs.Syntax.{funcs, labels};
ghost use Rattle.definition.specs.Token as Token;
ghost use Rattle.definition.specs.Names as Names;
ghost use Rattle.definition.specs.Binary as Binary;
ghost use Rattle.syntax.specs.Tokens.{space_of, index_of};
ghost use Rattle.syntax.specs.TypeUses.{list_of};
ghost use Rattle.scope.specs.Scope.{scope_in, labels_in};
ghost use Rattle.binary.specs.Emits.{Emits};
ghost use Rattle.operands.specs.Operands.{depth_bytes, FewBlocks, bytes_of, target_of};

use syntax::{Index, List, Resolved, Space};

// How many indices a list has.
pub fn count_indices(s: &[u8], l: List) -> u64
    ensures { result ≡ length (list_of Token.present s.now l) }
{
    let mut here = l.at;
    for i in 0..l.count {
        let Ok((_, next)) = token::read_present(s, here) else {
            return i as u64;
        };
        here = next;
    }
    l.count as u64
}

// An item's number.
pub fn emit_number(
    s: &[u8],
    work: &[u32],
    out: &mut [u8],
    at: usize,
    kind: Space,
    x: Index,
    rec: u32,
) -> Resolved<usize>
    requires { WORDS ≤ length work.now }
    ensures { Emits Binary.u (Names.item_no (scope_in s.now work.now) (space_of kind) rec (index_of s.now x)) out.old at result out.new }
{
    let n = scope::item_no(s, work, kind, x, rec)?;
    Ok(leb::put_u(out, at, n as u64))
}

// A label's depth.
pub fn emit_depth(
    s: &[u8],
    work: &[u32],
    out: &mut [u8],
    at: usize,
    blocks: u32,
    x: Index,
    rec: u32,
) -> Resolved<usize>
    requires { (WORDS ≤ length work.now) × (blocks ≤ 128) }
    ensures { Emits depth_bytes (Names.depth_of (scope_in s.now work.now) (labels_in s.now work.now blocks) rec (index_of s.now x)) out.old at result out.new }
{
    let d = scope::depth_no(s, work, blocks, x, rec)?;
    Ok(binary::put_depth(out, at, d))
}

// What the indices of a list refer to: functions, or labels of so many open blocks.
#[derive(Clone, Copy)]
pub enum Target {
    Func,
    Label(u32),
}

fn emit_index(
    s: &[u8],
    work: &[u32],
    out: &mut [u8],
    at: usize,
    to: Target,
    x: Index,
    rec: u32,
) -> Resolved<usize>
    requires { (WORDS ≤ length work.now) × FewBlocks to }
    ensures { Emits (bytes_of to) (target_of s.now work.now to rec (index_of s.now x)) out.old at result out.new }
{
    match to {
        Target::Func => emit_number(s, work, out, at, Space::Funcs, x, rec),
        Target::Label(blocks) => emit_depth(s, work, out, at, blocks, x, rec),
    }
}

// The numbers of a list, without their count.
fn emit_each(
    s: &[u8],
    work: &[u32],
    out: &mut [u8],
    at: usize,
    to: Target,
    l: List,
    rec: u32,
) -> Resolved<usize>
    requires { (WORDS ≤ length work.now) × FewBlocks to }
    ensures { Emits (concat_map (bytes_of to)) (each (target_of s.now work.now to rec) (list_of Token.present s.now l)) out.old at result out.new }
{
    let mut o = at;
    let mut here = l.at;
    for _ in 0..l.count {
        let Ok((x, next)) = token::read_present(s, here) else {
            return Ok(o);
        };
        o = emit_index(s, work, out, o, to, x, rec)?;
        here = next;
    }
    Ok(o)
}

fn emit_list(
    s: &[u8],
    work: &[u32],
    out: &mut [u8],
    at: usize,
    to: Target,
    l: List,
    rec: u32,
) -> Resolved<usize>
    requires { (WORDS ≤ length work.now) × FewBlocks to }
    ensures { Emits (Binary.vec (bytes_of to)) (each (target_of s.now work.now to rec) (list_of Token.present s.now l)) out.old at result out.new }
{
    let n = count_indices(s, l);
    let a = leb::put_u(out, at, n);
    emit_each(s, work, out, a, to, l, rec)
}

// The functions of an element segment.
pub fn emit_funcs(
    s: &[u8],
    work: &[u32],
    out: &mut [u8],
    at: usize,
    l: List,
    rec: u32,
) -> Resolved<usize>
    requires { WORDS ≤ length work.now }
    ensures { Emits (Binary.vec Binary.u) (each (Names.item_no (scope_in s.now work.now) funcs rec) (list_of Token.present s.now l)) out.old at result out.new }
{
    emit_list(s, work, out, at, Target::Func, l, rec)
}

// The labels of a br_table, and the one that is left for every other number.
pub fn emit_labels(
    s: &[u8],
    work: &[u32],
    out: &mut [u8],
    at: usize,
    blocks: u32,
    xs: List,
    x: Index,
    rec: u32,
) -> Resolved<usize>
    requires { (WORDS ≤ length work.now) × (blocks ≤ 128) }
    ensures { Emits Binary.imm (Names.immediate (scope_in s.now work.now) [] (labels_in s.now work.now blocks) rec (labels (list_of Token.present s.now xs) (index_of s.now x))) out.old at result out.new }
{
    let a = emit_list(s, work, out, at, Target::Label(blocks), xs, rec)?;
    emit_depth(s, work, out, a, blocks, x, rec)
}

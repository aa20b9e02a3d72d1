// Labels of the open blocks: how many blocks lie between is a label's depth.
ghost use Rattle.std.specs.Prelude.{◌≡◌, ◌+◌, ◌*◌, ◌≤◌, length};
ghost use Rattle.area.specs.Flags.{strict_in};
ghost use Rattle.definition.specs.Basic.{same_bytes};
ghost use Rattle.definition.specs.Names as Names;
ghost use Rattle.syntax.specs.Tokens.{index_of};
ghost use Rattle.name_table.specs.Area.{labels, found, resolved};

use crate::table::below;
use syntax::{Fault, Index, Resolved};

// The depth of the innermost of the open blocks that carries the name.
pub fn label_depth(s: &[u8], work: &[u32], base: usize, blocks: usize, name: &[u8]) -> Option<usize>
    requires { base + 3 * blocks ≤ length work.now }
    ensures { Names.find same_bytes name.now (labels blocks s.now work.now base) ≡ found result }
{
    let tag = crate::name::tag_of(name);
    let mut left = blocks;
    let mut passed = 0;
    let depth = loop {
        if left == 0 {
            return None;
        }
        left -= 1;
        if crate::name::carries(s, work, base + 3 * left, tag, name) {
            break passed;
        }
        passed += 1;
    };
    Some(depth)
}

// The depth that an index means among the labels of the open blocks. One more is the function's own label.
pub fn depth_of(
    s: &[u8],
    work: &[u32],
    base: usize,
    blocks: usize,
    x: Index,
    rec: u32,
) -> Resolved<u32>
    requires { (base + 3 * blocks ≤ length work.now) × (blocks ≤ 128) }
    ensures { Names.number_in (strict_in work.now) same_bytes (labels blocks s.now work.now base) (blocks + 1) rec (index_of s.now x) ≡ resolved result }
{
    let limit = blocks as u32 + 1;
    match x {
        Index::Absent => below(work, limit, 0, rec),
        Index::Number(n) => below(work, limit, n, rec),
        Index::Named(p) => {
            let name = token::bytes_of(s, p);
            match label_depth(s, work, base, blocks, name) {
                Some(k) => Ok(k as u32),
                None => Err(syntax::refusal_at(Fault::NoSuchName, rec)),
            }
        }
    }
}

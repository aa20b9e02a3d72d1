// Instructions whose immediates are resolved. A local's number, a type's number and a label's depth are three sorts: none can
// stand for another.
ghost use Rattle.std.specs.Prelude.{pos};
ghost use Rattle.definition.specs.Syntax.{indirect_imm};
ghost use Rattle.definition.specs.Binary as Binary;
ghost use Rattle.emit.specs.Put.{Put};
ghost use Rattle.syntax.specs.Resolved.{local_no_of, type_no_of, depth_of, block_type_of};

use syntax::{BlockType, Depth, LocalNo, TypeNo};

pub fn put_local(out: &mut [u8], at: usize, n: LocalNo) -> usize
    ensures { Put out.old at (Binary.u (local_no_of n).local_no) result out.new }
{
    leb::put_u(out, at, n.0 as u64)
}

pub fn put_type_no(out: &mut [u8], at: usize, n: TypeNo) -> usize
    ensures { Put out.old at (Binary.u (type_no_of n).type_no) result out.new }
{
    leb::put_u(out, at, n.0 as u64)
}

pub fn put_depth(out: &mut [u8], at: usize, n: Depth) -> usize
    ensures { Put out.old at (Binary.u (depth_of n).depth) result out.new }
{
    leb::put_u(out, at, n.0 as u64)
}

// A type's number, in the signed form: so it differs from the bytes of the short forms.
fn put_typed(out: &mut [u8], at: usize, n: TypeNo) -> usize
    ensures { Put out.old at (Binary.s (pos (type_no_of n).type_no)) result out.new }
{
    leb::put_s33(out, at, n.0)
}

pub fn put_block_type(out: &mut [u8], at: usize, b: BlockType) -> usize
    ensures { Put out.old at (Binary.block_type (block_type_of b)) result out.new }
{
    match b {
        BlockType::Empty => emit::put(out, at, 0x40),
        BlockType::Single(t) => emit::put(out, at, t),
        BlockType::Typed(n) => put_typed(out, at, n),
    }
}

// A load's or store's alignment, offset and memory. Memory 0 goes without saying.
pub fn put_memarg(out: &mut [u8], at: usize, exponent: u8, offset: u32, memory: u32) -> usize
    ensures { Put out.old at (Binary.memarg exponent offset memory) result out.new }
{
    if memory == 0 {
        let a = leb::put_u(out, at, exponent as u64);
        return leb::put_u(out, a, offset as u64);
    }
    let a = leb::put_u(out, at, exponent as u64 + 64);
    let b = leb::put_u(out, a, memory as u64);
    leb::put_u(out, b, offset as u64)
}

// The type and the table of an indirect call.
pub fn put_indirect(out: &mut [u8], at: usize, t: TypeNo, table: u32) -> usize
    ensures { Put out.old at (Binary.imm (indirect_imm (type_no_of t) table)) result out.new }
{
    let a = put_type_no(out, at, t);
    leb::put_u(out, a, table as u64)
}

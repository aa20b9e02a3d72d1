// The number of a type use's type, and the type of a block.
ghost use Rattle.std.specs.Prelude.{◌≡◌, ◌&&◌, ◌≤◌, length};
ghost use Rattle.area.specs.Layout.{WORDS};
ghost use Rattle.definition.specs.Token as Token;
ghost use Rattle.definition.specs.Types as Types;
ghost use Rattle.definition.specs.Names as Names;
ghost use Rattle.syntax.specs.Resolved.{block_type_of};
ghost use Rattle.syntax.specs.Tokens.{index_of};
ghost use Rattle.syntax.specs.TypeUses.{list_of, use_of};
ghost use Rattle.type_table.specs.Table.{types_in, Recalled};
ghost use Rattle.scope.specs.Scope.{scope_in, indexed_type};
ghost use Rattle.type_table.specs.Uses.{block_uses};
ghost use Rattle.scope.specs.Answers.{type_answer, block_answer};

use syntax::{BlockType, Fault, Index, List, Resolved, Space, TypeNo, TypeUse};
use type_table::Agreement;

// A type's number as a use says it: an inline type must be that type.
fn checked(s: &[u8], work: &[u32], n: u32, t: TypeUse, rec: u32) -> Resolved<TypeNo>
    requires { WORDS ≤ length work.now }
    ensures { Names.checked (scope_in s.now work.now) rec (Types.is_inline (use_of s.now t)) (Types.signature (use_of s.now t)) n ≡ type_answer result }
{
    if type_table::is_inline(s, t) {
        return match type_table::agrees(s, work, n, t) {
            Agreement::Same => Ok(TypeNo(n)),
            Agreement::Differs => Err(syntax::refusal_at(Fault::TypeDiffers, rec)),
            Agreement::NoType => Err(syntax::refusal_at(Fault::NoSuchType, rec)),
        };
    }
    Ok(TypeNo(n))
}

// The number of the type that an index says.
fn indexed(s: &[u8], work: &[u32], x: Index, t: TypeUse, rec: u32) -> Resolved<TypeNo>
    requires { WORDS ≤ length work.now }
    ensures { indexed_type (scope_in s.now work.now) rec (use_of s.now t) (index_of s.now x) ≡ type_answer result }
{
    let n = crate::item::item_no(s, work, Space::Types, x, rec)?;
    checked(s, work, n, t, rec)
}

// The number of the type of a use. Without an index it is the one that interning gave it.
pub fn type_no(s: &[u8], work: &[u32], t: TypeUse, rec: u32) -> Resolved<TypeNo>
    requires { (WORDS ≤ length work.now) × Recalled work.now (types_in s.now work.now) (Types.used_at rec (Types.use_of (use_of s.now t))) }
    ensures { Names.type_no (scope_in s.now work.now) rec (use_of s.now t) ≡ type_answer result }
{
    let index = t.index;
    match index {
        Index::Absent => Ok(TypeNo(area::word(work, area::USES + (rec as usize)))),
        Index::Number(n) => indexed(s, work, Index::Number(n), t, rec),
        Index::Named(p) => indexed(s, work, Index::Named(p), t, rec),
    }
}

// The short form of a block with these results.
fn short_type(s: &[u8], l: List) -> BlockType
    ensures { Names.short_type (list_of Token.val_type s.now l) ≡ block_type_of result }
{
    if l.count == 0 {
        return BlockType::Empty;
    }
    match coretypes::val_type(s, l.at) {
        Ok((value, _)) => BlockType::Single(value),
        Err(_) => BlockType::Empty,
    }
}

// A block is written short if it has no index and fits the short form.
fn goes_short(s: &[u8], t: TypeUse) -> bool
    ensures { result ≡ Names.is_absent (use_of s.now t).index && Types.is_short (use_of s.now t) }
{
    let index = t.index;
    match index {
        Index::Absent => type_table::is_short(s, t),
        Index::Number(_) => false,
        Index::Named(_) => false,
    }
}

// The type of a block.
pub fn block_type(s: &[u8], work: &[u32], t: TypeUse, rec: u32) -> Resolved<BlockType>
    requires { (WORDS ≤ length work.now) × Recalled work.now (types_in s.now work.now) (Types.used_at rec (block_uses (use_of s.now t))) }
    ensures { Names.block_type (scope_in s.now work.now) rec (use_of s.now t) ≡ block_answer result }
{
    if goes_short(s, t) {
        return Ok(short_type(s, t.results));
    }
    let n = type_no(s, work, t, rec)?;
    Ok(BlockType::Typed(n))
}

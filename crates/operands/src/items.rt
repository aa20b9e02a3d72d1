// What stands after FC: the second byte, and the indices that it asks for, each resolved among its own space. One way for all second bytes.
ghost use Rattle.std.specs.Prelude.{[], ◌∷◌, ◌≤◌, length};
ghost use Rattle.area.specs.Layout.{WORDS};
ghost use Rattle.definition.specs.Basic.{concat_map};
ghost use Rattle.definition.specs.Syntax.{items};
ghost use Rattle.definition.specs.Instructions as Instructions;
ghost use Rattle.definition.specs.Names as Names;
ghost use Rattle.definition.specs.Binary as Binary;
ghost use Rattle.syntax.specs.Tokens.{space_of};
ghost use Rattle.syntax.specs.Plain.{indices_at, bulk_at};
ghost use Rattle.scope.specs.Scope.{scope_in};
ghost use Rattle.binary.specs.Emits.{Emits};
ghost use Rattle.operands.specs.Operands.{numbers_of};

use syntax::{Resolved, Space, Spaces};

// The index of this space at `here`.
fn emit_one(
    s: &[u8],
    work: &[u32],
    out: &mut [u8],
    at: usize,
    k: Space,
    here: usize,
    rec: u32,
) -> Resolved<usize>
    requires { WORDS ≤ length work.now }
    ensures { Emits (concat_map Binary.u) (numbers_of s.now work.now rec (indices_at (space_of k ∷ []) s.now here)) out.old at result out.new }
{
    match expr::read_in(s, here, k) {
        Ok((x, _)) => crate::indices::emit_number(s, work, out, at, k, x, rec),
        Err(_) => Ok(at),
    }
}

// The index of one space at `here`, and that of another after it.
fn emit_two(
    s: &[u8],
    work: &[u32],
    out: &mut [u8],
    at: usize,
    j: Space,
    k: Space,
    here: usize,
    rec: u32,
) -> Resolved<usize>
    requires { WORDS ≤ length work.now }
    ensures { Emits (concat_map Binary.u) (numbers_of s.now work.now rec (indices_at (space_of j ∷ space_of k ∷ []) s.now here)) out.old at result out.new }
{
    match expr::read_in(s, here, j) {
        Ok((x, next)) => {
            let o = crate::indices::emit_number(s, work, out, at, j, x, rec)?;
            emit_one(s, work, out, o, k, next, rec)
        }
        Err(_) => Ok(at),
    }
}

// The second byte, and the indices from `here` on.
pub fn emit_items(
    s: &[u8],
    work: &[u32],
    out: &mut [u8],
    at: usize,
    b: u8,
    here: usize,
    rec: u32,
) -> Resolved<usize>
    requires { WORDS ≤ length work.now }
    ensures { Emits Binary.imm (Names.immediate (scope_in s.now work.now) [] [] rec (items b (bulk_at (Instructions.spaces_of b) s.now here))) out.old at result out.new }
{
    let a = leb::put_u(out, at, b as u64);
    match syntax::bulk_spaces(b) {
        Spaces::None => Ok(a),
        Spaces::One(k) => emit_one(s, work, out, a, k, here, rec),
        Spaces::Two(j, k) => emit_two(s, work, out, a, j, k, here, rec),
    }
}

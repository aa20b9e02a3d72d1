// The locals of a function: its parameters and then its locals, from `LOCALS` on. They were read before, so of their names only the
// lengths are looked at.
ghost use Rattle.std.specs.Prelude.{◌++◌, ◌+◌, ◌≤◌, ◌<◌, length};
ghost use Rattle.area.specs.Lent.{Lent};
ghost use Rattle.definition.specs.Token as Token;
ghost use Rattle.definition.specs.Names as Names;
ghost use Rattle.typeuse.specs.Known.{Readable};
ghost use Rattle.syntax.specs.TypeUses.{list_of, use_of};
ghost use Rattle.type_table.specs.Table.{types_in};
ghost use Rattle.syntax.specs.Resolved.{type_no_of};
ghost use Rattle.frames.specs.Locals.{Head, ids_of, nameless, PutsOne, PutsAll, SetsLocals};

use scope::Locals;
use syntax::{Fault, List, Part, Resolved, TypeNo, TypeUse};

// One entry more, unless its identifier is there already.
fn put_local(s: &[u8], work: &mut [u32], count: u32, id: Part, rec: u32) -> Resolved<u32>
    requires { Lent s.now work.old × (count < 128) }
    ensures { PutsOne s.now work.old count id rec result work.new }
{
    let n = count as usize;
    if name_table::is_taken(s, work, area::LOCALS, n, id) {
        return Err(syntax::refusal_at(Fault::NameTaken, rec));
    }
    name_table::put_name(s, work, area::LOCALS + 3 * n, id);
    Ok(count + 1)
}

// An entry for each of a list, after so many.
fn put_locals(s: &[u8], work: &mut [u32], from: u32, l: List, rec: u32) -> Resolved<u32>
    requires { Lent s.now work.old × (from + length (list_of Token.param s.now l) ≤ 128) × Readable s.now l }
    ensures { PutsAll s.now work.old from l.at l.count rec result work.new }
{
    let mut at = l.at;
    let mut count = from;
    for _ in 0..l.count {
        let Ok((x, next)) = typeuse::known_local(s, at) else {
            return Ok(count);
        };
        count = put_local(s, work, count, x.id, rec)?;
        at = next;
    }
    Ok(count)
}

// The parameters of an inline type bring their identifiers.
fn set_inline(s: &[u8], work: &mut [u32], params: List, ls: List, rec: u32) -> Resolved<Locals>
    requires { Lent s.now work.old × (length (list_of Token.param s.now params) ≤ 64) × (length (list_of Token.param s.now ls) ≤ 64) × Readable s.now params × Readable s.now ls }
    ensures { SetsLocals s.now work.old rec (ids_of s.now params ++ ids_of s.now ls) result work.new }
{
    let n = put_locals(s, work, 0, params, rec)?;
    let count = put_locals(s, work, n, ls, rec)?;
    Ok(Locals { nameless: 0, count })
}

// Without one the parameters of the named type are nameless places.
fn set_nameless(s: &[u8], work: &mut [u32], n: TypeNo, ls: List, rec: u32) -> Resolved<Locals>
    requires { Lent s.now work.old × (length (list_of Token.param s.now ls) ≤ 64) × Readable s.now ls }
    ensures { SetsLocals s.now work.old rec (nameless s.now work.old n ++ ids_of s.now ls) result work.new }
{
    let nameless = type_table::param_count(s, work, n.0);
    let count = put_locals(s, work, 0, ls, rec)?;
    Ok(Locals { nameless, count })
}

// The locals of a function of this type.
pub fn set_locals(
    s: &[u8],
    work: &mut [u32],
    n: TypeNo,
    t: TypeUse,
    ls: List,
    rec: u32,
) -> Resolved<Locals>
    requires { Lent s.now work.old × Head s.now t ls }
    ensures { SetsLocals s.now work.old rec (Names.locals_of (types_in s.now work.old) (type_no_of n) (use_of s.now t) (list_of Token.param s.now ls)) result work.new }
{
    if type_table::is_inline(s, t) {
        return set_inline(s, work, t.params, ls, rec);
    }
    set_nameless(s, work, n, ls, rec)
}

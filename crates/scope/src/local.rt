// The number of a local in its function.
ghost use Rattle.std.specs.Prelude.{◌≡◌, ◌≤◌, length};
ghost use Rattle.area.specs.Layout.{WORDS};
ghost use Rattle.definition.specs.Names as Names;
ghost use Rattle.syntax.specs.Tokens.{index_of};
ghost use Rattle.scope.specs.Scope.{scope_in, locals_in, FewLocals, told_local};
ghost use Rattle.scope.specs.Answers.{local_answer};

use crate::Locals;
use syntax::{Fault, Index, LocalNo, Resolved};

// A number as an index says it: in a strict call there must be such a local.
fn told(work: &[u32], l: Locals, n: u32, rec: u32) -> Resolved<LocalNo>
    requires { FewLocals l }
    ensures { told_local work.now l rec n ≡ local_answer result }
{
    let m = name_table::below(work, l.nameless + l.count, n, rec)?;
    Ok(LocalNo(m))
}

// The number that an index means among the locals: the nameless places count too.
pub fn local_no(s: &[u8], work: &[u32], l: Locals, x: Index, rec: u32) -> Resolved<LocalNo>
    requires { (WORDS ≤ length work.now) × FewLocals l }
    ensures { Names.local_no (scope_in s.now work.now) (locals_in s.now work.now l) rec (index_of s.now x) ≡ local_answer result }
{
    match x {
        Index::Absent => told(work, l, 0, rec),
        Index::Number(n) => told(work, l, n, rec),
        Index::Named(p) => {
            let name = token::bytes_of(s, p);
            match name_table::find_name(s, work, area::LOCALS, l.count as usize, name) {
                Some(k) => Ok(LocalNo(l.nameless + k as u32)),
                None => Err(syntax::refusal_at(Fault::NoSuchName, rec)),
            }
        }
    }
}

// What is told where a use or a name is refused: an earlier rule's refusal further on comes first.
ghost use Rattle.std.specs.Prelude.{◌≡◌};
ghost use Rattle.area.specs.Layout.{TYPES};
ghost use Rattle.area.specs.Lent.{Lent};
ghost use Rattle.definition.specs.Types as Types;
ghost use Rattle.type_table.specs.Table.{type_table, Indexed};
ghost use Rattle.walk.specs.Walk.{Ahead, fields_ahead, fields_in};
ghost use Rattle.survey.specs.Survey.{Surveys, UseRefused, NameRefused, Interns};

use crate::late::late_after;
use syntax::{Fault, Refusal, Resolved};
use walk::Cursor;

// A refusal of types or names, unless an import ahead comes too late.
pub fn late_first(s: &[u8], work: &[u32], from: Cursor, past: bool, r: Refusal) -> Resolved<()>
    requires { UseRefused s.now work.now from past r }
    ensures { Surveys s.now work.now result work.now }
{
    let mut c = from;
    let mut late = past;
    loop {
        let m = walk::visit(s, work, c);
        let Some((f, _)) = m.what else {
            return Err(r);
        };
        let Some(l) = late_after(late, f) else {
            return Err(syntax::refusal_at(Fault::LateImport, c.rec));
        };
        late = l;
        c = m.next;
    }
}

// The uses of the fields ahead.
fn use_ahead(s: &[u8], work: &mut [u32], from: Cursor, types: u32) -> Resolved<u32>
    requires { Lent s.now work.old × Indexed s.now work.old types × Ahead s.now work.old from × (Types.all_types (fields_in s.now) ≡ Types.intern (type_table types s.now work.old TYPES) (Types.uses (fields_ahead from s.now))) }
    ensures { Interns s.now work.old result work.new }
{
    let mut c = from;
    let mut count = types;
    loop {
        let m = walk::visit(s, work, c);
        let Some((f, here)) = m.what else {
            return Ok(count);
        };
        count = interning::use_field(s, work, count, f, c.own, here, c.rec)?;
        c = m.next;
    }
}

// A refusal of names, unless an import ahead comes too late or the uses ahead need too many types.
pub fn types_first(
    s: &[u8],
    work: &mut [u32],
    c: Cursor,
    late: bool,
    count: u32,
    r: Refusal,
) -> Resolved<()>
    requires { Lent s.now work.old × NameRefused s.now work.old c late count r }
    ensures { Surveys s.now work.old result work.new }
{
    match use_ahead(s, work, c, count) {
        Ok(_) => late_first(s, work, c, late, r),
        Err(q) => late_first(s, work, c, late, q),
    }
}

// One walk over all fields: the order of imports, the uses of types, and the items with their names.
#![tactic(auto)]

pub mod late;
pub mod refused;

ghost use Rattle.std.specs.Prelude.{◌≡◌, true, ◌+◌, ◌≤◌, ◌<◌, length, set};
ghost use Rattle.area.specs.Layout.{TOTAL, TYPES, WORDS};
ghost use Rattle.area.specs.Lent.{Lent};
ghost use Rattle.definition.specs.Read as Read;
ghost use Rattle.definition.specs.Types as Types;
ghost use Rattle.syntax.specs.Fields.{field_of};
ghost use Rattle.type_table.specs.Table.{type_table, Indexed};
ghost use Rattle.reread.specs.Known.{ReadableHead};
ghost use Rattle.walk.specs.Walk.{body_in, whole_field, Ahead, begin, fields_in};
ghost use Rattle.interning.specs.Uses.{Skips};
ghost use Rattle.registration.specs.Register.{brought, Fit};
ghost use Rattle.survey.specs.Survey.{Takes, Ends, Reaches, Surveys};

use late::late_after;
use refused::{late_first, types_first};
use syntax::{Fault, Field, Refusal, Resolved};
use walk::Cursor;

// How many types there are after a field; or the record of an import that comes too late; or the refusal of a use, or of a name after so
// many types, before which an earlier rule may come.
#[derive(Clone, Copy)]
enum Took {
    Types(u32),
    Late(u32),
    Use(Refusal),
    Name(Refusal, u32),
}

// How the walk ended, where it would go on, and whether imports are too late there.
#[derive(Clone, Copy)]
struct Ended {
    how: Took,
    next: Cursor,
    late: bool,
}

// The uses of a field, and then its items.
fn take_field(s: &[u8], work: &mut [u32], c: Cursor, f: Field, here: usize, count: u32) -> Took
    requires { Lent s.now work.old × Indexed s.now work.old count × (c.rec < 4096) × Skips work.old c.own (Types.body_uses (body_in (Read.field_body (field_of s.now f)) (c.rec + 1) s.now here)) × (whole_field (Read.field_body (field_of s.now f)) (c.rec + 1) s.now here ≡ true) × ReadableHead s.now f × Fit c.seen (brought f) }
    ensures { Takes s.now work.old c f here count result work.new }
{
    match interning::use_field(s, work, count, f, c.own, here, c.rec) {
        Ok(k) => match registration::register_field(s, work, c.seen, f, c.rec) {
            Ok(()) => Took::Types(k),
            Err(r) => Took::Name(r, k),
        },
        Err(r) => Took::Use(r),
    }
}

// How many types there are.
fn put_total(work: &mut [u32], n: u32)
    requires { WORDS ≤ length work.old }
    ensures { work.new ≡ set work.old TOTAL n }
{
    work[area::TOTAL] = n;
}

fn ended_by(how: Took, next: Cursor, late: bool) -> Ended
    ensures { Ends how next late result }
{
    Ended { how, next, late }
}

// The walk, up to its end or to the first refusal.
fn survey_fields(s: &[u8], work: &mut [u32], declared: u32) -> Ended
    requires { Lent s.now work.old × Indexed s.now work.old declared × Ahead s.now work.old begin × (type_table declared s.now work.old TYPES ≡ Types.declared (fields_in s.now)) }
    ensures { Reaches s.now work.old result.how result.next result.late work.new }
{
    let mut c = walk::start();
    let mut late = false;
    let mut count = declared;
    loop {
        let m = walk::visit(s, work, c);
        let Some((f, here)) = m.what else {
            put_total(work, count);
            counting::put_counts(work, area::NAMED, c.seen);
            return ended_by(Took::Types(count), c, late);
        };
        let Some(l) = late_after(late, f) else {
            return ended_by(Took::Late(c.rec), c, late);
        };
        late = l;
        let took = take_field(s, work, c, f, here, count);
        let Took::Types(k) = took else {
            return ended_by(took, m.next, late);
        };
        count = k;
        c = m.next;
    }
}

// The types of uses after the declared ones, and all names. The word at TOTAL says how many types there are then, and the word of each
// record that has a use without an index that use's number. The order of imports comes first over the whole stream, then the types,
// then the names: where one of the later rules refuses, the fields ahead are asked for an earlier one.
pub fn survey_all(s: &[u8], work: &mut [u32], declared: u32) -> Resolved<()>
    requires { Lent s.now work.old × Indexed s.now work.old declared × Ahead s.now work.old begin × (type_table declared s.now work.old TYPES ≡ Types.declared (fields_in s.now)) }
    ensures { Surveys s.now work.old result work.new }
{
    let x = survey_fields(s, work, declared);
    let how = x.how;
    match how {
        Took::Types(_) => Ok(()),
        Took::Late(rec) => Err(syntax::refusal_at(Fault::LateImport, rec)),
        Took::Use(r) => late_first(s, work, x.next, x.late, r),
        Took::Name(r, k) => types_first(s, work, x.next, x.late, k, r),
    }
}

// The resolving pass: every field's entries are resolved and tallied, in stream order.
#![tactic(auto)]

pub mod entry;
pub mod func;

ghost use Rattle.std.specs.Prelude.{◌≡◌};
ghost use Rattle.area.specs.Lent.{At, Lent};
ghost use Rattle.definition.specs.Types as Types;
ghost use Rattle.type_table.specs.Table.{types_in, Recalled};
ghost use Rattle.walk.specs.Walk.{Ahead, begin, fields_in};
ghost use Rattle.scope.specs.Scope.{scope_in};
ghost use Rattle.deinline.specs.Entry.{both, entry_in, second_of, third_of, three, three_in, entries_of};
ghost use Rattle.kept.specs.Tally.{Ready, ReadyThree, ChecksIn, no_tally, tallied};

use crate::func::Func;
use deinline::Spot;
use kept::Tally;
use syntax::{Field, Resolved, Source};

// What an item has beside its exports. An own function's type is resolved once.
fn check_item(
    s: &[u8],
    work: &mut [u32],
    kept: &mut [u8],
    tally: &mut Tally,
    x: Source,
    p: Spot,
) -> Resolved<()>
    requires { At s.now work.old p.rec × Ready s.now work.old p.rec (second_of x p.seen) × Ready s.now work.old p.rec (third_of x p.here) }
    ensures { ChecksIn (both (entry_in (scope_in s.now work.old) s.now p.rec (second_of x p.seen)) (entry_in (scope_in s.now work.old) s.now p.rec (third_of x p.here))) tally.old work.old kept.old (tallied result tally.new) work.new kept.new }
{
    match crate::func::func_in(x) {
        Some((t, ls)) => {
            let f = Func {
                ty: t,
                locals: ls,
                body: p.here,
                rec: p.rec,
            };
            crate::func::check_func(s, work, kept, tally, f)
        }
        None => crate::entry::check_two(s, work, kept, tally, x, p),
    }
}

// What is left of a field after its first entry: of most fields nothing.
fn check_rest(
    s: &[u8],
    work: &mut [u32],
    kept: &mut [u8],
    tally: &mut Tally,
    f: Field,
    p: Spot,
) -> Resolved<()>
    requires { At s.now work.old p.rec × Ready s.now work.old p.rec (three f p.seen p.here).second × Ready s.now work.old p.rec (three f p.seen p.here).third }
    ensures { ChecksIn (both (entry_in (scope_in s.now work.old) s.now p.rec (three f p.seen p.here).second) (entry_in (scope_in s.now work.old) s.now p.rec (three f p.seen p.here).third)) tally.old work.old kept.old (tallied result tally.new) work.new kept.new }
{
    match deinline::item_in(f) {
        Some(x) => check_item(s, work, kept, tally, x, p),
        None => Ok(()),
    }
}

// All entries of a field. Each is made where it is checked.
fn check_field(
    s: &[u8],
    work: &mut [u32],
    kept: &mut [u8],
    tally: &mut Tally,
    f: Field,
    p: Spot,
) -> Resolved<()>
    requires { At s.now work.old p.rec × ReadyThree s.now work.old p.rec (three f p.seen p.here) }
    ensures { ChecksIn (three_in (scope_in s.now work.old) s.now p.rec (three f p.seen p.here)) tally.old work.old kept.old (tallied result tally.new) work.new kept.new }
{
    let seen = p.seen;
    let first = deinline::first_of(f, seen);
    crate::entry::check_entry(s, work, kept, tally, first, p.rec)?;
    check_rest(s, work, kept, tally, f, p)
}

// Every field, in stream order, onto a tally of nothing.
fn check_all(s: &[u8], work: &mut [u32], kept: &mut [u8], tally: &mut Tally) -> Resolved<()>
    requires { Lent s.now work.old × Ahead s.now work.old begin × Recalled work.old (types_in s.now work.old) (Types.uses (fields_in s.now)) × (tally.old ≡ no_tally) }
    ensures { ChecksIn (entries_of (scope_in s.now work.old) (fields_in s.now)) no_tally work.old kept.old (tallied result tally.new) work.new kept.new }
{
    let mut c = walk::start();
    loop {
        let m = walk::visit(s, work, c);
        let what = m.what;
        match what {
            Some((f, here)) => {
                let seen = c.seen;
                let p = Spot {
                    seen,
                    here,
                    rec: c.rec,
                };
                check_field(s, work, kept, tally, f, p)?;
                c = m.next;
            }
            None => {
                return Ok(());
            }
        }
    }
}

// Every field, in stream order: the first refusal, or how large the sections are; their entries are kept, as far as there is room.
pub fn check_fields(s: &[u8], work: &mut [u32], kept: &mut [u8]) -> Resolved<Tally>
    requires { Lent s.now work.old × Ahead s.now work.old begin × Recalled work.old (types_in s.now work.old) (Types.uses (fields_in s.now)) }
    ensures { ChecksIn (entries_of (scope_in s.now work.old) (fields_in s.now)) no_tally work.old kept.old result work.new kept.new }
{
    let mut tally = Tally::none();
    check_all(s, work, kept, &mut tally)?;
    Ok(tally)
}

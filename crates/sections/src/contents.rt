// The entries of one section, field by field.
ghost use Rattle.std.specs.Prelude.{◌≤◌, length};
ghost use Rattle.emit.specs.Put.{past};
ghost use Rattle.walk.specs.Walk.{fields_in};
ghost use Rattle.scope.specs.Scope.{scope_in};
ghost use Rattle.deinline.specs.Entry.{both, entry_in, second_of, third_of, three, three_in, entries_of};
ghost use Rattle.kept.specs.Content.{bytes_in};
ghost use Rattle.sections.specs.Write.{Writes, Emittable, EmittableThree, Writable};

use deinline::Spot;
use syntax::{Entry, Field, Source};

// An entry, if it is one of the section.
fn emit_in(
    s: &[u8],
    work: &mut [u32],
    out: &mut [u8],
    at: usize,
    k: u8,
    e: Entry,
    rec: u32,
) -> usize
    requires { Emittable s.now work.old rec e }
    ensures { Writes (bytes_in k (entry_in (scope_in s.now work.old) s.now rec e)) out.old at result out.new work.old work.new }
{
    if deinline::section_of(e) != k {
        return at;
    }
    match kept::emit_entry(s, work, out, at, e, rec) {
        Ok(ends) => ends.to,
        Err(_) => at,
    }
}

// The entries of an item beside its exports.
fn emit_item(
    s: &[u8],
    work: &mut [u32],
    out: &mut [u8],
    at: usize,
    k: u8,
    x: Source,
    p: Spot,
) -> usize
    requires { Emittable s.now work.old p.rec (second_of x p.seen) × Emittable s.now work.old p.rec (third_of x p.here) }
    ensures { Writes (bytes_in k (both (entry_in (scope_in s.now work.old) s.now p.rec (second_of x p.seen)) (entry_in (scope_in s.now work.old) s.now p.rec (third_of x p.here)))) out.old at result out.new work.old work.new }
{
    let seen = p.seen;
    let second = deinline::second_of(x, seen);
    let a = emit_in(s, work, out, at, k, second, p.rec);
    let third = deinline::third_of(x, p.here);
    emit_in(s, work, out, a, k, third, p.rec)
}

// What is left of a field after its first entry: of most fields nothing.
fn emit_rest(
    s: &[u8],
    work: &mut [u32],
    out: &mut [u8],
    at: usize,
    k: u8,
    f: Field,
    p: Spot,
) -> usize
    requires { Emittable s.now work.old p.rec (three f p.seen p.here).second × Emittable s.now work.old p.rec (three f p.seen p.here).third }
    ensures { Writes (bytes_in k (both (entry_in (scope_in s.now work.old) s.now p.rec (three f p.seen p.here).second) (entry_in (scope_in s.now work.old) s.now p.rec (three f p.seen p.here).third))) out.old at result out.new work.old work.new }
{
    match deinline::item_in(f) {
        Some(x) => emit_item(s, work, out, at, k, x, p),
        None => at,
    }
}

// The entries of a field. Each is made where it is emitted.
fn emit_field(
    s: &[u8],
    work: &mut [u32],
    out: &mut [u8],
    at: usize,
    k: u8,
    f: Field,
    p: Spot,
) -> usize
    requires { EmittableThree s.now work.old p.rec (three f p.seen p.here) }
    ensures { Writes (bytes_in k (three_in (scope_in s.now work.old) s.now p.rec (three f p.seen p.here))) out.old at result out.new work.old work.new }
{
    let seen = p.seen;
    let first = deinline::first_of(f, seen);
    let a = emit_in(s, work, out, at, k, first, p.rec);
    emit_rest(s, work, out, a, k, f, p)
}

// Those of all fields. None is left where the place has come to `end`, and the fields that are left are not read.
pub fn emit_fields(
    s: &[u8],
    work: &mut [u32],
    out: &mut [u8],
    at: usize,
    k: u8,
    end: usize,
) -> usize
    requires { Writable s.now work.old × (past at (length (bytes_in k (entries_of (scope_in s.now work.old) (fields_in s.now)))) ≤ end) }
    ensures { Writes (bytes_in k (entries_of (scope_in s.now work.old) (fields_in s.now))) out.old at result out.new work.old work.new }
{
    let mut c = walk::start();
    let mut o = at;
    loop {
        if end <= o {
            return o;
        }
        let m = walk::visit(s, work, c);
        let what = m.what;
        match what {
            Some((f, here)) => {
                let seen = c.seen;
                let p = Spot {
                    seen,
                    here,
                    rec: c.rec,
                };
                o = emit_field(s, work, out, o, k, f, p);
                c = m.next;
            }
            None => {
                return o;
            }
        }
    }
}

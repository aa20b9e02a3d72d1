// The pass over all records.
ghost use Rattle.std.specs.Prelude.{◌≡◌, ◌||◌, ◌+◌, ◌*◌, ◌≤◌, ◌<◌, ◌^◌, length};
ghost use Rattle.area.specs.Layout.{WORDS};
ghost use Rattle.area.specs.Lent.{Lent};
ghost use Rattle.stream.specs.Pass.{Reads, Walks, Ends, first_place, end_put};
ghost use Rattle.next_record.specs.Uses.{end_word};
ghost use Rattle.syntax.specs.Refusals.{refusal};

use counting::{put_counts, with_field};
use next_record::{
    FaultAt, Inside, next_field, next_instr, too_many, with_block, without_block, without_else,
};
use syntax::{Fault, Marks, Place, Refusal, Resolved, Seen};

// The second word of a body's end: the record after it, and `MARK` more where the body may use a type.
fn end_word(rec: u32, used: bool) -> u32
    requires { rec ≤ 4096 }
    ensures { result ≡ end_word rec used }
{
    if used {
        return rec + area::MARK;
    }
    rec
}

// Where a body ended: the place and the record after it, and whether interning has to look at the body.
fn put_end(work: &mut [u32], n: u32, p: Place, used: bool)
    requires { (WORDS ≤ length work.old) × (p.at < 2 ^ 32) × (p.rec ≤ 4096) }
    ensures { work.new ≡ end_put work.old n p.at (end_word p.rec used) }
{
    if n < 256 {
        let i = area::ENDS + 2 * (n as usize);
        work[i] = p.at as u32;
        work[i + 1] = end_word(p.rec, used);
    }
}

// The stream's first byte and first record, outside a body.
fn start() -> Place
    ensures { result ≡ first_place }
{
    Place {
        at: 0,
        rec: 0,
        depth: 0,
    }
}

// A record's fault refuses the stream.
fn refused(e: FaultAt) -> Refusal
    ensures { result ≡ refusal e.fault e.place.rec }
{
    syntax::refusal_at(e.fault, e.place.rec)
}

fn either(a: bool, b: bool) -> bool
    ensures { result ≡ (a || b) }
{
    a || b
}

// The stream ends here: in a body it is refused, outside one the counts of items are left, and whether a data segment was named.
fn at_end(work: &mut [u32], p: Place, seen: Seen, named: bool) -> Resolved<u32>
    requires { WORDS ≤ length work.old }
    ensures { Ends p seen.counts named work.old result work.new }
{
    if 0 < p.depth {
        return Err(syntax::refusal_at(Fault::Ended, p.rec));
    }
    put_counts(work, area::COUNTS, seen);
    area::put_flag(work, area::DATA_NAMED, named);
    Ok(p.rec)
}

// Record by record, outside a body and in one.
fn read_records(s: &[u8], work: &mut [u32]) -> Resolved<u32>
    requires { Lent s.now work.old }
    ensures { Walks s.now work.old result work.new }
{
    let mut p = start();
    let mut seen = Seen::none();
    let mut marks = Marks::none();
    let mut ended: u32 = 0;
    let mut used = false;
    let mut named = false;
    loop {
        if s.len() <= p.at {
            return at_end(work, p, seen, named);
        }
        if 4096 <= p.rec {
            return Err(syntax::refusal_at(too_many(s, p), p.rec));
        }
        if p.depth < 1 {
            let (f, next) = next_field(s, p, seen).map_err(refused)?;
            seen = with_field(seen, f);
            p = next;
        } else {
            let (what, next) = next_instr(s, p, marks).map_err(refused)?;
            p = next;
            match what {
                Inside::On(uses) => {
                    used = used || uses;
                }
                Inside::Data => {
                    named = true;
                }
                Inside::Opens(uses, may) => {
                    marks = with_block(marks, may);
                    used = used || uses;
                }
                Inside::Elses => {
                    marks = without_else(marks);
                }
                Inside::Ends => {
                    marks = without_block(marks);
                }
                Inside::Folded(uses, names) => {
                    used = either(used, uses);
                    named = either(named, names);
                }
                Inside::End => {
                    put_end(work, ended, p, used);
                    ended += 1;
                    used = false;
                }
            }
        }
    }
}

// The whole stream to its count of records, or the first fault with its record.
pub fn read_all(s: &[u8], work: &mut [u32]) -> Resolved<u32>
    ensures { Reads s.now work.old result work.new }
{
    if area::BYTES < s.len() {
        return Err(syntax::refusal_at(Fault::TooLong, 0));
    }
    if work.len() < area::WORDS {
        return Err(syntax::refusal_at(Fault::WorkTooShort, 0));
    }
    read_records(s, work)
}

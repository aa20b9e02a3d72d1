// A walk over the fields of a stream, one field record at a time. Bodies are jumped over, by the ends that the reading pass left.
#![tactic(auto)]

ghost use Rattle.std.specs.Prelude.{◌≡◌, ◌+◌, ◌≤◌, ◌<◌};
ghost use Rattle.walk.specs.Walk.{Ahead, visit_in, visit_of, ReadableMet, begin, end_record, end_in, uses_in, stop_in, cursor_in};

use syntax::{Field, Seen};

// Where a walk stands: the byte and the number of the next record, how many own functions came before it, how many fields it may
// still visit, and what the fields before have brought.
#[derive(Clone, Copy)]
pub struct Cursor {
    pub at: usize,
    pub rec: u32,
    pub own: u32,
    pub left: u32,
    pub seen: Seen,
}

// A place and the number of its record.
#[derive(Clone, Copy)]
pub struct Stop {
    pub at: usize,
    pub rec: u32,
}

// What a walk meets, and where it goes on.
#[derive(Clone, Copy)]
pub struct Met {
    pub what: Option<(Field, usize)>,
    pub next: Cursor,
}

// Before the first field.
#[tactic(auto, unfolding(crate::specs::Walk::begin))]
pub fn start() -> Cursor
    ensures { result ≡ begin }
{
    Cursor {
        at: 0,
        rec: 0,
        own: 0,
        left: 4096,
        seen: Seen::none(),
    }
}

// The record in the second word of a body's end.
#[tactic(auto, using(laws::proofs::Exits::exits), unfolding(crate::specs::Walk::end_record))]
fn end_record(x: u32) -> u32
    ensures { result ≡ end_record x }
{
    if area::MARK <= x {
        return x - area::MARK;
    }
    x
}

// Where the n-th body ended.
#[tactic(auto, unfolding(crate::specs::Walk::end_in))]
fn body_end(work: &[u32], n: u32) -> Stop
    ensures { result ≡ end_in work.now n }
{
    let i = area::ENDS + 2 * (n as usize);
    let at = area::word(work, i);
    let rec = end_record(area::word(work, i + 1));
    Stop {
        at: at as usize,
        rec,
    }
}

// May the n-th body use a type? If not, interning has nothing to do there.
#[tactic(auto, unfolding(crate::specs::Walk::uses_in))]
pub fn body_uses(work: &[u32], n: u32) -> bool
    ensures { result ≡ uses_in work.now n }
{
    let i = area::ENDS + 2 * (n as usize);
    area::MARK <= area::word(work, i + 1)
}

// Where the walk goes on after a field whose head ends at `here`: after the body of an own function, or right there.
#[tactic(auto, using(crate::proofs::Cursors::stops))]
fn next_stop(work: &[u32], c: Cursor, depth: u32, here: usize) -> Stop
    requires { c.rec < 4096 }
    ensures { result ≡ stop_in depth work.now c here }
{
    if depth < 1 {
        return Stop {
            at: here,
            rec: c.rec + 1,
        };
    }
    body_end(work, c.own)
}

#[tactic(auto, using(crate::proofs::Cursors::depths), unfolding(crate::specs::Walk::cursor_in))]
fn next_cursor(work: &[u32], c: Cursor, f: Field, here: usize) -> Cursor
    requires { (c.rec < 4096) × (1 ≤ c.left) × (c.own + c.left ≤ 4096) }
    ensures { result ≡ cursor_in work.now c f here }
{
    let depth = next_record::field_depth(f);
    let stop = next_stop(work, c, depth, here);
    let seen = counting::with_field(c.seen, f);
    Cursor {
        at: stop.at,
        rec: stop.rec,
        own: c.own + depth,
        left: c.left - 1,
        seen,
    }
}

// What stands at a cursor, and where the walk goes on; nothing where the stream, the records or the fields end.
pub fn visit(s: &[u8], work: &[u32], c: Cursor) -> Met
    requires { Ahead s.now work.now c }
    ensures { (visit_in c.left c s.now ≡ visit_of s.now result) × ReadableMet s.now result.what }
{
    if c.left < 1 {
        return Met {
            what: None,
            next: c,
        };
    }
    if 4096 <= c.rec {
        return Met {
            what: None,
            next: c,
        };
    }
    if s.len() <= c.at {
        return Met {
            what: None,
            next: c,
        };
    }
    match reread::known_field(s, c.at, c.seen) {
        Ok((f, here)) => Met {
            what: Some((f, here)),
            next: next_cursor(work, c, f, here),
        },
        Err(_) => Met {
            what: None,
            next: c,
        },
    }
}

// Readers that take the place by reference and move it on; each calls the reader by value. The pass uses `next_field` and `next_instr`, whose place
// is plain.
ghost use Rattle.std.specs.Prelude.{◌≡◌, ◌≤◌, ◌<◌};
ghost use Rattle.syntax.specs.Items.{room_of};
ghost use Rattle.next_record.specs.Marks.{mark_of};
ghost use Rattle.next_record.specs.Places.{field_record_at};
ghost use Rattle.next_record.specs.Answers.{outside_answer, inside_answer, with_place};
ghost use Rattle.next_record.specs.Folds.{turn_at};

use crate::marks::{Innermost, lowest};
use crate::record::{FaultAt, Inside, body_record, field_record};
use syntax::{Fault, Field, Marks, Place, Seen};

// A field's record.
fn read_field(s: &[u8], place: &mut Place, seen: Seen) -> Result<Field, Fault>
    requires { place.old.rec < 4096 }
    ensures { field_record_at (room_of seen) place.old s.now ≡ outside_answer s.now (with_place result place.new) }
{
    match field_record(s, *place, seen) {
        Ok((f, next)) => {
            *place = next;
            Ok(f)
        }
        Err(e) => {
            *place = e.place;
            Err(e.fault)
        }
    }
}

// A record of a body.
fn read_instr(s: &[u8], place: &mut Place, last: Innermost) -> Result<Inside, Fault>
    requires { (place.old.rec < 4096) × (1 ≤ place.old.depth) }
    ensures { turn_at place.old (mark_of last) s.now ≡ inside_answer (with_place result place.new) }
{
    match body_record(s, *place, last) {
        Ok((x, next)) => {
            *place = next;
            Ok(x)
        }
        Err(e) => {
            *place = e.place;
            Err(e.fault)
        }
    }
}

// The field's record at a place.
pub fn next_field(s: &[u8], p: Place, seen: Seen) -> Result<(Field, Place), FaultAt>
    requires { p.rec < 4096 }
    ensures { field_record_at (room_of seen) p s.now ≡ outside_answer s.now result }
{
    let mut place = p;
    match read_field(s, &mut place, seen) {
        Ok(f) => Ok((f, place)),
        Err(fault) => Err(FaultAt { fault, place }),
    }
}

// The record of a body at a place.
fn next_inside(s: &[u8], p: Place, last: Innermost) -> Result<(Inside, Place), FaultAt>
    requires { (p.rec < 4096) × (1 ≤ p.depth) }
    ensures { turn_at p (mark_of last) s.now ≡ inside_answer result }
{
    let mut place = p;
    match read_instr(s, &mut place, last) {
        Ok(x) => Ok((x, place)),
        Err(fault) => Err(FaultAt { fault, place }),
    }
}

// The same where the open blocks have these marks: the innermost's alone matters.
pub fn next_instr(s: &[u8], p: Place, marks: Marks) -> Result<(Inside, Place), FaultAt>
    requires { (p.rec < 4096) × (1 ≤ p.depth) }
    ensures { turn_at p marks s.now ≡ inside_answer result }
{
    next_inside(s, p, lowest(marks))
}

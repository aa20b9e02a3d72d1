// One record at the running place, and the place after it.
ghost use Rattle.std.specs.Prelude.{◌≡◌, ◌≤◌, ◌<◌, get_or, if◌then◌else◌};
ghost use Rattle.definition.specs.Read as Read;
ghost use Rattle.syntax.specs.Items.{room_of};
ghost use Rattle.syntax.specs.Marks.{no_marks};
ghost use Rattle.syntax.specs.Plain.{operands_is};
ghost use Rattle.syntax.specs.Refusals.{number};
ghost use Rattle.next_record.specs.Marks.{mark_of};
ghost use Rattle.next_record.specs.Uses.{sort_names};
ghost use Rattle.next_record.specs.Places.{body_of, record_past, field_record_at};
ghost use Rattle.next_record.specs.Answers.{outside_answer, inside_answer, field_depth, on_past, refused_here};
ghost use Rattle.next_record.specs.Folds.{turn_at};

use crate::marks::Innermost;
use syntax::{Fault, Field, Form, Operands, Own, Place, Seen, Source};

// What a record has for a fault, and the record's place.
#[derive(Clone, Copy)]
pub struct FaultAt<F = Fault> {
    pub fault: F,
    pub place: Place,
}

// What the instructions of a folded record do, its own and those of its operands: may one use a type, and does one name a data segment?
#[derive(Clone, Copy)]
pub struct Does {
    pub uses: bool,
    pub names: bool,
}

// What stands in a body. Of an instruction the pass keeps whether it may use a type, what it does to the open blocks, and whether it names a data
// segment, so nothing larger is handed on.
#[derive(Clone, Copy)]
pub enum Inside {
    // an instruction that leaves the blocks as they are: may it use a type?
    On(bool),
    // one that names a data segment, and uses no type
    Data,
    // a block opens: may it use a type, and may an else come in it?
    Opens(bool, bool),
    Elses,
    Ends,
    // a folded record, with all its operands: may one use a type, and does one name a data segment?
    Folded(bool, bool),
    // the body's end
    End,
}

// An own function begins a body.
pub fn field_depth(f: Field) -> u32
    ensures { result ≡ field_depth f }
{
    match f {
        Field::Item { source, .. } => match source {
            Source::Own(o) => match o {
                Own::Func(_, _) => 1,
                _ => 0,
            },
            _ => 0,
        },
        _ => 0,
    }
}

// May a record begin with this byte? The marks do not matter.
fn begins(b: u8, depth: u32) -> bool
    ensures { result ≡ Read.begins_in b (body_of depth no_marks) }
{
    if depth < 1 {
        if b < 0x01 {
            return false;
        }
        return b <= 0x0A;
    }
    if b == 0xF0 {
        return true;
    }
    if b == 0xFF {
        return true;
    }
    match instr::opcode_form(b) {
        Form::NoOpcode => false,
        _ => true,
    }
}

pub fn byte_or_zero(s: &[u8], at: usize) -> u8
    ensures { result ≡ get_or s.now at 0 }
{
    if at < s.len() {
        return s[at];
    }
    0
}

// Does an instruction with operands name a data segment? After FC, memory.init and data.drop do.
pub fn names_data(s: &[u8], at: usize, what: Operands) -> bool
    ensures { result ≡ sort_names (operands_is what) (get_or s.now at 0) }
{
    match what {
        Operands::Bulk => {
            let b = byte_or_zero(s, at);
            if b == 0x08 {
                return true;
            }
            if b == 0x09 {
                return true;
            }
            return false;
        }
        _ => false,
    }
}

// The fault of a record that is one too many: its byte's, where no record may begin so.
pub fn too_many(s: &[u8], p: Place) -> Fault
    ensures { number result ≡ (if Read.begins_in (get_or s.now p.at 0) (body_of p.depth no_marks) then 7 else 4) }
{
    let b = byte_or_zero(s, p.at);
    if begins(b, p.depth) {
        return Fault::TooMany;
    }
    Fault::UnknownByte
}

// The place after a record.
pub fn after_record(p: Place, at: usize, depth: u32) -> Place
    requires { p.rec < 4096 }
    ensures { result ≡ record_past p at depth }
{
    Place {
        at,
        rec: p.rec + 1,
        depth,
    }
}

// A field's record, for which `seen` says what may still come, and the place after it. A fault leaves the place where it was.
pub fn field_record(s: &[u8], p: Place, seen: Seen) -> Result<(Field, Place), FaultAt>
    requires { p.rec < 4096 }
    ensures { field_record_at (room_of seen) p s.now ≡ outside_answer s.now result }
{
    let (f, at) = field_records::read_field(s, p.at, seen).map_err(|fault| FaultAt {
        fault,
        place: p,
    })?;
    Ok((f, after_record(p, at, field_depth(f))))
}

// Something was read, after which the place is so deep.
pub fn on<T>(p: Place, at: usize, depth: u32, what: T) -> Result<(T, Place), FaultAt>
    requires { p.rec < 4096 }
    ensures { result ≡ on_past p at depth what }
{
    Ok((what, after_record(p, at, depth)))
}

// A fault of any type, at its record's place.
pub fn refused<F>(p: Place, fault: F) -> FaultAt<F>
    ensures { result ≡ refused_here p fault }
{
    FaultAt { fault, place: p }
}

// A record of a body, and the place after it: the byte FF where no block is open, an instruction, or a folded record with all its operands. A fault
// has the place of its record.
pub fn body_record(s: &[u8], p: Place, last: Innermost) -> Result<(Inside, Place), FaultAt>
    requires { (p.rec < 4096) × (1 ≤ p.depth) }
    ensures { turn_at p (mark_of last) s.now ≡ inside_answer result }
{
    let (b, at) = token::read_byte(s, p.at).map_err(|f| refused(p, f))?;
    if b == 0xF0 {
        return crate::skim::folded(s, p);
    }
    if b != 0xFF {
        return crate::skim::pass_instr(s, p, last, at, b);
    }
    if 1 < p.depth {
        return Err(refused(p, Fault::BrokenBlocks));
    }
    Ok((Inside::End, after_record(p, at, 0)))
}

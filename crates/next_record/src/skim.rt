// An instruction that is passed over. The pass needs where it ends, how deep the place is then, whether it may use a type, what it does to the
// open blocks, and whether it names a data segment; nothing else of it is built.
ghost use Rattle.std.specs.Prelude.{◌≡◌, ◌-◌, ◌≤◌, ◌<◌, get_or};
ghost use Rattle.definition.specs.Instructions as Instructions;
ghost use Rattle.syntax.specs.Plain.{operands_is};
ghost use Rattle.syntax.specs.Marks.{inside_of};
ghost use Rattle.next_record.specs.Marks.{mark_of};
ghost use Rattle.next_record.specs.Answers.{opens_in, elses_in, ends_in, plain_inside, kept_instr, inside_answer};
ghost use Rattle.next_record.specs.Folds.{none_do, folded_at, kept_fold};

use crate::fold::read_operands;
use crate::marks::{Innermost, may_else};
use crate::record::{Does, FaultAt, Inside, names_data, on, refused};
use syntax::{Fault, Form, Operands, Place};

// A block opens, where fewer than 128 are open.
fn opens(s: &[u8], p: Place, at: usize, opcode: u8) -> Result<(Inside, Place), FaultAt>
    requires { (p.rec < 4096) × (1 ≤ p.depth) }
    ensures { kept_instr p (opens_in (p.depth - 1) opcode s.now at) ≡ inside_answer result }
{
    if 128 < p.depth {
        return Err(refused(p, Fault::TooMany));
    }
    let a = token::pass_identifier(s, at).map_err(|f| refused(p, f))?;
    let (t, next) = typeuse::read_type_use(s, a).map_err(|f| refused(p, f))?;
    let uses = !type_table::is_short(s, t);
    on(p, next, p.depth + 1, Inside::Opens(uses, opcode == 0x04))
}

// An else, where one may come.
fn elses(s: &[u8], p: Place, last: Innermost, at: usize) -> Result<(Inside, Place), FaultAt>
    requires { (p.rec < 4096) × (1 ≤ p.depth) }
    ensures { kept_instr p (elses_in (p.depth - 1) (mark_of last) s.now at) ≡ inside_answer result }
{
    if !may_else(last, p.depth) {
        return Err(refused(p, Fault::BrokenBlocks));
    }
    let next = token::pass_identifier(s, at).map_err(|f| refused(p, f))?;
    on(p, next, p.depth, Inside::Elses)
}

// An end, where a block is open.
fn ends(s: &[u8], p: Place, at: usize) -> Result<(Inside, Place), FaultAt>
    requires { (p.rec < 4096) × (1 ≤ p.depth) }
    ensures { kept_instr p (ends_in (p.depth - 1) s.now at) ≡ inside_answer result }
{
    if p.depth < 2 {
        return Err(refused(p, Fault::BrokenBlocks));
    }
    let next = token::pass_identifier(s, at).map_err(|f| refused(p, f))?;
    on(p, next, p.depth - 1, Inside::Ends)
}

fn indirect(s: &[u8], p: Place, at: usize) -> Result<(Inside, Place), FaultAt>
    requires { (p.rec < 4096) × (1 ≤ p.depth) }
    ensures { kept_instr p (Instructions.instruction 0x11 Instructions.calling s.now at) ≡ inside_answer result }
{
    let a = token::pass_optional(s, at).map_err(|f| refused(p, f))?;
    let (_, next) = typeuse::read_type_use(s, a).map_err(|f| refused(p, f))?;
    on(p, next, p.depth, Inside::On(true))
}

// An instruction with operands.
fn plain_inside(s: &[u8], at: usize, what: Operands) -> Inside
    ensures { result ≡ plain_inside (operands_is what) (get_or s.now at 0) }
{
    if names_data(s, at, what) {
        return Inside::Data;
    }
    Inside::On(false)
}

// A folded record with all its operands, as a list of one.
pub fn folded(s: &[u8], p: Place) -> Result<(Inside, Place), FaultAt>
    ensures { kept_fold (folded_at 32 s.now none_do p) ≡ inside_answer result }
{
    let none = Does {
        uses: false,
        names: false,
    };
    let (does, place) = read_operands(s, p, 1, 32, none)?;
    Ok((Inside::Folded(does.uses, does.names), place))
}

// What stands after an opcode.
pub fn pass_instr(
    s: &[u8],
    p: Place,
    last: Innermost,
    at: usize,
    opcode: u8,
) -> Result<(Inside, Place), FaultAt>
    requires { (p.rec < 4096) × (1 ≤ p.depth) }
    ensures { kept_instr p (Instructions.formed (inside_of (p.depth - 1) (mark_of last)) opcode (Instructions.form_of opcode) s.now at) ≡ inside_answer result }
{
    match instr::opcode_form(opcode) {
        Form::NoOpcode => Err(refused(p, Fault::UnknownByte)),
        Form::Opening => opens(s, p, at, opcode),
        Form::Elsing => elses(s, p, last, at),
        Form::Ending => ends(s, p, at),
        Form::Calling => indirect(s, p, at),
        Form::Operands(what) => {
            let next = expr::pass_plain(s, at, what).map_err(|f| refused(p, f))?;
            on(p, next, p.depth, plain_inside(s, at, what))
        }
    }
}

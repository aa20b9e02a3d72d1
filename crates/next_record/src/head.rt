// What stands after F0, and one record of a tree.
ghost use Rattle.std.specs.Prelude.{◌≡◌};
ghost use Rattle.next_record.specs.Folds.{both_do, does_at, head_at, head_is, head_with, NextAt};

use crate::often::{often_after, pass_often};
use crate::record::{Does, FaultAt, after_record, names_data};
use syntax::{Fault, Form, Place, Read};

// What the operator at a place does together with what came before it, if it can be read: call_indirect may use a type.
fn operator_does(s: &[u8], at: usize, does: Does) -> Does
    ensures { result ≡ both_do does (does_at s.now at) }
{
    match token::read_byte(s, at) {
        Ok((b, a)) => match instr::opcode_form(b) {
            Form::Calling => Does {
                uses: true,
                names: does.names,
            },
            Form::Operands(what) => {
                if names_data(s, a, what) {
                    return Does {
                        uses: does.uses,
                        names: true,
                    };
                }
                does
            }
            _ => does,
        },
        Err(_) => does,
    }
}

// What stands after F0: what the operator does together with what came before it, and the count of operands; and where they begin.
pub fn read_head(s: &[u8], at: usize, does: Does) -> Read<(Does, u32)>
    ensures { head_is result ≡ head_with does (head_at s.now at) }
{
    let (n, next) = instr::pass_fold(s, at)?;
    Ok(((operator_does(s, at, does), n), next))
}

// The same as `read_head`, quicker for what is met often. It has one caller, as `read_next` has, so that both are taken into the loop over operands.
fn quick_head(s: &[u8], at: usize, does: Does) -> Read<(Does, u32)>
    ensures { head_is result ≡ head_with does (head_at s.now at) }
{
    let (b, a) = token::read_byte(s, at)?;
    match often_after(b) {
        None => read_head(s, at, does),
        Some(what) => {
            let c = pass_often(s, a, what)?;
            let (n, next) = token::up_to(s, c, Fault::TooMany, 16)?;
            Ok(((does, n), next))
        }
    }
}

// The highest number of 64 bits.
const FULL: u64 = 18446744073709551615;

// What came of one record: what it and those before it do, how many of its operands are due next, and where they begin.
#[derive(Clone, Copy)]
pub struct Due {
    pub does: Does,
    pub count: u32,
    pub place: Place,
}

// The record at `p`, in which so many may be nested, itself included. None where its operands have no room beside what is due. A fault has the
// place of its record.
pub fn read_next(
    s: &[u8],
    p: Place,
    left: u32,
    due: u64,
    does: Does,
) -> Result<Option<Due>, FaultAt>
    ensures { NextAt left s.now does p due result }
{
    let (b, at) = token::read_byte(s, p.at).map_err(|fault| FaultAt { fault, place: p })?;
    if b != 0xF0 {
        return Err(FaultAt {
            fault: Fault::UnknownByte,
            place: p,
        });
    }
    if 4096 <= p.rec || left < 1 {
        return Err(FaultAt {
            fault: Fault::TooMany,
            place: p,
        });
    }
    let ((d, n), next) = quick_head(s, at, does).map_err(|fault| FaultAt { fault, place: p })?;
    if FULL >> n < due {
        return Ok(None);
    }
    Ok(Some(Due {
        does: d,
        count: n,
        place: after_record(p, next, p.depth),
    }))
}

// A body: its instructions up to its end.
ghost use Rattle.std.specs.Prelude.{◌-◌, ◌≤◌};
ghost use Rattle.area.specs.Lent.{Lent};
ghost use Rattle.instr.specs.Bodies.{body_from};
ghost use Rattle.scope.specs.Scope.{FewLocals};
ghost use Rattle.plain.specs.Turns.{InBody};
ghost use Rattle.code.specs.Body.{Resolvable, BodyTurned, EmitsBody};

use scope::Locals;
use syntax::{Form, Place, Resolved};

// One record of a body, and all of a folded one. Neither F0 nor the body's end, FF, is an opcode.
fn one_record(
    s: &[u8],
    work: &mut [u32],
    out: &mut [u8],
    at: usize,
    p: Place,
    l: Locals,
) -> Resolved<Option<(usize, Place)>>
    requires { Lent s.now work.old × FewLocals l × InBody p × Resolvable s.now work.old (body_from (p.depth - 1) p.rec s.now p.at) }
    ensures { BodyTurned s.now work.old l p out.old at result work.new out.new }
{
    match token::read_byte(s, p.at) {
        Ok((b, a)) => {
            let q = Place {
                at: a,
                rec: p.rec,
                depth: p.depth,
            };
            if b == 0xF0 {
                // as a list of one, so that a folded record has one caller and is taken into its loop
                return crate::fold::emit_operands(s, work, out, at, p, l, 32, 1);
            }
            match instr::opcode_form(b) {
                Form::NoOpcode => Ok(None),
                Form::Opening => crate::block::opens_record(s, work, out, at, q, b),
                Form::Elsing => crate::block::closing_record(s, work, out, at, q, 0x05, 0),
                Form::Ending => crate::block::closing_record(s, work, out, at, q, 0x0B, 1),
                Form::Calling => crate::block::indirect_record(s, work, out, at, q),
                Form::Operands(what) => plain::plain_record(s, work, out, at, q, l, b, what),
            }
        }
        Err(_) => Ok(None),
    }
}

// The body at `here`; its first instruction is this record.
pub fn emit_body(
    s: &[u8],
    work: &mut [u32],
    out: &mut [u8],
    at: usize,
    here: usize,
    rec: u32,
    l: Locals,
) -> Resolved<usize>
    requires { Lent s.now work.old × FewLocals l × (rec ≤ 4096) × Resolvable s.now work.old (body_from 0 rec s.now here) }
    ensures { EmitsBody s.now work.old l rec here out.old at result work.new out.new }
{
    let mut o = at;
    let mut p = Place {
        at: here,
        rec,
        depth: 1,
    };
    while p.rec < 4096 {
        match one_record(s, work, out, o, p, l)? {
            Some((a, next)) => {
                o = a;
                p = next;
            }
            None => {
                return Ok(o);
            }
        }
    }
    Ok(o)
}

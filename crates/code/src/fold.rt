// Folded records: the operands of each are resolved and written before its operator.
ghost use Rattle.std.specs.Prelude.{◌≡◌, ◌-◌, ◌≤◌, length};
ghost use Rattle.area.specs.Layout.{WORDS};
ghost use Rattle.definition.specs.Instructions as Instructions;
ghost use Rattle.token.specs.Known.{Gets};
ghost use Rattle.syntax.specs.Instructions.{form_is};
ghost use Rattle.type_table.specs.Table.{types_in, Recalled};
ghost use Rattle.instr.specs.Bodies.{operands_by, tree_at};
ghost use Rattle.scope.specs.Scope.{locals_in, FewLocals};
ghost use Rattle.plain.specs.Turns.{InBody, record_of, read_uses, Turned};
ghost use Rattle.code.specs.Body.{Within, Resolvable, StretchTurned, OperatorTurned};

use scope::Locals;
use syntax::{Form, Place, Resolved};

// The operator of a folded record, by its opcode and form; what stands after its opcode is at `p`. It opens and closes no block.
fn operator_record(
    s: &[u8],
    work: &[u32],
    out: &mut [u8],
    at: usize,
    p: Place,
    l: Locals,
    opcode: u8,
    form: Form,
) -> Resolved<Option<(usize, Place)>>
    requires { (WORDS ≤ length work.now) × FewLocals l × InBody p × (Instructions.form_of opcode ≡ form_is form) × Recalled work.now (types_in s.now work.now) (read_uses p.rec (Instructions.operator_of opcode (Instructions.form_of opcode) s.now p.at)) × Gets (Instructions.operator_of opcode (Instructions.form_of opcode) s.now p.at) }
    ensures { Turned s.now work.now (locals_in s.now work.now l) (p.depth - 1) p.rec (record_of (Instructions.operator_of opcode (Instructions.form_of opcode) s.now p.at)) out.old at result work.now out.new }
{
    match form {
        Form::Calling => crate::block::indirect_record(s, work, out, at, p),
        Form::Operands(what) => plain::plain_record(s, work, out, at, p, l, opcode, what),
        _ => Ok(None),
    }
}

// The same where this came of its operands: it is written after them, and the place is the one after them.
fn operator_last(
    s: &[u8],
    work: &[u32],
    out: &mut [u8],
    held: Resolved<Option<(usize, Place)>>,
    p: Place,
    l: Locals,
    opcode: u8,
    form: Form,
) -> Resolved<Option<(usize, Place)>>
    requires { (WORDS ≤ length work.now) × FewLocals l × InBody p × (Instructions.form_of opcode ≡ form_is form) × Recalled work.now (types_in s.now work.now) (read_uses p.rec (Instructions.operator_of opcode (Instructions.form_of opcode) s.now p.at)) × Gets (Instructions.operator_of opcode (Instructions.form_of opcode) s.now p.at) }
    ensures { OperatorTurned s.now work.now l p opcode held out.old result out.new }
{
    match held {
        Ok(Some((at, end))) => match operator_record(s, work, out, at, p, l, opcode, form) {
            // by its fields: a copy of the whole waits for all three to be stored
            Ok(Some((o, _))) => Ok(Some((
                o,
                Place {
                    at: end.at,
                    rec: end.rec,
                    depth: end.depth,
                },
            ))),
            Ok(None) => Ok(None),
            Err(r) => Err(r),
        },
        Ok(None) => Ok(None),
        Err(r) => Err(r),
    }
}

// Operands like those of `emit_operands`; where there are none, no call is made and nothing is written.
#[cycle(emit_folded_emit_operands_operands_or_none)]
fn operands_or_none(
    s: &[u8],
    work: &[u32],
    out: &mut [u8],
    at: usize,
    p: Place,
    l: Locals,
    left: u32,
    n: u32,
) -> Resolved<Option<(usize, Place)>>
    requires { (WORDS ≤ length work.now) × FewLocals l × Within p × Resolvable s.now work.now (operands_by (tree_at left s.now) n p.rec p.at) }
    ensures { StretchTurned s.now work.now l p.depth (operands_by (tree_at left s.now) n p.rec p.at) out.old at result out.new }
{
    if n == 0 {
        // by its fields, as above
        return Ok(Some((
            at,
            Place {
                at: p.at,
                rec: p.rec,
                depth: p.depth,
            },
        )));
    }
    emit_operands(s, work, out, at, p, l, left, n)
}

// A folded record at `p`, in which so many are nested at most, itself included: its operands and then its operator, at its own record.
#[cycle(emit_folded_emit_operands_operands_or_none)]
fn emit_folded(
    s: &[u8],
    work: &[u32],
    out: &mut [u8],
    at: usize,
    p: Place,
    l: Locals,
    left: u32,
) -> Resolved<Option<(usize, Place)>>
    requires { (WORDS ≤ length work.now) × FewLocals l × Within p × Resolvable s.now work.now (tree_at left s.now p.rec p.at) }
    ensures { StretchTurned s.now work.now l p.depth (tree_at left s.now p.rec p.at) out.old at result out.new }
{
    if left < 1 {
        return Ok(None);
    }
    if 4096 <= p.rec {
        return Ok(None);
    }
    match instr::skip_folded(s, p.at) {
        Some(f) => {
            let first = Place {
                at: f.next,
                rec: p.rec + 1,
                depth: p.depth,
            };
            let held = operands_or_none(s, work, out, at, first, l, left - 1, f.count);
            let q = Place {
                at: f.at,
                rec: p.rec,
                depth: p.depth,
            };
            operator_last(s, work, out, held, q, l, f.opcode, f.form)
        }
        None => Ok(None),
    }
}

// So many operands, from the one at `p` on, from left to right; in each so many folded records are nested at most. A folded record that is no
// operand is a list of one.
#[cycle(emit_folded_emit_operands_operands_or_none)]
pub fn emit_operands(
    s: &[u8],
    work: &[u32],
    out: &mut [u8],
    at: usize,
    p: Place,
    l: Locals,
    left: u32,
    n: u32,
) -> Resolved<Option<(usize, Place)>>
    requires { (WORDS ≤ length work.now) × FewLocals l × Within p × Resolvable s.now work.now (operands_by (tree_at left s.now) n p.rec p.at) }
    ensures { StretchTurned s.now work.now l p.depth (operands_by (tree_at left s.now) n p.rec p.at) out.old at result out.new }
{
    let mut o = at;
    let mut q = p;
    for _ in 0..n {
        let Some((b, end)) = emit_folded(s, work, out, o, q, l, left)? else {
            return Ok(None);
        };
        o = b;
        // by its fields: a copy of the whole waits for all three to be stored
        q = Place {
            at: end.at,
            rec: end.rec,
            depth: end.depth,
        };
    }
    Ok(Some((o, q)))
}

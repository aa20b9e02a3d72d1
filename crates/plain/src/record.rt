// Instructions that open and close no block and have no type use. The frequent ones are resolved as they are read.
// The reading pass has looked at every byte of a name, so none is looked at again.
ghost use Rattle.std.specs.Prelude.{◌-◌, ◌≤◌, length};
ghost use Rattle.area.specs.Layout.{WORDS};
ghost use Rattle.definition.specs.Token as Token;
ghost use Rattle.definition.specs.Instructions as Instructions;
ghost use Rattle.definition.specs.Names as Names;
ghost use Rattle.definition.specs.Binary as Binary;
ghost use Rattle.syntax.specs.Tokens.{index_of};
ghost use Rattle.token.specs.Known.{Gets};
ghost use Rattle.syntax.specs.Plain.{operands_is};
ghost use Rattle.scope.specs.Scope.{scope_in, locals_in, FewLocals, labels_in};
ghost use Rattle.binary.specs.Emits.{Emits};
ghost use Rattle.plain.specs.Turns.{InBody, plain_record, operand_to, indexed, StandsAfter, Turned};

use scope::Locals;
use syntax::{Index, Operands, Place, Resolved, Space};

// What an index refers to.
#[derive(Clone, Copy)]
pub enum Target {
    Label,
    Local,
    Item(Space),
}

// What stands after an opcode: one index, nothing, or something else.
#[derive(Clone, Copy)]
pub enum After {
    Index(Target),
    Nothing,
    Other,
}

fn after_opcode(what: Operands) -> After
    ensures { StandsAfter what result }
{
    match what {
        Operands::Bare => After::Nothing,
        Operands::LabelIdx => After::Index(Target::Label),
        Operands::LocalIdx => After::Index(Target::Local),
        Operands::FuncIdx => After::Index(Target::Item(Space::Funcs)),
        Operands::GlobalIdx => After::Index(Target::Item(Space::Globals)),
        _ => After::Other,
    }
}

fn emit_index(
    s: &[u8],
    work: &[u32],
    out: &mut [u8],
    at: usize,
    p: Place,
    l: Locals,
    to: Target,
    x: Index,
) -> Resolved<usize>
    requires { (WORDS ≤ length work.now) × FewLocals l × InBody p }
    ensures { Emits Binary.imm (Names.immediate (scope_in s.now work.now) (locals_in s.now work.now l) (labels_in s.now work.now (p.depth - 1)) p.rec (operand_to to (index_of s.now x))) out.old at result out.new }
{
    match to {
        Target::Label => operands::emit_label(s, work, out, at, p.depth - 1, x, p.rec),
        Target::Local => operands::emit_local(s, work, out, at, l, x, p.rec),
        Target::Item(kind) => operands::emit_item(s, work, out, at, kind, x, p.rec),
    }
}

// An instruction whose operand is an index.
fn index_record(
    s: &[u8],
    work: &[u32],
    out: &mut [u8],
    at: usize,
    p: Place,
    l: Locals,
    opcode: u8,
    to: Target,
) -> Resolved<Option<(usize, Place)>>
    requires { (WORDS ≤ length work.now) × FewLocals l × InBody p × Gets (Token.present s.now p.at) }
    ensures { Turned s.now work.now (locals_in s.now work.now l) (p.depth - 1) p.rec (plain_record (indexed opcode (operand_to to) s.now p.at)) out.old at result work.now out.new }
{
    match token::known_present(s, p.at) {
        Ok((x, next)) => {
            let a = emit::put(out, at, opcode);
            let e = emit_index(s, work, out, a, p, l, to, x);
            crate::turn::go_on(e, p, next, p.depth)
        }
        Err(_) => Ok(None),
    }
}

fn other_record(
    s: &[u8],
    work: &[u32],
    out: &mut [u8],
    at: usize,
    p: Place,
    l: Locals,
    opcode: u8,
    what: Operands,
) -> Resolved<Option<(usize, Place)>>
    requires { (WORDS ≤ length work.now) × FewLocals l × InBody p }
    ensures { Turned s.now work.now (locals_in s.now work.now l) (p.depth - 1) p.rec (plain_record (Instructions.plain_of opcode (operands_is what) s.now p.at)) out.old at result work.now out.new }
{
    match expr::read_plain(s, p.at, opcode, what) {
        Ok((x, next)) => {
            let e = operands::emit_plain(s, work, out, at, l, p.depth - 1, x, p.rec);
            crate::turn::go_on(e, p, next, p.depth)
        }
        Err(_) => Ok(None),
    }
}

pub fn plain_record(
    s: &[u8],
    work: &[u32],
    out: &mut [u8],
    at: usize,
    p: Place,
    l: Locals,
    opcode: u8,
    what: Operands,
) -> Resolved<Option<(usize, Place)>>
    requires { (WORDS ≤ length work.now) × FewLocals l × InBody p × Gets (Instructions.plain_of opcode (operands_is what) s.now p.at) }
    ensures { Turned s.now work.now (locals_in s.now work.now l) (p.depth - 1) p.rec (plain_record (Instructions.plain_of opcode (operands_is what) s.now p.at)) out.old at result work.now out.new }
{
    match after_opcode(what) {
        After::Index(to) => index_record(s, work, out, at, p, l, opcode, to),
        After::Nothing => {
            let o = emit::put(out, at, opcode);
            return crate::turn::go_on(Ok(o), p, p.at, p.depth);
        }
        After::Other => other_record(s, work, out, at, p, l, opcode, what),
    }
}

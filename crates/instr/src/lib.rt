// The records of a body: instructions, folded ones, and its end.
#![tactic(auto)]

ghost use Rattle.std.specs.Prelude.{◌≡◌, ◌<◌};
ghost use Rattle.definition.specs.Instructions as Instructions;
ghost use Rattle.laws.specs.Depths.{deep};
ghost use Rattle.laws.specs.Steps.{stops};
ghost use Rattle.token.specs.Known.{Gets};
ghost use Rattle.syntax.specs.Numbers.{u32_at};
ghost use Rattle.syntax.specs.Tokens.{skip};
ghost use Rattle.syntax.specs.Plain.{operands_is};
ghost use Rattle.syntax.specs.Instructions.{form_is, instr_at, fold_at};
ghost use Rattle.instr.specs.Bodies.{deep_instr, head_at, fold_here};
ghost use Rattle.instr.specs.Known.{IsRead, ReadableAt, ReadableBody, ReadableFold};
ghost use Rattle.instr.specs.Readers.{high_form, head_is, count_of, Parted};

use syntax::{BodyRec, Fault, Folding, Form, Instr, Operands, Pass, Plain, Read};

// Opcodes below 45, one by one: so the back end makes one table of them, and no test has to be foretold.
#[tactic(auto, using(crate::proofs::Forms::no_early), unfolding(definition::specs::Instructions::form_of, definition::specs::Instructions::form_in, definition::specs::Instructions::opcodes, definition::specs::Basic::between))]
fn early_form(opcode: u8) -> Form
    requires { opcode < 0x45 }
    ensures { Instructions.form_of opcode ≡ form_is result }
{
    match opcode {
        0x00 => Form::Operands(Operands::Bare),
        0x01 => Form::Operands(Operands::Bare),
        0x02 => Form::Opening,
        0x03 => Form::Opening,
        0x04 => Form::Opening,
        0x05 => Form::Elsing,
        0x0B => Form::Ending,
        0x0C => Form::Operands(Operands::LabelIdx),
        0x0D => Form::Operands(Operands::LabelIdx),
        0x0E => Form::Operands(Operands::LabelIdxs),
        0x0F => Form::Operands(Operands::Bare),
        0x10 => Form::Operands(Operands::FuncIdx),
        0x11 => Form::Calling,
        0x1A => Form::Operands(Operands::Bare),
        0x1B => Form::Operands(Operands::Bare),
        0x20 => Form::Operands(Operands::LocalIdx),
        0x21 => Form::Operands(Operands::LocalIdx),
        0x22 => Form::Operands(Operands::LocalIdx),
        0x23 => Form::Operands(Operands::GlobalIdx),
        0x24 => Form::Operands(Operands::GlobalIdx),
        0x28 => Form::Operands(Operands::MemArg),
        0x29 => Form::Operands(Operands::MemArg),
        0x2A => Form::Operands(Operands::MemArg),
        0x2B => Form::Operands(Operands::MemArg),
        0x2C => Form::Operands(Operands::MemArg),
        0x2D => Form::Operands(Operands::MemArg),
        0x2E => Form::Operands(Operands::MemArg),
        0x2F => Form::Operands(Operands::MemArg),
        0x30 => Form::Operands(Operands::MemArg),
        0x31 => Form::Operands(Operands::MemArg),
        0x32 => Form::Operands(Operands::MemArg),
        0x33 => Form::Operands(Operands::MemArg),
        0x34 => Form::Operands(Operands::MemArg),
        0x35 => Form::Operands(Operands::MemArg),
        0x36 => Form::Operands(Operands::MemArg),
        0x37 => Form::Operands(Operands::MemArg),
        0x38 => Form::Operands(Operands::MemArg),
        0x39 => Form::Operands(Operands::MemArg),
        0x3A => Form::Operands(Operands::MemArg),
        0x3B => Form::Operands(Operands::MemArg),
        0x3C => Form::Operands(Operands::MemArg),
        0x3D => Form::Operands(Operands::MemArg),
        0x3E => Form::Operands(Operands::MemArg),
        0x3F => Form::Operands(Operands::MemIdx),
        0x40 => Form::Operands(Operands::MemIdx),
        0x41 => Form::Operands(Operands::I32),
        0x42 => Form::Operands(Operands::I64),
        0x43 => Form::Operands(Operands::F32),
        0x44 => Form::Operands(Operands::F64),
        _ => Form::NoOpcode,
    }
}

// From 45 on: numeric instructions, then references, then what has a second byte.
#[tactic(auto, using(laws::proofs::Exits::exits), unfolding(crate::specs::Readers::high_form))]
fn high_form(b: u8) -> Form
    ensures { form_is result ≡ high_form b }
{
    if b < 0xC5 {
        return Form::Operands(Operands::Bare);
    }
    if b == 0xD0 {
        return Form::Operands(Operands::HeapType);
    }
    if b == 0xD1 {
        return Form::Operands(Operands::Bare);
    }
    if b == 0xD2 {
        return Form::Operands(Operands::FuncIdx);
    }
    if b == 0xFC {
        return Form::Operands(Operands::Bulk);
    }
    Form::NoOpcode
}

#[tactic(auto, using(crate::proofs::Forms::high_is))]
pub fn opcode_form(opcode: u8) -> Form
    ensures { Instructions.form_of opcode ≡ form_is result }
{
    if opcode < 0x45 {
        return early_form(opcode);
    }
    high_form(opcode)
}

// Instructions that are known to be readable: of their names only the lengths are looked at.
#[tactic(auto, using(syntax::proofs::Ways::reads, laws::proofs::Ways::ways, crate::proofs::Ways::tested, crate::proofs::Known::opened), unfolding(definition::specs::Instructions::instruction))]
fn opens(s: &[u8], at: usize, opcode: u8, k: u32) -> Read<Instr>
    requires { Gets (deep_instr k opcode Instructions.opening s.now at) }
    ensures { (deep_instr k opcode Instructions.opening s.now at ≡ instr_at s.now result) × ReadableAt s.now result }
{
    if 128 <= k {
        return Err(Fault::TooMany);
    }
    let (label, a) = token::known_identifier(s, at)?;
    let (t, b) = typeuse::known_type_use(s, a)?;
    Ok((Instr::Opens(opcode, label, t), b))
}

#[tactic(auto, using(syntax::proofs::Ways::reads, laws::proofs::Ways::ways, crate::proofs::Ways::tested, crate::proofs::Known::elsed), unfolding(definition::specs::Instructions::instruction))]
fn elses(s: &[u8], at: usize, opcode: u8, k: u32) -> Read<Instr>
    requires { Gets (deep_instr k opcode Instructions.elsing s.now at) }
    ensures { (deep_instr k opcode Instructions.elsing s.now at ≡ instr_at s.now result) × ReadableAt s.now result }
{
    if k < 1 {
        return Err(Fault::BrokenBlocks);
    }
    let (label, next) = token::known_identifier(s, at)?;
    Ok((Instr::Elses(label), next))
}

#[tactic(auto, using(syntax::proofs::Ways::reads, laws::proofs::Ways::ways, crate::proofs::Ways::tested, crate::proofs::Known::ended), unfolding(definition::specs::Instructions::instruction))]
fn ends(s: &[u8], at: usize, opcode: u8, k: u32) -> Read<Instr>
    requires { Gets (deep_instr k opcode Instructions.ending s.now at) }
    ensures { (deep_instr k opcode Instructions.ending s.now at ≡ instr_at s.now result) × ReadableAt s.now result }
{
    if k < 1 {
        return Err(Fault::BrokenBlocks);
    }
    let (label, next) = token::known_identifier(s, at)?;
    Ok((Instr::Ends(label), next))
}

#[tactic(auto, using(syntax::proofs::Ways::reads, crate::proofs::Known::called), unfolding(definition::specs::Instructions::instruction))]
fn indirect(s: &[u8], at: usize, opcode: u8) -> Read<Instr>
    requires { Gets (Instructions.instruction opcode Instructions.calling s.now at) }
    ensures { (Instructions.instruction opcode Instructions.calling s.now at ≡ instr_at s.now result) × ReadableAt s.now result }
{
    let (x, a) = token::known_optional(s, at)?;
    let (t, b) = typeuse::known_type_use(s, a)?;
    Ok((Instr::Indirect(x, t), b))
}

// An instruction where k blocks are open: what stands after its opcode.
#[tactic(auto, using(syntax::proofs::Ways::reads, crate::proofs::Known::of_form), unfolding(definition::specs::Instructions::instruction, definition::specs::Instructions::admits, crate::specs::Bodies::deep_instr))]
fn formed(s: &[u8], at: usize, opcode: u8, k: u32) -> Read<Instr>
    requires { Gets (Instructions.formed (deep k) opcode (Instructions.form_of opcode) s.now at) }
    ensures { (Instructions.formed (deep k) opcode (Instructions.form_of opcode) s.now at ≡ instr_at s.now result) × ReadableAt s.now result }
{
    match opcode_form(opcode) {
        Form::NoOpcode => Err(Fault::UnknownByte),
        Form::Opening => opens(s, at, opcode, k),
        Form::Elsing => elses(s, at, opcode, k),
        Form::Ending => ends(s, at, opcode, k),
        Form::Calling => indirect(s, at, opcode),
        Form::Operands(what) => {
            let (p, next) = expr::read_plain(s, at, opcode, what)?;
            Ok((Instr::Plain(p), next))
        }
    }
}

// A record of a body that was read before, where k blocks are open. Of a folded one only that it is there.
#[tactic(auto, using(crate::proofs::Ways::heads, crate::proofs::Known::body_formed, laws::proofs::Exits::exits), unfolding(crate::specs::Bodies::head_at))]
pub fn known_body(s: &[u8], at: usize, k: u32) -> Option<BodyRec>
    requires { IsRead (head_at k s.now at) }
    ensures { (head_is s.now result ≡ head_at k s.now at) × ReadableBody s.now result }
{
    let (b, a) = token::read_byte(s, at).ok()?;
    if b == 0xF0 {
        return Some(BodyRec::Folded);
    }
    if b == 0xFF {
        if k == 0 {
            return Some(BodyRec::End(a));
        }
        return None;
    }
    let (i, next) = formed(s, a, b, k).ok()?;
    Some(BodyRec::Instr(i, next))
}

// An instruction that may be folded.
#[tactic(auto, using(syntax::proofs::Ways::reads, crate::proofs::Known::operator_calling, crate::proofs::Ways::operator_is), unfolding(definition::specs::Instructions::operator, definition::specs::Instructions::instruction, definition::specs::Instructions::may_fold))]
fn known_operator(s: &[u8], at: usize) -> Read<Instr>
    requires { Gets (Instructions.operator s.now at) }
    ensures { (Instructions.operator s.now at ≡ instr_at s.now result) × ReadableAt s.now result }
{
    let (b, a) = token::read_byte(s, at)?;
    match opcode_form(b) {
        Form::Calling => indirect(s, a, b),
        Form::Operands(what) => {
            let (p, next) = expr::read_plain(s, a, b, what)?;
            Ok((Instr::Plain(p), next))
        }
        Form::NoOpcode => Err(Fault::UnknownByte),
        Form::Opening => Err(Fault::UnknownByte),
        Form::Elsing => Err(Fault::UnknownByte),
        Form::Ending => Err(Fault::UnknownByte),
    }
}

// A folded record that was read before: the byte F0, its operator, and the count of its operands.
#[tactic(auto, using(syntax::proofs::Ways::reads, crate::proofs::Known::folded_operator), unfolding(crate::specs::Bodies::fold_here, definition::specs::Instructions::fold))]
pub fn known_folded(s: &[u8], at: usize) -> Read<(Instr, u32)>
    requires { Gets (fold_here s.now at) }
    ensures { (fold_here s.now at ≡ fold_at s.now result) × ReadableFold s.now result }
{
    let (_, a) = token::read_byte(s, at)?;
    let (i, c) = known_operator(s, a)?;
    let (n, next) = token::up_to(s, c, Fault::TooMany, 16)?;
    Ok(((i, n), next))
}

// Where operands end: they are read and dropped. `expr::pass_plain` is kept for records that are not folded, into whose loop it is taken while it has
// one caller.
#[tactic(auto, using(token::proofs::Skips::passed_over))]
pub fn read_past(s: &[u8], at: usize, what: Operands) -> Pass
    ensures { stops (Instructions.plain_of 0 (operands_is what) s.now at) ≡ skip result }
{
    let (_, next) = expr::read_plain(s, at, 0, what)?;
    Ok(next)
}

// The operator passed over.
#[tactic(auto, using(crate::proofs::Folds::operators))]
fn pass_operator(s: &[u8], at: usize) -> Pass
    ensures { stops (Instructions.operator s.now at) ≡ skip result }
{
    let (b, a) = token::read_byte(s, at)?;
    match opcode_form(b) {
        Form::Calling => {
            let c = token::pass_optional(s, a)?;
            let (_, next) = typeuse::read_type_use(s, c)?;
            Ok(next)
        }
        Form::Operands(what) => read_past(s, a, what),
        Form::NoOpcode => Err(Fault::UnknownByte),
        Form::Opening => Err(Fault::UnknownByte),
        Form::Elsing => Err(Fault::UnknownByte),
        Form::Ending => Err(Fault::UnknownByte),
    }
}

// What stands after F0, passed over: the count of operands, and where they begin.
#[tactic(auto, using(crate::proofs::Folds::counts))]
pub fn pass_fold(s: &[u8], at: usize) -> Read<u32>
    ensures { count_of (Instructions.fold s.now at) ≡ u32_at result }
{
    let a = pass_operator(s, at)?;
    token::up_to(s, a, Fault::TooMany, 16)
}

// Operands that were read before: most of those that can be long are one index or one number.
#[tactic(auto, using(token::proofs::Skips::passed_over, crate::proofs::Known::indices), unfolding(definition::specs::Instructions::plain_of))]
fn skip_plain(s: &[u8], at: usize, what: Operands) -> Pass
    requires { Gets (Instructions.plain_of 0 (operands_is what) s.now at) }
    ensures { stops (Instructions.plain_of 0 (operands_is what) s.now at) ≡ skip result }
{
    match what {
        Operands::Bare => Ok(at),
        Operands::LabelIdx => token::skip_present(s, at),
        Operands::LocalIdx => token::skip_present(s, at),
        Operands::FuncIdx => token::skip_present(s, at),
        Operands::GlobalIdx => token::skip_present(s, at),
        Operands::I32 => token::pass_u32(s, at),
        _ => read_past(s, at, what),
    }
}

// The table and the type of a call_indirect that was read before.
#[tactic(auto, using(token::proofs::Skips::passed_over, crate::proofs::Known::called), unfolding(definition::specs::Instructions::instruction))]
fn skip_indirect(s: &[u8], at: usize, opcode: u8) -> Pass
    requires { Gets (Instructions.instruction opcode Instructions.calling s.now at) }
    ensures { stops (Instructions.instruction opcode Instructions.calling s.now at) ≡ skip result }
{
    let (_, a) = token::known_optional(s, at)?;
    let (_, next) = typeuse::known_type_use(s, a)?;
    Ok(next)
}

// What stands after the opcode of an operator that was read before.
#[tactic(auto, using(crate::proofs::Folds::skipped, crate::proofs::Known::of_operator))]
fn skip_form(s: &[u8], at: usize, opcode: u8, form: Form) -> Pass
    requires { (Instructions.form_of opcode ≡ form_is form) × Gets (Instructions.operator_of opcode (Instructions.form_of opcode) s.now at) }
    ensures { stops (Instructions.operator_of opcode (Instructions.form_of opcode) s.now at) ≡ skip result }
{
    match form {
        Form::Operands(what) => skip_plain(s, at, what),
        Form::Calling => skip_indirect(s, at, opcode),
        _ => Err(Fault::UnknownByte),
    }
}

// A folded record that was read before, passed over: its operator stands after the byte F0, and its operands after their count. The
// operator's opcode and form are handed on, so that they are not looked up again where it is resolved.
#[tactic(auto, using(crate::proofs::Folds::parted))]
pub fn skip_folded(s: &[u8], at: usize) -> Option<Folding>
    requires { Gets (fold_here s.now at) }
    ensures { Parted s.now at result }
{
    let (_, a) = token::read_byte(s, at).ok()?;
    let (opcode, b) = token::read_byte(s, a).ok()?;
    let form = opcode_form(opcode);
    let c = skip_form(s, b, opcode, form).ok()?;
    let (count, next) = token::up_to(s, c, Fault::TooMany, 16).ok()?;
    Some(Folding {
        opcode,
        form,
        at: b,
        count,
        next,
    })
}

// The calls for programs in C or Rust, which crate assembler_c exports; include/barrizuppa.h says their contracts in words.
ghost use Rattle.std.specs.Prelude.{◌≡◌, min};
ghost use Rattle.definition.specs.Assemble.{call_by};
ghost use Rattle.passes.specs.Passes.{makes};
ghost use Rattle.assembler.specs.Export.{ExportsBy, Exports, ExportsNames, ExportsStrict, ExportsStrictNames};

use crate::call;

// How much of an output of this length is lent: the written length has to fit in a word of the answer.
fn room(len: usize) -> usize
    ensures { result ≡ min len 4294967295 }
{
    if len <= 4294967295 { len } else { 4294967295 }
}

// Returns the number. The answer is the number, the record, the written length, and where the name was first used.
fn answered(
    stream: &[u8],
    work: &mut [u32],
    out: &mut [u8],
    answer: &mut [u32; 4],
    strict: bool,
    names: bool,
) -> u32
    ensures { ExportsBy (call_by (makes strict names)) stream.now work.old out.old result answer.new out.new work.new }
{
    let n = room(out.len());
    let said = call(stream, work, &mut out[..n], strict, names);
    let number = said.number as u32;
    let len = said.len as u32;
    *answer = [number, said.rec, len, said.first];
    number
}

// The module.
pub fn barrizuppa_assemble(
    stream: &[u8],
    work: &mut [u32],
    out: &mut [u8],
    answer: &mut [u32; 4],
) -> u32
    ensures { Exports stream.now work.old out.old result answer.new out.new work.new }
{
    answered(stream, work, out, answer, false, false)
}

// The module, and after it its name section.
pub fn barrizuppa_assemble_names(
    stream: &[u8],
    work: &mut [u32],
    out: &mut [u8],
    answer: &mut [u32; 4],
) -> u32
    ensures { ExportsNames stream.now work.old out.old result answer.new out.new work.new }
{
    answered(stream, work, out, answer, false, true)
}

// The module, in a strict call.
pub fn barrizuppa_assemble_strict(
    stream: &[u8],
    work: &mut [u32],
    out: &mut [u8],
    answer: &mut [u32; 4],
) -> u32
    ensures { ExportsStrict stream.now work.old out.old result answer.new out.new work.new }
{
    answered(stream, work, out, answer, true, false)
}

// The module in a strict call, and after it its name section.
pub fn barrizuppa_assemble_strict_names(
    stream: &[u8],
    work: &mut [u32],
    out: &mut [u8],
    answer: &mut [u32; 4],
) -> u32
    ensures { ExportsStrictNames stream.now work.old out.old result answer.new out.new work.new }
{
    answered(stream, work, out, answer, true, true)
}

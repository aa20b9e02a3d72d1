// The assembler's four calls as symbols for C: each is assembler's function of the same name, with its contract.
#![tactic(auto)]

ghost use Rattle.assembler.specs.Export.{Exports, ExportsNames, ExportsStrict, ExportsStrictNames};

use assembler::export;

// The module.
#[unsafe(no_mangle)]
pub extern "C" fn barrizuppa_assemble(
    stream: &[u8],
    work: &mut [u32],
    out: &mut [u8],
    answer: &mut [u32; 4],
) -> u32
    ensures { Exports stream.now work.old out.old result answer.new out.new work.new }
{
    export::barrizuppa_assemble(stream, work, out, answer)
}

// The module, and after it its name section.
#[unsafe(no_mangle)]
pub extern "C" fn barrizuppa_assemble_names(
    stream: &[u8],
    work: &mut [u32],
    out: &mut [u8],
    answer: &mut [u32; 4],
) -> u32
    ensures { ExportsNames stream.now work.old out.old result answer.new out.new work.new }
{
    export::barrizuppa_assemble_names(stream, work, out, answer)
}

// The module, in a strict call.
#[unsafe(no_mangle)]
pub extern "C" fn barrizuppa_assemble_strict(
    stream: &[u8],
    work: &mut [u32],
    out: &mut [u8],
    answer: &mut [u32; 4],
) -> u32
    ensures { ExportsStrict stream.now work.old out.old result answer.new out.new work.new }
{
    export::barrizuppa_assemble_strict(stream, work, out, answer)
}

// The module in a strict call, and after it its name section.
#[unsafe(no_mangle)]
pub extern "C" fn barrizuppa_assemble_strict_names(
    stream: &[u8],
    work: &mut [u32],
    out: &mut [u8],
    answer: &mut [u32; 4],
) -> u32
    ensures { ExportsStrictNames stream.now work.old out.old result answer.new out.new work.new }
{
    export::barrizuppa_assemble_strict_names(stream, work, out, answer)
}

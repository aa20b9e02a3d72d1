// The reading pass as a symbol for C: stream's function of the same name, with its contract.
#![tactic(auto)]

ghost use Rattle.stream.specs.Export.{Told};

use stream::export;

// Returns 0, or the refusal's number. The answer's first word is the same, its second the count of records, or the refusal's
// record. The work area is all zeros.
#[unsafe(no_mangle)]
pub extern "C" fn barrizuppa_read(stream: &[u8], work: &mut [u32], answer: &mut [u32]) -> u32
    ensures { Told stream.now work.old answer.old result work.new answer.new }
{
    export::barrizuppa_read(stream, work, answer)
}

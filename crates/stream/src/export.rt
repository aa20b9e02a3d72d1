// The reading pass for callers in Rust or C; crate stream_c exports it.
ghost use Rattle.std.specs.Prelude.{◌≡◌};
ghost use Rattle.stream.specs.Export.{told_in, Told};

use crate::pass::read_all;

// The answer's two words, where there is room for them.
fn tell(answer: &mut [u32], number: u32, rec: u32)
    ensures { answer.new ≡ told_in answer.old number rec }
{
    if 2 <= answer.len() {
        answer[0] = number;
        answer[1] = rec;
    }
}

// Returns 0, or the refusal's number. The answer's first word is the same, its second the count of records, or the refusal's
// record. The work area is all zeros.
pub fn barrizuppa_read(stream: &[u8], work: &mut [u32], answer: &mut [u32]) -> u32
    ensures { Told stream.now work.old answer.old result work.new answer.new }
{
    let said = read_all(stream, work);
    area::clear(work);
    match said {
        Ok(n) => {
            tell(answer, 0, n);
            0
        }
        Err(r) => {
            let number = u32::from(u8::from(r.fault));
            tell(answer, number, r.rec);
            number
        }
    }
}

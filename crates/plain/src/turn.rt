// What came of one record of a body.
ghost use Rattle.std.specs.Prelude.{◌≡◌, ◌<◌};
ghost use Rattle.plain.specs.Turns.{past, turn_of};

use syntax::{Place, Resolved};

// What came of an instruction: its record ends before `next`, where the place is so deep.
pub fn go_on(
    e: Resolved<usize>,
    p: Place,
    next: usize,
    depth: u32,
) -> Resolved<Option<(usize, Place)>>
    requires { p.rec < 4096 }
    ensures { result ≡ turn_of e (past p next depth) }
{
    let o = e?;
    Ok(Some((
        o,
        Place {
            at: next,
            rec: p.rec + 1,
            depth,
        },
    )))
}

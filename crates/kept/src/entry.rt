// An entry of any kind: its bytes, and how many entries it is.
ghost use Rattle.area.specs.Lent.{At};
ghost use Rattle.kept.specs.Tally.{Ready};
ghost use Rattle.kept.specs.Emit.{EmitsEntry};

use import_export::Ends;
use syntax::{Entry, Resolved};

// A function's code needs the work area for its locals and labels.
pub fn emit_entry(
    s: &[u8],
    work: &mut [u32],
    out: &mut [u8],
    at: usize,
    e: Entry,
    rec: u32,
) -> Resolved<Ends>
    requires { At s.now work.old rec × Ready s.now work.old rec e }
    ensures { EmitsEntry s.now work.old rec e out.old at result work.new out.new }
{
    match e {
        Entry::Code(t, ls, here) => entries::one_end(function::emit_func(
            s, work, out, at, t, ls, here, rec,
        )),
        _ => entries::emit_other(s, work, out, at, e, rec),
    }
}

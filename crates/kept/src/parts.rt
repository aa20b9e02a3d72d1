// The kept bytes: what resolving emits, each section's in a part of its own, so that the writer has only to copy it.
ghost use Rattle.std.specs.Prelude.{◌≡◌};
ghost use Rattle.area.specs.Lent.{At};
ghost use Rattle.kept.specs.Parts.{units_of, start_of};
ghost use Rattle.kept.specs.Tally.{Ready};
ghost use Rattle.kept.specs.Emit.{EmitsKept};

use deinline::section;
use import_export::Ends;
use syntax::{Entry, Resolved};

// How many of the 32 units stand before the part of a section: code and data have most of them.
#[tactic(auto, using(laws::proofs::Exits::exits), unfolding(crate::specs::Parts::units_of))]
fn units_of(k: u8) -> usize
    ensures { result ≡ units_of k }
{
    if k <= section::EXPORT {
        return k as usize;
    }
    if k <= section::CODE {
        return k as usize + 1;
    }
    if k == section::DATA {
        return 18;
    }
    32
}

// Where the part of a section begins, in so many kept bytes.
#[tactic(auto, using(crate::proofs::Keeping::start_fits, crate::proofs::Keeping::start_is))]
pub fn start_of(len: usize, k: u8) -> usize
    ensures { result ≡ start_of len k }
{
    (len / 32) * units_of(k)
}

// An entry, put into its section's part after the bytes that are there.
pub fn emit_kept(
    s: &[u8],
    work: &mut [u32],
    kept: &mut [u8],
    from: usize,
    e: Entry,
    rec: u32,
) -> Resolved<Ends>
    requires { At s.now work.old rec × Ready s.now work.old rec e }
    ensures { EmitsKept s.now work.old rec e kept.old from result work.new kept.new }
{
    let k = deinline::section_of(e);
    let a = start_of(kept.len(), k);
    let b = start_of(kept.len(), k + 1);
    crate::entry::emit_entry(s, work, &mut kept[a..b], from, e, rec)
}

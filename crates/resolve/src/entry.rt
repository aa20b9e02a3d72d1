// An item's entries beside its exports, each resolved, kept and tallied.
ghost use Rattle.area.specs.Lent.{At};
ghost use Rattle.scope.specs.Scope.{scope_in};
ghost use Rattle.deinline.specs.Entry.{both, entry_in, second_of, third_of};
ghost use Rattle.kept.specs.Tally.{Ready, ChecksIn, tallied};

use deinline::Spot;
use kept::Tally;
use syntax::{Entry, Resolved, Source};

// One entry, which may be nothing: it is kept, and tallied.
pub fn check_entry(
    s: &[u8],
    work: &mut [u32],
    kept: &mut [u8],
    tally: &mut Tally,
    e: Entry,
    rec: u32,
) -> Resolved<()>
    requires { At s.now work.old rec × Ready s.now work.old rec e }
    ensures { ChecksIn (entry_in (scope_in s.now work.old) s.now rec e) tally.old work.old kept.old (tallied result tally.new) work.new kept.new }
{
    let k = deinline::section_of(e);
    if k == 0 {
        return Ok(());
    }
    let from = tally.sizes[k as usize] as usize;
    let ends = kept::emit_kept(s, work, kept, from, e, rec)?;
    tally.reach(k, ends.to, ends.count);
    Ok(())
}

// Those of an item that is no function: one entry after the other.
pub fn check_two(
    s: &[u8],
    work: &mut [u32],
    kept: &mut [u8],
    tally: &mut Tally,
    x: Source,
    p: Spot,
) -> Resolved<()>
    requires { At s.now work.old p.rec × Ready s.now work.old p.rec (second_of x p.seen) × Ready s.now work.old p.rec (third_of x p.here) }
    ensures { ChecksIn (both (entry_in (scope_in s.now work.old) s.now p.rec (second_of x p.seen)) (entry_in (scope_in s.now work.old) s.now p.rec (third_of x p.here))) tally.old work.old kept.old (tallied result tally.new) work.new kept.new }
{
    let seen = p.seen;
    let second = deinline::second_of(x, seen);
    check_entry(s, work, kept, tally, second, p.rec)?;
    let third = deinline::third_of(x, p.here);
    check_entry(s, work, kept, tally, third, p.rec)
}

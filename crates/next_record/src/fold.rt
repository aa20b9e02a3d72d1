// Folded records in the reading pass: a folded record and its operands, each of which is a folded record again, nested one deeper.
ghost use Rattle.std.specs.Prelude.{◌≡◌, ◌≤◌};
ghost use Rattle.next_record.specs.Folds.{operands_by, folded_at, fold_of};

use crate::head::{Due, read_head, read_next};
use crate::record::{Does, FaultAt, after_record};
use syntax::{Fault, Place};

// A folded record at `p`, with all its operands: so many may be nested, itself included. `does` is what came before it does. A fault has the
// place of its record.
#[cycle(read_folded_read_operands)]
fn read_folded(s: &[u8], p: Place, left: u32, does: Does) -> Result<(Does, Place), FaultAt>
    requires { left ≤ 32 }
    ensures { fold_of result ≡ folded_at left s.now does p }
{
    let (b, at) = token::read_byte(s, p.at).map_err(|fault| FaultAt { fault, place: p })?;
    if b != 0xF0 {
        return Err(FaultAt {
            fault: Fault::UnknownByte,
            place: p,
        });
    }
    if 4096 <= p.rec || left < 1 {
        return Err(FaultAt {
            fault: Fault::TooMany,
            place: p,
        });
    }
    let ((d, n), next) = read_head(s, at, does).map_err(|fault| FaultAt { fault, place: p })?;
    let q = after_record(p, next, p.depth);
    read_operands(s, q, n, left - 1, d)
}

// So many operands from `p` on, each a folded record again; a folded record that is no operand is a list of one. Their own operands are read
// straight on with them: what is due is kept in the bits of one number, from the lowest on, where a one is an operand and a zero the end of the
// operands of a record, after which one more may be nested.
#[cycle(read_folded_read_operands)]
pub fn read_operands(
    s: &[u8],
    p: Place,
    n: u32,
    nesting: u32,
    does: Does,
) -> Result<(Does, Place), FaultAt>
    requires { (n ≤ 16) × (nesting ≤ 32) }
    ensures { fold_of result ≡ operands_by (folded_at nesting s.now) n does p }
{
    let mut at = p.at;
    let mut rec = p.rec;
    let mut left = nesting;
    let mut due: u64 = (1 << n) - 1;
    let mut d = does;
    while 0 < due {
        // so many records have had all their operands
        let ends = u64::trailing_zeros(due);
        left += ends;
        due = due >> ends;
        let here = Place {
            at,
            rec,
            depth: p.depth,
        };
        match read_next(s, here, left, due, d)? {
            Some(Due { does, count, place }) => {
                // its own operands take its place
                at = place.at;
                rec = place.rec;
                d = does;
                left -= 1;
                due = (due << count) - 1;
            }
            None => {
                let (e, next) = read_folded(s, here, left, d)?;
                at = next.at;
                rec = next.rec;
                d = e;
                left -= 1;
                due -= 1;
            }
        }
    }
    let q = Place {
        at,
        rec,
        depth: p.depth,
    };
    Ok((d, q))
}

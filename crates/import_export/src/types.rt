// Function types: the value types of a signature, after their counts.
ghost use Rattle.std.specs.Prelude.{◌≡◌};
ghost use Rattle.definition.specs.Binary as Binary;
ghost use Rattle.emit.specs.Put.{Put};
ghost use Rattle.syntax.specs.Tokens.{byte_at};
ghost use Rattle.type_table.specs.Table.{typed, types_of, signature_of};

use syntax::{List, Read};
use type_table::Signature;

// A value type, after an identifier or not.
fn read_type(s: &[u8], at: usize, named: bool) -> Read<u8>
    ensures { typed named s.now at ≡ byte_at result }
{
    if named {
        let (l, next) = typeuse::read_local(s, at)?;
        return Ok((l.value, next));
    }
    coretypes::val_type(s, at)
}

// The value types of a list, without their count.
fn put_each_type(s: &[u8], out: &mut [u8], at: usize, named: bool, l: List) -> usize
    ensures { Put out.old at (types_of named s.now l) result out.new }
{
    let mut o = at;
    let mut here = l.at;
    for _ in 0..l.count {
        let Ok((value, next)) = read_type(s, here, named) else {
            return o;
        };
        o = emit::put(out, o, value);
        here = next;
    }
    o
}

fn put_types(s: &[u8], out: &mut [u8], at: usize, named: bool, l: List) -> usize
    ensures { Put out.old at (Binary.vec Binary.byte (types_of named s.now l)) result out.new }
{
    let n = type_table::list::count_types(s, named, l);
    let a = leb::put_u(out, at, n as u64);
    put_each_type(s, out, a, named, l)
}

pub fn put_signature(s: &[u8], out: &mut [u8], at: usize, x: Signature) -> usize
    ensures { Put out.old at (Binary.func_type (signature_of s.now x)) result out.new }
{
    let a = emit::put(out, at, 0x60);
    let b = put_types(s, out, a, x.named, x.params);
    put_types(s, out, b, false, x.results)
}

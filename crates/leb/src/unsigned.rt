// The shortest groups of a number.
ghost use Rattle.std.specs.Prelude.{◌≡◌, length};
ghost use Rattle.definition.specs.Binary as Binary;
ghost use Rattle.emit.specs.Put.{Put};

// How many there are: the significant bits over seven, rounded up, and one group for zero.
pub fn group_count(x: u64) -> usize
    ensures { result ≡ length (Binary.u x) }
{
    if x == 0 {
        return 1;
    }
    let bits = 64 - u64::leading_zeros(x);
    ((bits + 6) / 7) as usize
}

pub fn put_u(out: &mut [u8], at: usize, x: u64) -> usize
    ensures { Put out.old at (Binary.u x) result out.new }
{
    let mut i = at;
    let mut rest = x;
    while 128 <= rest {
        i = emit::put(out, i, (rest % 128 + 128) as u8);
        rest /= 128;
    }
    emit::put(out, i, rest as u8)
}

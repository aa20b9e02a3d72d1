// The shortest signed groups of an integer: as many as leave the last one's high bit the sign.
ghost use Rattle.std.specs.Prelude.{◌≡◌, pos};
ghost use Rattle.definition.specs.Binary as Binary;
ghost use Rattle.emit.specs.Put.{Put};

// The low seven bits.
pub fn low7(x: i64) -> u8
    ensures { result ≡ Binary.low7 x }
{
    (x & 127) as u8
}

// x divided by 128 rounding down. A quotient rounds towards zero, so a negative one is taken of x + 1.
pub fn over128(x: i64) -> i64
    ensures { result ≡ Binary.over128 x }
{
    if x < 0 {
        return (x + 1) / 128 - 1;
    }
    x / 128
}

// Whether one group holds x.
pub fn fits7(x: i64) -> bool
    ensures { result ≡ Binary.fits7 x }
{
    if x < -64 {
        return false;
    }
    x <= 63
}

// The integer that a pattern of 32 bits is in two's complement.
pub fn integer32(x: u32) -> i64
    ensures { result ≡ Binary.integer 32 x }
{
    if x < 2147483648 {
        return x as i64;
    }
    -1 - ((4294967295 - x) as i64)
}

// The same of a pattern of 64 bits.
pub fn integer64(x: u64) -> i64
    ensures { result ≡ Binary.integer 64 x }
{
    if x < 9223372036854775808 {
        return x as i64;
    }
    -1 - ((18446744073709551615 - x) as i64)
}

// An integer.
pub fn put_s(out: &mut [u8], at: usize, x: i64) -> usize
    ensures { Put out.old at (Binary.s x) result out.new }
{
    let mut i = at;
    let mut rest = x;
    while !fits7(rest) {
        i = emit::put(out, i, low7(rest) + 128);
        rest = over128(rest);
    }
    emit::put(out, i, low7(rest))
}

// An i32 constant, by its bits.
pub fn put_i32(out: &mut [u8], at: usize, x: u32) -> usize
    ensures { Put out.old at (Binary.s (Binary.integer 32 x)) result out.new }
{
    put_s(out, at, integer32(x))
}

// An i64 constant, by its bits.
pub fn put_i64(out: &mut [u8], at: usize, x: u64) -> usize
    ensures { Put out.old at (Binary.s (Binary.integer 64 x)) result out.new }
{
    put_s(out, at, integer64(x))
}

// The number of a type in a block type, which is a positive s33.
pub fn put_s33(out: &mut [u8], at: usize, n: u32) -> usize
    ensures { Put out.old at (Binary.s (pos n)) result out.new }
{
    put_s(out, at, n as i64)
}

// Writing bytes. One emitter both measures and writes: what has no room is not stored, and the place moves on all the same.
#![tactic(auto)]

ghost use Rattle.std.specs.Prelude.{◌≡◌, [], ◌∷◌, ◌+◌, ◌-◌, ◌≤◌, min, length, take, drop};
ghost use Rattle.std.proofs.lemmas.List.Edits.{sets};
ghost use Rattle.emit.specs.Put.{Put, past};

// The place `b` bytes after `a`. It saturates at 2^63, where no slice reaches.
pub fn tally(a: usize, b: usize) -> usize
    ensures { result ≡ past a b }
{
    if 9223372036854775808 <= a {
        return a;
    }
    if 9223372036854775808 - a <= b {
        return 9223372036854775808;
    }
    a + b
}

// One byte.
pub fn put(out: &mut [u8], at: usize, b: u8) -> usize
    ensures { Put out.old at (b ∷ []) result out.new }
{
    if at < out.len() {
        out[at] = b;
        return at + 1;
    }
    tally(at, 1)
}

// How many of `n` bytes have room from `at` on, where `len` bytes is all there is.
fn room(len: usize, at: usize, n: usize) -> usize
    ensures { result ≡ min n (len - at) }
{
    if len <= at {
        return 0;
    }
    if len - at < n {
        return len - at;
    }
    n
}

// A whole run of bytes.
pub fn copy(out: &mut [u8], at: usize, from: &[u8]) -> usize
    ensures { Put out.old at from.now result out.new }
{
    let fits = room(out.len(), at, from.len());
    let mut i = 0;
    while i < fits {
        out[at + i] = from[i];
        i += 1;
    }
    tally(at, from.len())
}

// The `n` bytes from `at` on stand `by` places further. The new places may be among the old ones: the last byte goes first.
pub fn move_up(out: &mut [u8], at: usize, n: usize, by: usize)
    requires { at + n + by ≤ length out.old }
    ensures { out.new ≡ sets out.old (at + by) (take n (drop at out.old)) }
{
    let mut left = n;
    while 0 < left {
        let k = left - 1;
        out[at + by + k] = out[at + k];
        left -= 1;
    }
}

// Numbers of the record stream, in their shortest form: one longer than needed is refused.
ghost use Rattle.std.specs.Prelude.{◌≡◌};
ghost use Rattle.definition.specs.Token as Token;
ghost use Rattle.syntax.specs.Numbers.{u32_at, u64_at, end_at};
ghost use Rattle.leb.specs.Width.{Width, limit};

use syntax::{Fault, Read};

// The end of a number: its last group is the first, or not 0.
fn end_of(value: u64, next: usize, scale: u64, b: u8) -> Read<u64>
    ensures { end_at scale b value next ≡ u64_at result }
{
    if scale == 1 {
        return Ok((value, next));
    }
    if b == 0 {
        return Err(Fault::Padded);
    }
    Ok((value, next))
}

// A number of at most `most` groups, the last of which is at most `last`. What the groups before say is below `scale`, so
// only the last of them can pass the width.
fn groups_at(s: &[u8], at: usize, most: usize, last: u8) -> Read<u64>
    requires { Width most last }
    ensures { Token.groups most (limit most last) 1 0 s.now at ≡ u64_at result }
{
    let mut scale: u64 = 1;
    let mut value: u64 = 0;
    let mut here = at;
    for _ in 1..most {
        if s.len() <= here {
            return Err(Fault::Ended);
        }
        let b = s[here];
        value += (b % 128) as u64 * scale;
        here += 1;
        if b < 128 {
            return end_of(value, here, scale, b);
        }
        scale *= 128;
    }
    if s.len() <= here {
        return Err(Fault::Ended);
    }
    let b = s[here];
    if last < b {
        return Err(Fault::TooLarge);
    }
    value += b as u64 * scale;
    end_of(value, here + 1, scale, b)
}

#[tactic(auto, using(crate::proofs::Reading::one_group, crate::proofs::Reading::narrow, syntax::proofs::Ways::reads), unfolding(definition::specs::Token::u32))]
pub fn read_u32(s: &[u8], at: usize) -> Read<u32>
    ensures { Token.u32 s.now at ≡ u32_at result }
{
    // most numbers are one group
    if at < s.len() {
        let b = s[at];
        if b < 128 {
            return Ok((b as u32, at + 1));
        }
    }
    let (value, next) = groups_at(s, at, 5, 15)?;
    Ok((value as u32, next))
}

#[tactic(auto, using(crate::proofs::Reading::one_group), unfolding(definition::specs::Token::u64))]
pub fn read_u64(s: &[u8], at: usize) -> Read<u64>
    ensures { Token.u64 s.now at ≡ u64_at result }
{
    if at < s.len() {
        let b = s[at];
        if b < 128 {
            return Ok((b as u64, at + 1));
        }
    }
    groups_at(s, at, 10, 1)
}

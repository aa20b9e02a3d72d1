// Single bytes, and runs of bytes of a class.
ghost use Rattle.std.specs.Prelude.{◌≡◌};
ghost use Rattle.definition.specs.Reader as Reader;
ghost use Rattle.definition.specs.Token as Token;
ghost use Rattle.laws.specs.Steps.{stops};
ghost use Rattle.syntax.specs.Tokens.{byte_at, skip};

use syntax::{Fault, Pass, Read};

#[tactic(auto, using(laws::proofs::Readers::byte_in, laws::proofs::Readers::byte_out))]
pub fn read_byte(s: &[u8], at: usize) -> Read<u8>
    ensures { Reader.byte s.now at ≡ byte_at result }
{
    if at < s.len() {
        Ok((s[at], at + 1))
    } else {
        Err(Fault::Ended)
    }
}

// The standard's idchar: printable, and none of " ( ) , ; [ ] { } and the space.
#[tactic(auto, using(crate::proofs::Idchars::idchars), unfolding(definition::specs::Token::idchar, definition::specs::Basic::between))]
pub fn is_idchar(b: u8) -> bool
    ensures { result ≡ Token.idchar b }
{
    // small letters and the underscore, as most are
    if 0x5E <= b {
        if b <= 0x7A {
            return true;
        }
    }
    if b <= 0x20 {
        return false;
    }
    if 0x7E < b {
        return false;
    }
    match b {
        b'"' => false,
        b'(' => false,
        b')' => false,
        b',' => false,
        b';' => false,
        b'[' => false,
        b']' => false,
        b'{' => false,
        b'}' => false,
        _ => true,
    }
}

// So many bytes of an identifier.
pub fn pass_idchars(s: &[u8], at: usize, n: u32) -> Pass
    ensures { stops (Reader.many n Token.id_byte s.now at) ≡ skip result }
{
    let mut here = at;
    for _ in 0..n {
        if s.len() <= here {
            return Err(Fault::Ended);
        }
        if !is_idchar(s[here]) {
            return Err(Fault::BadIdentifier);
        }
        here += 1;
    }
    Ok(here)
}

// So many bytes of a string.
pub fn pass_string(s: &[u8], at: usize, n: u32) -> Pass
    ensures { stops (Reader.many n Token.string_byte s.now at) ≡ skip result }
{
    let mut here = at;
    for _ in 0..n {
        if s.len() <= here {
            return Err(Fault::Ended);
        }
        let b = s[here];
        if b < 0x20 {
            return Err(Fault::BadString);
        }
        if 0x7E < b {
            return Err(Fault::BadString);
        }
        here += 1;
    }
    Ok(here)
}

// So many bytes, whatever they are: their end is computed, not walked to.
pub fn pass_bytes(s: &[u8], at: usize, n: u32) -> Pass
    ensures { stops (Reader.many n Reader.byte s.now at) ≡ skip result }
{
    if n == 0 {
        return Ok(at);
    }
    if s.len() <= at {
        return Err(Fault::Ended);
    }
    if s.len() - at < n as usize {
        return Err(Fault::Ended);
    }
    Ok(at + n as usize)
}

// Identifiers, strings and data: parts of the stream.
ghost use Rattle.std.specs.Prelude.{◌≡◌};
ghost use Rattle.definition.specs.Reader as Reader;
ghost use Rattle.definition.specs.Token as Token;
ghost use Rattle.laws.specs.Steps.{stops};
ghost use Rattle.syntax.specs.Numbers.{u32_at};
ghost use Rattle.syntax.specs.Refusals.{number};
ghost use Rattle.syntax.specs.Tokens.{part_of, part_at, id_at, skip};
ghost use Rattle.token.specs.Readers.{name_length};

use syntax::{Fault, Part, Pass, Read};

// The bytes themselves. Where the stream is too short for them, those that are there.
#[tactic(auto, using(crate::proofs::Parts::parts), unfolding(syntax::specs::Tokens::part))]
pub fn bytes_of(s: &[u8], p: Part) -> &[u8]
    ensures { result.now ≡ part_of s.now p }
{
    let at = p.at;
    let len = p.len as usize;
    if s.len() <= at {
        let end = s.len();
        return &s[end..];
    }
    if s.len() - at <= len {
        return &s[at..];
    }
    let end = at + len;
    &s[at..end]
}

// A length or a count that is at most its ceiling.
#[tactic(auto, using(syntax::proofs::Ways::reads, laws::proofs::Ways::ways), unfolding(definition::specs::Token::up_to))]
pub fn up_to(s: &[u8], at: usize, past: Fault, ceiling: u32) -> Read<u32>
    ensures { Token.up_to (number past) ceiling s.now at ≡ u32_at result }
{
    let (n, next) = leb::read_u32(s, at)?;
    if n <= ceiling {
        Ok((n, next))
    } else {
        Err(past)
    }
}

// An identifier; none where its length is 0.
#[tactic(auto, using(syntax::proofs::Ways::reads, crate::proofs::Runs::runs), unfolding(definition::specs::Token::identifier))]
pub fn read_identifier(s: &[u8], at: usize) -> Read<Part>
    ensures { Token.identifier s.now at ≡ id_at s.now result }
{
    let (len, next) = up_to(s, at, Fault::BadIdentifier, 64)?;
    let after = crate::byte::pass_idchars(s, next, len)?;
    Ok((Part { at: next, len }, after))
}

// The length of an identifier that must have at least one byte.
#[tactic(auto, using(syntax::proofs::Ways::reads, laws::proofs::Ways::ways), unfolding(crate::specs::Readers::name_length))]
fn name_length(s: &[u8], at: usize) -> Read<u32>
    ensures { name_length s.now at ≡ u32_at result }
{
    let (len, next) = up_to(s, at, Fault::BadIdentifier, 64)?;
    if len < 1 {
        Err(Fault::BadIdentifier)
    } else {
        Ok((len, next))
    }
}

// An identifier of length at least 1.
#[tactic(auto, using(crate::proofs::Skips::name_by, syntax::proofs::Ways::reads, crate::proofs::Runs::runs))]
pub fn read_name(s: &[u8], at: usize) -> Read<Part>
    ensures { Token.identifier₁ s.now at ≡ part_at s.now result }
{
    let (len, next) = name_length(s, at)?;
    let after = crate::byte::pass_idchars(s, next, len)?;
    Ok((Part { at: next, len }, after))
}

// The two of them, passed over.
#[tactic(auto, using(crate::proofs::Skips::passed_over), unfolding(definition::specs::Token::identifier))]
pub fn pass_identifier(s: &[u8], at: usize) -> Pass
    ensures { stops (Token.identifier s.now at) ≡ skip result }
{
    let (len, next) = up_to(s, at, Fault::BadIdentifier, 64)?;
    crate::byte::pass_idchars(s, next, len)
}

#[tactic(auto, using(crate::proofs::Skips::names_passed))]
pub fn pass_name(s: &[u8], at: usize) -> Pass
    ensures { stops (Token.identifier₁ s.now at) ≡ skip result }
{
    let (len, next) = name_length(s, at)?;
    crate::byte::pass_idchars(s, next, len)
}

#[tactic(auto, using(syntax::proofs::Ways::reads, crate::proofs::Runs::runs), unfolding(definition::specs::Token::string))]
pub fn read_string(s: &[u8], at: usize) -> Read<Part>
    ensures { Token.string s.now at ≡ part_at s.now result }
{
    let (len, next) = up_to(s, at, Fault::BadString, 255)?;
    let after = crate::byte::pass_string(s, next, len)?;
    Ok((Part { at: next, len }, after))
}

// So many raw bytes.
#[tactic(auto, using(syntax::proofs::Ways::reads, crate::proofs::Runs::runs))]
pub fn read_raw(s: &[u8], at: usize, len: u32) -> Read<Part>
    ensures { Reader.many len Reader.byte s.now at ≡ part_at s.now result }
{
    let after = crate::byte::pass_bytes(s, at, len)?;
    Ok((Part { at, len }, after))
}

// A length and that many bytes.
#[tactic(auto, using(syntax::proofs::Ways::reads), unfolding(definition::specs::Token::bytes))]
pub fn read_data(s: &[u8], at: usize) -> Read<Part>
    ensures { Token.bytes s.now at ≡ part_at s.now result }
{
    let (len, next) = leb::read_u32(s, at)?;
    read_raw(s, next, len)
}

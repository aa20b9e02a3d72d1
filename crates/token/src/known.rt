// Readers of what is known to be readable: of a name or a string only the length is looked at. That of a name is at most 64,
// and so it is a byte: a number has one spelling.
ghost use Rattle.std.specs.Prelude.{◌≡◌};
ghost use Rattle.definition.specs.Token as Token;
ghost use Rattle.laws.specs.Steps.{stops};
ghost use Rattle.syntax.specs.Tokens.{part_at, id_at, index_at, skip};
ghost use Rattle.token.specs.Readers.{given};
ghost use Rattle.token.specs.Known.{Gets};

use syntax::{Index, Part, Pass, Read};

// An identifier; none where its length is 0.
#[tactic(auto, using(crate::proofs::Gets::known_names))]
pub fn known_identifier(s: &[u8], at: usize) -> Read<Part>
    requires { Gets (Token.identifier s.now at) }
    ensures { Token.identifier s.now at ≡ id_at s.now result }
{
    let (n, next) = crate::byte::read_byte(s, at)?;
    Ok((
        Part {
            at: next,
            len: n as u32,
        },
        next + n as usize,
    ))
}

// The same, passed over.
#[tactic(auto, using(crate::proofs::Gets::known_names))]
pub fn skip_identifier(s: &[u8], at: usize) -> Pass
    requires { Gets (Token.identifier s.now at) }
    ensures { stops (Token.identifier s.now at) ≡ skip result }
{
    let (n, next) = crate::byte::read_byte(s, at)?;
    Ok(next + n as usize)
}

// An identifier of length at least 1.
#[tactic(auto, using(crate::proofs::Gets::known_names))]
pub fn known_name(s: &[u8], at: usize) -> Read<Part>
    requires { Gets (Token.identifier₁ s.now at) }
    ensures { Token.identifier₁ s.now at ≡ part_at s.now result }
{
    let (n, next) = crate::byte::read_byte(s, at)?;
    Ok((
        Part {
            at: next,
            len: n as u32,
        },
        next + n as usize,
    ))
}

#[tactic(auto, using(crate::proofs::Gets::known_strings))]
pub fn known_string(s: &[u8], at: usize) -> Read<Part>
    requires { Gets (Token.string s.now at) }
    ensures { Token.string s.now at ≡ part_at s.now result }
{
    let (len, next) = leb::read_u32(s, at)?;
    Ok((Part { at: next, len }, next + len as usize))
}

// An index that is present, after the byte that says how it is given.
#[tactic(auto, using(crate::proofs::Gets::known_indices, syntax::proofs::Ways::reads), unfolding(definition::specs::Token::named_index))]
fn known_given(s: &[u8], at: usize, b: u8) -> Read<Index>
    requires { Gets (given b s.now at) }
    ensures { given b s.now at ≡ index_at s.now result }
{
    if b == 1 {
        return crate::index::number_index(s, at);
    }
    let (p, next) = known_name(s, at)?;
    Ok((Index::Named(p), next))
}

// An index that must be present.
#[tactic(auto, using(crate::proofs::Gets::known_indices))]
pub fn known_present(s: &[u8], at: usize) -> Read<Index>
    requires { Gets (Token.present s.now at) }
    ensures { Token.present s.now at ≡ index_at s.now result }
{
    let (b, next) = crate::byte::read_byte(s, at)?;
    known_given(s, next, b)
}

// An index that is marked "optional".
#[tactic(auto, using(crate::proofs::Gets::known_indices))]
pub fn known_optional(s: &[u8], at: usize) -> Read<Index>
    requires { Gets (Token.optional s.now at) }
    ensures { Token.optional s.now at ≡ index_at s.now result }
{
    let (b, next) = crate::byte::read_byte(s, at)?;
    if b == 0 {
        return Ok((Index::Absent, next));
    }
    known_present(s, at)
}

// An index that must be present, passed over.
#[tactic(auto, using(crate::proofs::Gets::skipped_indices))]
pub fn skip_present(s: &[u8], at: usize) -> Pass
    requires { Gets (Token.present s.now at) }
    ensures { stops (Token.present s.now at) ≡ skip result }
{
    let (b, a) = crate::byte::read_byte(s, at)?;
    if b == 1 {
        return crate::index::pass_u32(s, a);
    }
    let (_, next) = known_name(s, a)?;
    Ok(next)
}

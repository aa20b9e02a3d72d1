// Indices: absent, a number, or an identifier.
ghost use Rattle.std.specs.Prelude.{◌≡◌};
ghost use Rattle.definition.specs.Token as Token;
ghost use Rattle.laws.specs.Steps.{stops};
ghost use Rattle.syntax.specs.Tokens.{index_at, skip};
ghost use Rattle.token.specs.Readers.{given};

use syntax::{Fault, Index, Pass, Read};

#[tactic(auto, using(syntax::proofs::Ways::reads), unfolding(definition::specs::Token::number_index))]
pub fn number_index(s: &[u8], at: usize) -> Read<Index>
    ensures { Token.number_index s.now at ≡ index_at s.now result }
{
    let (n, next) = leb::read_u32(s, at)?;
    Ok((Index::Number(n), next))
}

#[tactic(auto, using(syntax::proofs::Ways::reads), unfolding(definition::specs::Token::named_index))]
fn named_index(s: &[u8], at: usize) -> Read<Index>
    ensures { Token.named_index s.now at ≡ index_at s.now result }
{
    let (p, next) = crate::text::read_name(s, at)?;
    Ok((Index::Named(p), next))
}

// An index that is present, after the byte that says how it is given.
#[tactic(auto, using(laws::proofs::Ways::ways), unfolding(crate::specs::Readers::given))]
fn read_given(s: &[u8], at: usize, b: u8) -> Read<Index>
    ensures { given b s.now at ≡ index_at s.now result }
{
    if b == 1 {
        return number_index(s, at);
    }
    if b == 2 {
        return named_index(s, at);
    }
    Err(Fault::UnknownByte)
}

// An index that must be present.
#[tactic(auto, using(syntax::proofs::Ways::reads), unfolding(definition::specs::Token::present, crate::specs::Readers::given))]
pub fn read_present(s: &[u8], at: usize) -> Read<Index>
    ensures { Token.present s.now at ≡ index_at s.now result }
{
    let (b, next) = crate::byte::read_byte(s, at)?;
    read_given(s, next, b)
}

// An index that is marked "optional".
#[tactic(auto, using(syntax::proofs::Ways::reads, laws::proofs::Ways::ways), unfolding(definition::specs::Token::optional, crate::specs::Readers::given))]
pub fn read_optional(s: &[u8], at: usize) -> Read<Index>
    ensures { Token.optional s.now at ≡ index_at s.now result }
{
    let (b, next) = crate::byte::read_byte(s, at)?;
    if b == 0 {
        return Ok((Index::Absent, next));
    }
    read_given(s, next, b)
}

// A number, passed over.
#[tactic(auto, using(crate::proofs::Skips::passed_over))]
pub fn pass_u32(s: &[u8], at: usize) -> Pass
    ensures { stops (Token.u32 s.now at) ≡ skip result }
{
    let (_, next) = leb::read_u32(s, at)?;
    Ok(next)
}

// An index that is present, after the byte that says how it is given.
#[tactic(auto, using(crate::proofs::Skips::passed_over), unfolding(crate::specs::Readers::given, definition::specs::Token::number_index, definition::specs::Token::named_index))]
fn pass_given(s: &[u8], at: usize, b: u8) -> Pass
    ensures { stops (given b s.now at) ≡ skip result }
{
    if b == 1 {
        return pass_u32(s, at);
    }
    if b == 2 {
        return crate::text::pass_name(s, at);
    }
    Err(Fault::UnknownByte)
}

// The two kinds of index, passed over.
#[tactic(auto, using(crate::proofs::Skips::passed_over), unfolding(definition::specs::Token::present, crate::specs::Readers::given))]
pub fn pass_present(s: &[u8], at: usize) -> Pass
    ensures { stops (Token.present s.now at) ≡ skip result }
{
    let (b, next) = crate::byte::read_byte(s, at)?;
    pass_given(s, next, b)
}

#[tactic(auto, using(crate::proofs::Skips::passed_over), unfolding(definition::specs::Token::optional, crate::specs::Readers::given))]
pub fn pass_optional(s: &[u8], at: usize) -> Pass
    ensures { stops (Token.optional s.now at) ≡ skip result }
{
    let (b, next) = crate::byte::read_byte(s, at)?;
    if b == 0 {
        return Ok(next);
    }
    pass_given(s, next, b)
}

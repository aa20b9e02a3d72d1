// Value types, limits, table and global types, as the stream has them.
#![tactic(auto)]

ghost use Rattle.std.specs.Prelude.{◌≡◌};
ghost use Rattle.definition.specs.Token as Token;
ghost use Rattle.syntax.specs.Numbers.{u64_at};
ghost use Rattle.syntax.specs.Tokens.{byte_at};
ghost use Rattle.syntax.specs.CoreTypes.{bool_at, maximum_at, limits_at, table_type_at, global_type_at};

use syntax::{Fault, GlobalType, Limits, Read, TableType};

// 70 funcref or 6F externref.
#[tactic(auto, using(laws::proofs::Exits::ors), unfolding(definition::specs::Token::is_ref))]
fn is_ref(b: u8) -> bool
    ensures { result ≡ Token.is_ref b }
{
    if b == 0x70 {
        return true;
    }
    b == 0x6F
}

// A reference type, or 7F i32, 7E i64, 7D f32, 7C f64.
#[tactic(auto, using(laws::proofs::Exits::ors), unfolding(definition::specs::Token::is_val))]
fn is_val(b: u8) -> bool
    ensures { result ≡ Token.is_val b }
{
    if b < 0x7C {
        return is_ref(b);
    }
    if 0x7F < b {
        return is_ref(b);
    }
    true
}

#[tactic(auto, using(syntax::proofs::Ways::reads, laws::proofs::Ways::ways), unfolding(definition::specs::Token::val_type))]
pub fn val_type(s: &[u8], at: usize) -> Read<u8>
    ensures { Token.val_type s.now at ≡ byte_at result }
{
    let (b, next) = token::read_byte(s, at)?;
    if is_val(b) {
        Ok((b, next))
    } else {
        Err(Fault::UnknownByte)
    }
}

#[tactic(auto, using(syntax::proofs::Ways::reads, laws::proofs::Ways::ways), unfolding(definition::specs::Token::ref_type))]
pub fn ref_type(s: &[u8], at: usize) -> Read<u8>
    ensures { Token.ref_type s.now at ≡ byte_at result }
{
    let (b, next) = token::read_byte(s, at)?;
    if is_ref(b) {
        Ok((b, next))
    } else {
        Err(Fault::UnknownByte)
    }
}

// The byte 0 or 1.
#[tactic(auto, using(syntax::proofs::Ways::reads, laws::proofs::Ways::ways), unfolding(definition::specs::Token::flag))]
fn flag(s: &[u8], at: usize) -> Read<u8>
    ensures { Token.flag s.now at ≡ byte_at result }
{
    let (b, next) = token::read_byte(s, at)?;
    if b <= 1 {
        Ok((b, next))
    } else {
        Err(Fault::UnknownByte)
    }
}

// The byte 0, or 4 for 64-bit.
#[tactic(auto, using(syntax::proofs::Ways::reads, laws::proofs::Ways::ways), unfolding(definition::specs::Token::flag64))]
pub fn flag64(s: &[u8], at: usize) -> Read<bool>
    ensures { Token.flag64 s.now at ≡ bool_at result }
{
    let (b, next) = token::read_byte(s, at)?;
    if b == 0 {
        return Ok((false, next));
    }
    if b == 4 {
        return Ok((true, next));
    }
    Err(Fault::UnknownByte)
}

fn wide(n: u32) -> u64
    ensures { result ≡ n }
{
    n as u64
}

// A minimum or a maximum.
#[tactic(auto, using(syntax::proofs::Ways::reads, laws::proofs::Ways::ways), unfolding(definition::specs::Token::bound))]
fn bound(s: &[u8], at: usize, is64: bool) -> Read<u64>
    ensures { Token.bound is64 s.now at ≡ u64_at result }
{
    if is64 {
        return leb::read_u64(s, at);
    }
    let (n, next) = leb::read_u32(s, at)?;
    Ok((wide(n), next))
}

#[tactic(auto, using(syntax::proofs::Ways::reads, laws::proofs::Ways::ways), unfolding(definition::specs::Token::maximum))]
fn maximum_at(s: &[u8], at: usize, has: bool, is64: bool) -> Read<Option<u64>>
    ensures { Token.maximum has is64 s.now at ≡ maximum_at result }
{
    if has {
        let (n, next) = bound(s, at, is64)?;
        return Ok((Some(n), next));
    }
    Ok((None, at))
}

// Limits, once their first byte is known.
#[tactic(auto, using(syntax::proofs::Ways::reads), unfolding(definition::specs::Token::limits_of))]
fn limits_of(s: &[u8], at: usize, has: bool, is64: bool) -> Read<Limits>
    ensures { Token.limits_of has is64 s.now at ≡ limits_at result }
{
    let (minimum, a) = bound(s, at, is64)?;
    let (maximum, b) = maximum_at(s, a, has, is64)?;
    Ok((
        Limits {
            is64,
            minimum,
            maximum,
        },
        b,
    ))
}

#[tactic(auto, using(syntax::proofs::Ways::reads, laws::proofs::Ways::ways), unfolding(definition::specs::Token::limits))]
pub fn read_limits(s: &[u8], at: usize) -> Read<Limits>
    ensures { Token.limits s.now at ≡ limits_at result }
{
    let (b, next) = token::read_byte(s, at)?;
    if b == 0 {
        return limits_of(s, next, false, false);
    }
    if b == 1 {
        return limits_of(s, next, true, false);
    }
    if b == 4 {
        return limits_of(s, next, false, true);
    }
    if b == 5 {
        return limits_of(s, next, true, true);
    }
    Err(Fault::UnknownByte)
}

#[tactic(auto, using(syntax::proofs::Ways::reads), unfolding(definition::specs::Token::table_type))]
pub fn read_table_type(s: &[u8], at: usize) -> Read<TableType>
    ensures { Token.table_type s.now at ≡ table_type_at result }
{
    let (element, a) = ref_type(s, at)?;
    let (limits, b) = read_limits(s, a)?;
    Ok((TableType { element, limits }, b))
}

#[tactic(auto, using(syntax::proofs::Ways::reads), unfolding(definition::specs::Token::global_type))]
pub fn read_global_type(s: &[u8], at: usize) -> Read<GlobalType>
    ensures { Token.global_type s.now at ≡ global_type_at result }
{
    let (value, a) = val_type(s, at)?;
    let (mutable, b) = flag(s, a)?;
    Ok((GlobalType { value, mutable }, b))
}

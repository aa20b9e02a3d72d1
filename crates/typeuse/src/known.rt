// Lists and type uses that are known to be readable: of their names and strings only the lengths are looked at.
ghost use Rattle.std.specs.Prelude.{◌≡◌};
ghost use Rattle.definition.specs.Reader as Reader;
ghost use Rattle.definition.specs.Token as Token;
ghost use Rattle.laws.specs.Steps.{stops};
ghost use Rattle.token.specs.Known.{Gets};
ghost use Rattle.syntax.specs.Tokens.{skip};
ghost use Rattle.typeuse.specs.Known.{ReadableList, ReadableUse};
ghost use Rattle.syntax.specs.TypeUses.{local_at, list_at, use_at};

use syntax::{List, Local, Pass, Read, TypeUse};

// A parameter or a local.
#[tactic(auto, using(crate::proofs::Gets::known_locals))]
pub fn known_local(s: &[u8], at: usize) -> Read<Local>
    requires { Gets (Token.param s.now at) }
    ensures { Token.param s.now at ≡ local_at s.now result }
{
    let (id, a) = token::known_identifier(s, at)?;
    let (value, b) = token::read_byte(s, a)?;
    Ok((Local { id, value }, b))
}

// So many of them, passed over: after an identifier a type is one byte.
#[tactic(auto, using(crate::proofs::Gets::knows, crate::proofs::Gets::known_locals, token::proofs::Counts::counts))]
fn pass_locals(s: &[u8], at: usize, n: u32) -> Pass
    requires { Gets (Reader.many n Token.param s.now at) }
    ensures { stops (Reader.many n Token.param s.now at) ≡ skip result }
{
    let mut here = at;
    for _ in 0..n {
        let next = token::skip_identifier(s, here)?;
        here = next + 1;
    }
    Ok(here)
}

// So many strings.
#[tactic(auto, using(crate::proofs::Gets::knows, token::proofs::Counts::counts))]
fn pass_strings(s: &[u8], at: usize, n: u32) -> Pass
    requires { Gets (Reader.many n Token.string s.now at) }
    ensures { stops (Reader.many n Token.string s.now at) ≡ skip result }
{
    let mut here = at;
    for _ in 0..n {
        let (_, next) = token::known_string(s, here)?;
        here = next;
    }
    Ok(here)
}

// The parameters of a signature, or a function's locals.
#[tactic(auto, using(crate::proofs::Gets::known_lists, crate::proofs::Lists::lists))]
pub fn known_local_list(s: &[u8], at: usize) -> Read<List>
    requires { Gets (Token.counted 64 Token.param s.now at) }
    ensures { (Token.counted 64 Token.param s.now at ≡ list_at Token.param s.now result) × ReadableList s.now result }
{
    let (count, next) = leb::read_u32(s, at)?;
    let after = pass_locals(s, next, count)?;
    Ok((List { at: next, count }, after))
}

// The results of a signature: each is one byte.
#[tactic(auto, using(crate::proofs::Gets::known_lists))]
pub fn known_type_list(s: &[u8], at: usize) -> Read<List>
    requires { Gets (Token.counted 16 Token.val_type s.now at) }
    ensures { Token.counted 16 Token.val_type s.now at ≡ list_at Token.val_type s.now result }
{
    let (count, next) = leb::read_u32(s, at)?;
    Ok((List { at: next, count }, next + count as usize))
}

// The exports of an item.
#[tactic(auto, using(crate::proofs::Gets::known_lists, crate::proofs::Lists::lists))]
pub fn known_strings(s: &[u8], at: usize) -> Read<List>
    requires { Gets (Token.counted 8 Token.string s.now at) }
    ensures { Token.counted 8 Token.string s.now at ≡ list_at Token.string s.now result }
{
    let (count, next) = leb::read_u32(s, at)?;
    let after = pass_strings(s, next, count)?;
    Ok((List { at: next, count }, after))
}

#[tactic(auto, using(crate::proofs::Gets::known_uses, syntax::proofs::Ways::reads), unfolding(definition::specs::Token::type_use))]
pub fn known_type_use(s: &[u8], at: usize) -> Read<TypeUse>
    requires { Gets (Token.type_use s.now at) }
    ensures { (Token.type_use s.now at ≡ use_at s.now result) × ReadableUse s.now result }
{
    let (index, a) = token::known_optional(s, at)?;
    let (params, b) = known_local_list(s, a)?;
    let (results, c) = known_type_list(s, b)?;
    Ok((
        TypeUse {
            index,
            params,
            results,
        },
        c,
    ))
}

// Counted lists, and type uses. A list is only passed over: its elements are read again where they are needed.
#![tactic(auto)]

pub mod known;

ghost use Rattle.std.specs.Prelude.{◌≡◌};
ghost use Rattle.definition.specs.Reader as Reader;
ghost use Rattle.definition.specs.Token as Token;
ghost use Rattle.laws.specs.Steps.{stops};
ghost use Rattle.syntax.specs.Tokens.{skip};
ghost use Rattle.syntax.specs.TypeUses.{local_at, elem, list_at, use_at};

pub use known::{known_local, known_local_list, known_strings, known_type_list, known_type_use};
use syntax::{Elem, Fault, Index, List, Local, Pass, Read, TypeUse};

#[tactic(auto, using(syntax::proofs::Ways::reads), unfolding(definition::specs::Token::param))]
pub fn read_local(s: &[u8], at: usize) -> Read<Local>
    ensures { Token.param s.now at ≡ local_at s.now result }
{
    let (id, a) = token::read_identifier(s, at)?;
    let (value, b) = coretypes::val_type(s, a)?;
    Ok((Local { id, value }, b))
}

#[tactic(auto, using(crate::proofs::Ways::passed_over))]
fn pass_type(s: &[u8], at: usize) -> Pass
    ensures { stops (Token.val_type s.now at) ≡ skip result }
{
    let (_, next) = coretypes::val_type(s, at)?;
    Ok(next)
}

#[tactic(auto, using(crate::proofs::Ways::passed_over))]
fn pass_local(s: &[u8], at: usize) -> Pass
    ensures { stops (Token.param s.now at) ≡ skip result }
{
    let next = token::pass_identifier(s, at)?;
    pass_type(s, next)
}

#[tactic(auto, using(crate::proofs::Ways::passed_over))]
fn pass_one(s: &[u8], at: usize, what: Elem) -> Pass
    ensures { stops (elem what s.now at) ≡ skip result }
{
    match what {
        Elem::Local => pass_local(s, at),
        Elem::Type => pass_type(s, at),
        Elem::String => {
            let (_, next) = token::read_string(s, at)?;
            Ok(next)
        }
        Elem::Index => token::pass_present(s, at),
    }
}

#[tactic(auto, using(token::proofs::Counts::counts))]
fn pass_many(s: &[u8], at: usize, n: u32, what: Elem) -> Pass
    ensures { stops (Reader.many n (elem what) s.now at) ≡ skip result }
{
    let mut here = at;
    for _ in 0..n {
        here = pass_one(s, here, what)?;
    }
    Ok(here)
}

#[tactic(auto, using(syntax::proofs::Ways::reads, crate::proofs::Lists::lists), unfolding(definition::specs::Token::counted))]
pub fn read_list(s: &[u8], at: usize, ceiling: u32, what: Elem) -> Read<List>
    ensures { Token.counted ceiling (elem what) s.now at ≡ list_at (elem what) s.now result }
{
    let (count, next) = token::up_to(s, at, Fault::TooMany, ceiling)?;
    let after = pass_many(s, next, count, what)?;
    Ok((List { at: next, count }, after))
}

#[tactic(auto, using(syntax::proofs::Ways::reads), unfolding(definition::specs::Token::type_use))]
pub fn read_type_use(s: &[u8], at: usize) -> Read<TypeUse>
    ensures { Token.type_use s.now at ≡ use_at s.now result }
{
    let (index, a) = token::read_optional(s, at)?;
    let (params, b) = read_list(s, a, 64, Elem::Local)?;
    let (results, c) = read_list(s, b, 16, Elem::Type)?;
    Ok((
        TypeUse {
            index,
            params,
            results,
        },
        c,
    ))
}

// Lists of value types in the stream, each type after an identifier or not.
ghost use Rattle.std.specs.Prelude.{◌≡◌, ltb, length};
ghost use Rattle.definition.specs.Basic.{same_bytes};
ghost use Rattle.definition.specs.Types as Types;
ghost use Rattle.syntax.specs.TypeUses.{elements, use_of};
ghost use Rattle.type_table.specs.Known.{Passable, Rest};
ghost use Rattle.type_table.specs.Table.{typed, types_next, types_of, both_next, Left, KnownBoth};

use syntax::{List, TypeUse};

// The next of the types that are left; the list ends where none is read.
pub fn next_type(s: &[u8], at: usize, left: u32, named: bool) -> Option<(u8, usize)>
    ensures { elements (typed named) s.now at left ≡ types_next named left s.now result }
{
    if left == 0 {
        return None;
    }
    if named {
        return match typeuse::read_local(s, at) {
            Ok((l, next)) => Some((l.value, next)),
            Err(_) => None,
        };
    }
    match coretypes::val_type(s, at) {
        Ok((value, next)) => Some((value, next)),
        Err(_) => None,
    }
}

// The same of types that are known to be readable: an identifier was checked, and is passed by its length.
pub fn known_type(s: &[u8], at: usize, left: u32, named: bool) -> Option<(u8, usize)>
    requires { Passable named s.now at left }
    ensures { (elements (typed named) s.now at left ≡ types_next named left s.now result) × Rest named left s.now result }
{
    if left == 0 {
        return None;
    }
    if named {
        return match typeuse::known_local(s, at) {
            Ok((l, next)) => Some((l.value, next)),
            Err(_) => None,
        };
    }
    next_type(s, at, left, named)
}

// What is left of two lists after their next types, where these are the same.
#[derive(Clone, Copy)]
pub enum NextBoth {
    Same(List, List),
    Differ,
    End,
}

// Two lists, one type further in step, by the next type of each.
fn step(a: List, m: Option<(u8, usize)>, b: List, n: Option<(u8, usize)>) -> NextBoth
    requires { Left a m × Left b n }
    ensures { result ≡ both_next a m b n }
{
    match m {
        Some((x, p)) => match n {
            Some((y, q)) => {
                if x != y {
                    return NextBoth::Differ;
                }
                let first = List {
                    at: p,
                    count: a.count - 1,
                };
                let second = List {
                    at: q,
                    count: b.count - 1,
                };
                NextBoth::Same(first, second)
            }
            None => NextBoth::Differ,
        },
        None => match n {
            Some((_, _)) => NextBoth::Differ,
            None => NextBoth::End,
        },
    }
}

// The same of two lists that are known to be readable.
pub fn next_both(s: &[u8], named: bool, a: List, other: bool, b: List) -> NextBoth
    requires { Passable named s.now a.at a.count × Passable other s.now b.at b.count }
    ensures { KnownBoth s.now named a other b result }
{
    let m = known_type(s, a.at, a.count, named);
    let n = known_type(s, b.at, b.count, other);
    step(a, m, b, n)
}

// Equal lists: walked in step, and left at the first difference.
pub fn same_list(s: &[u8], named: bool, a: List, other: bool, b: List) -> bool
    ensures { result ≡ same_bytes (types_of named s.now a) (types_of other s.now b) }
{
    let mut x = a;
    let mut y = b;
    loop {
        let m = next_type(s, x.at, x.count, named);
        let n = next_type(s, y.at, y.count, other);
        match step(x, m, y, n) {
            NextBoth::Same(p, q) => {
                x = p;
                y = q;
            }
            NextBoth::Differ => {
                return false;
            }
            NextBoth::End => {
                return true;
            }
        }
    }
}

// How many value types a list has.
pub fn count_types(s: &[u8], named: bool, l: List) -> u32
    ensures { result ≡ length (types_of named s.now l) }
{
    let mut at = l.at;
    let mut left = l.count;
    let mut n: u32 = 0;
    loop {
        match next_type(s, at, left, named) {
            Some((_, next)) => {
                at = next;
                left -= 1;
                n += 1;
            }
            None => {
                return n;
            }
        }
    }
}

// Does a list have any value type?
fn any_type(s: &[u8], named: bool, l: List) -> bool
    ensures { result ≡ ltb 0 (length (types_of named s.now l)) }
{
    match next_type(s, l.at, l.count, named) {
        Some((_, _)) => true,
        None => false,
    }
}

// A block of this type use has a short form: no parameters, and at most one result.
pub fn is_short(s: &[u8], t: TypeUse) -> bool
    ensures { result ≡ Types.is_short (use_of s.now t) }
{
    if any_type(s, true, t.params) {
        return false;
    }
    count_types(s, false, t.results) <= 1
}

// A type use has any parameter or result.
pub fn is_inline(s: &[u8], t: TypeUse) -> bool
    ensures { result ≡ Types.is_inline (use_of s.now t) }
{
    if any_type(s, true, t.params) {
        return true;
    }
    any_type(s, false, t.results)
}

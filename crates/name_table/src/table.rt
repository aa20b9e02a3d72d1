// Names in a table: a name's place among them is its number.
ghost use Rattle.std.specs.Prelude.{◌≡◌, ◌+◌, ◌*◌, ◌≤◌, length};
ghost use Rattle.area.specs.Flags.{strict_in};
ghost use Rattle.definition.specs.Basic.{same_bytes};
ghost use Rattle.definition.specs.Names as Names;
ghost use Rattle.syntax.specs.Tokens.{id_of, index_of};
ghost use Rattle.name_table.specs.Area.{names, found, resolved};

use syntax::{Fault, Index, Part, Resolved};

// The first of count entries from base on that carries the name.
pub fn find_name(s: &[u8], work: &[u32], base: usize, count: usize, name: &[u8]) -> Option<usize>
    requires { base + 3 * count ≤ length work.now }
    ensures { Names.find same_bytes name.now (names count s.now work.now base) ≡ found result }
{
    let tag = crate::name::tag_of(name);
    let mut k = 0;
    let mut at = base;
    while k < count {
        if crate::name::carries(s, work, at, tag, name) {
            return Some(k);
        }
        k += 1;
        at += 3;
    }
    None
}

// Is an identifier among count names already?
pub fn is_taken(s: &[u8], work: &[u32], base: usize, count: usize, id: Part) -> bool
    requires { base + 3 * count ≤ length work.now }
    ensures { result ≡ Names.taken same_bytes (id_of s.now id) (names count s.now work.now base) }
{
    if id.len == 0 {
        return false;
    }
    let name = token::bytes_of(s, id);
    match find_name(s, work, base, count, name) {
        Some(_) => true,
        None => false,
    }
}

// A number as an index says it. In a strict call it must be below the limit.
pub fn below(work: &[u32], limit: u32, n: u32, rec: u32) -> Resolved<u32>
    ensures { Names.below (strict_in work.now) limit rec n ≡ resolved result }
{
    if limit <= n {
        if area::flag(work, area::STRICT) {
            return Err(syntax::refusal_at(Fault::PointsNowhere, rec));
        }
    }
    Ok(n)
}

// An index space: where its names begin and how many there are, and how many items it has.
#[derive(Clone, Copy)]
pub struct Table {
    pub base: usize,
    pub count: usize,
    pub limit: u32,
}

// The number that an index means in a space.
pub fn number_in(s: &[u8], work: &[u32], t: Table, x: Index, rec: u32) -> Resolved<u32>
    requires { (t.base + 3 * t.count ≤ length work.now) × (t.count ≤ 256) }
    ensures { Names.number_in (strict_in work.now) same_bytes (names t.count s.now work.now t.base) t.limit rec (index_of s.now x) ≡ resolved result }
{
    match x {
        Index::Absent => below(work, t.limit, 0, rec),
        Index::Number(n) => below(work, t.limit, n, rec),
        Index::Named(p) => {
            let name = token::bytes_of(s, p);
            match find_name(s, work, t.base, t.count, name) {
                Some(k) => Ok(k as u32),
                None => Err(syntax::refusal_at(Fault::NoSuchName, rec)),
            }
        }
    }
}

// Name maps: numbers with their names, in the order of the numbers.
ghost use Rattle.std.specs.Prelude.{◌≡◌, [], ◌∷◌, ◌+◌, ◌≤◌, ◌<◌, length};
ghost use Rattle.area.specs.Layout.{WORDS};
ghost use Rattle.definition.specs.Syntax.{funcs};
ghost use Rattle.syntax.specs.Tokens.{id_of};
ghost use Rattle.name_table.specs.Area.{entry};
ghost use Rattle.name_table.specs.Tables.{table_of};
ghost use Rattle.frames.specs.Locals.{ids_of};
ghost use Rattle.name_maps.specs.Maps.{Few, Names, first};

use syntax::{List, Part, Space};

// Where the next entry of a map goes, the number of the next place, and how many entries came before.
#[derive(Clone, Copy)]
pub struct Reached {
    pub at: usize,
    pub number: u64,
    pub count: u64,
}

// A map begins, with the place of this number.
pub fn begin(at: usize, number: u64) -> Reached
    ensures { result ≡ first at number }
{
    Reached {
        at,
        number,
        count: 0,
    }
}

// One place more. It is an entry where it carries an identifier.
fn put_next(s: &[u8], out: &mut [u8], x: Reached, id: Part) -> Reached
    requires { Few 8589934592 x }
    ensures { Names (id_of s.now id ∷ []) x out.old result out.new }
{
    let number = x.number + 1;
    if id.len == 0 {
        return Reached {
            at: x.at,
            number,
            count: x.count,
        };
    }
    let a = leb::put_u(out, x.at, x.number);
    let at = binary::names::put_name(s, out, a, id);
    Reached {
        at,
        number,
        count: x.count + 1,
    }
}

// The identifier of an entry of the work area. Words whose third is not the tag say none.
fn entry_at(s: &[u8], work: &[u32], place: usize) -> Part
    requires { place + 2 < length work.now }
    ensures { id_of s.now result ≡ entry s.now work.now place }
{
    let at = area::word(work, place);
    let len = area::word(work, place + 1);
    let tag = area::word(work, place + 2);
    let id = Part {
        at: at as usize,
        len,
    };
    if name_table::tag_of(token::bytes_of(s, id)) == tag {
        return id;
    }
    Part { at: 0, len: 0 }
}

// The place of a function, whose entry stands there in the work area.
fn put_place(s: &[u8], work: &[u32], out: &mut [u8], x: Reached, place: usize) -> Reached
    requires { (place + 2 < length work.now) × Few 8589934592 x }
    ensures { Names (entry s.now work.now place ∷ []) x out.old result out.new }
{
    let id = entry_at(s, work, place);
    put_next(s, out, x, id)
}

// The names of all functions.
pub fn put_functions(s: &[u8], work: &[u32], out: &mut [u8], at: usize) -> Reached
    requires { WORDS ≤ length work.now }
    ensures { Names (table_of funcs s.now work.now) (first at 0) out.old result out.new }
{
    let n = name_table::name_count(work, Space::Funcs);
    let mut place = name_table::table_base(Space::Funcs);
    let mut x = begin(at, 0);
    for _ in 0..n {
        x = put_place(s, work, out, x, place);
        place += 3;
    }
    x
}

// The names of a list of parameters or locals.
pub fn put_list(s: &[u8], out: &mut [u8], from: Reached, l: List) -> Reached
    requires { Few 4294967296 from }
    ensures { Names (ids_of s.now l) from out.old result out.new }
{
    let n = l.count;
    let mut at = l.at;
    let mut x = from;
    for _ in 0..n {
        match typeuse::read_local(s, at) {
            Ok((p, next)) => {
                x = put_next(s, out, x, p.id);
                at = next;
            }
            Err(_) => {
                return x;
            }
        }
    }
    x
}

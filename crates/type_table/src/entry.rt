// One type of the table.
ghost use Rattle.std.specs.Prelude.{◌≡◌, true, false, ◌+◌, ◌≤◌, ◌<◌, length, set};
ghost use Rattle.area.specs.Layout.{BYTES};
ghost use Rattle.definition.specs.Types as Types;
ghost use Rattle.type_table.specs.Table.{of_use, signature_of, list_in, entry_in, list_words, type_words, flag_of};

use crate::list::same_list;
use syntax::{List, TypeUse};

// Where the two lists of a type stand in the stream, and whether identifiers stand before the parameters.
#[derive(Clone, Copy)]
pub struct Signature {
    pub named: bool,
    pub params: List,
    pub results: List,
}

// The signature of a use: identifiers stand before its parameters.
pub fn of_use(t: TypeUse) -> Signature
    ensures { result ≡ of_use t }
{
    let params = t.params;
    let results = t.results;
    Signature {
        named: true,
        params,
        results,
    }
}

// Equal signatures.
pub fn same_type(s: &[u8], x: Signature, y: Signature) -> bool
    ensures { result ≡ Types.same_type (signature_of s.now x) (signature_of s.now y) }
{
    if same_list(s, x.named, x.params, y.named, y.params) {
        return same_list(s, false, x.results, false, y.results);
    }
    false
}

// A word of the work area as a place.
fn wide(x: u32) -> usize
    ensures { result ≡ x }
{
    x as usize
}

// The list whose place and count are two words of the work area.
fn list_at(work: &[u32], at: usize) -> List
    requires { at + 1 < length work.now }
    ensures { result ≡ list_in work.now at }
{
    List {
        at: wide(work[at]),
        count: work[at + 1],
    }
}

// The entry at a place of the work area.
pub fn type_at(work: &[u32], at: usize) -> Signature
    requires { at + 4 < length work.now }
    ensures { result ≡ entry_in work.now at }
{
    let named = work[at] == 1;
    let params = list_at(work, at + 1);
    let results = list_at(work, at + 3);
    Signature {
        named,
        params,
        results,
    }
}

// A list is written: its place and its count.
fn put_list(s: &[u8], work: &mut [u32], at: usize, l: List)
    requires { (length s.now ≤ BYTES) × (at + 1 < length work.old) }
    ensures { work.new ≡ list_words s.now work.old at l }
{
    let place = name_table::place_in(s, l.at);
    work[at] = place;
    work[at + 1] = l.count;
}

// 1 or 0.
fn flag(named: bool) -> u32
    ensures { result ≡ flag_of named }
{
    if named {
        return 1;
    }
    0
}

// Whether identifiers stand before the parameters is written.
fn put_flag(work: &mut [u32], at: usize, named: bool)
    requires { at < length work.old }
    ensures { work.new ≡ set work.old at (flag_of named) }
{
    work[at] = flag(named);
}

// An entry is written.
pub fn put_type(s: &[u8], work: &mut [u32], at: usize, x: Signature)
    requires { (length s.now ≤ BYTES) × (at + 4 < length work.old) }
    ensures { work.new ≡ type_words s.now work.old at x }
{
    put_flag(work, at, x.named);
    put_list(s, work, at + 1, x.params);
    put_list(s, work, at + 3, x.results);
}

// The table of types: 256 at most, from `TYPES` on; the word `TOTAL` says how many.
ghost use Rattle.std.specs.Prelude.{◌≡◌, ◌+◌, ◌*◌, ◌≤◌, ◌<◌, min, length, get_or};
ghost use Rattle.area.specs.Layout.{BYTES, TOTAL, TYPES, USES, WORDS};
ghost use Rattle.definition.specs.Basic as Basic;
ghost use Rattle.definition.specs.Types as Types;
ghost use Rattle.definition.specs.Names as Names;
ghost use Rattle.syntax.specs.TypeUses.{use_of};
ghost use Rattle.typeuse.specs.Known.{Readable};
ghost use Rattle.type_table.specs.Hash.{hash_of};
ghost use Rattle.type_table.specs.Known.{ReadableSignature};
ghost use Rattle.type_table.specs.Table.{of_use, signature_of, type_table, types_in, number_of, agreeing, type_words, bare_words, Indexed, Fresh, Again, Adds, Interns};

use crate::entry::{Signature, of_use, put_type, same_type, type_at};
use crate::index::{
    Hashed, branch_place, has_hash, hash_of, head_place, link_at, put_branches, put_hash, put_link,
};
use crate::list::{NextBoth, next_both, same_list};
use crate::size::put_size;
use syntax::{Fault, Resolved, TypeUse};

// The first of count types that is equal to a signature with this hash: each on the hash's way that has the hash is walked in step with
// the signature, over the parameters and then over the results, and left at the first difference.
pub fn find_type(s: &[u8], work: &[u32], count: u32, x: Signature, h: u64) -> Option<u32>
    requires { (USES ≤ length work.now) × Indexed s.now work.now count × ReadableSignature s.now x × (h ≡ hash_of (signature_of s.now x)) }
    ensures { Types.type_at (signature_of s.now x) (type_table count s.now work.now TYPES) ≡ number_of result }
{
    let mut place = head_place(h);
    let mut bits = h;
    'types: loop {
        let link = link_at(work, place);
        if link == 0 {
            return None;
        }
        let this = link - 1;
        place = branch_place(this, bits);
        bits = bits / 2;
        if !has_hash(work, this, h) {
            continue 'types;
        }
        let y = type_at(work, area::TYPES + 5 * (this as usize));
        let mut a = x.params;
        let mut b = y.params;
        loop {
            match next_both(s, x.named, a, y.named, b) {
                NextBoth::Same(p, q) => {
                    a = p;
                    b = q;
                }
                NextBoth::Differ => {
                    continue 'types;
                }
                NextBoth::End => {
                    if same_list(s, false, x.results, false, y.results) {
                        return Some(this);
                    }
                    continue 'types;
                }
            }
        }
    }
}

// A signature's words after those of count types, and nothing on its branches.
fn put_entry(s: &[u8], work: &mut [u32], count: u32, x: Signature)
    requires { (length s.now ≤ BYTES) × (count < 256) × (USES ≤ length work.old) }
    ensures { work.new ≡ bare_words (type_words s.now work.old (TYPES + 5 * count) x) count }
{
    let at = area::TYPES + 5 * (count as usize);
    put_type(s, work, at, x);
    put_branches(work, count);
}

// A signature that is equal to none is added at the end, and to the index.
fn add_type(s: &[u8], work: &mut [u32], count: u32, x: Signature, h: Hashed)
    requires { (length s.now ≤ BYTES) × (count < 256) × (USES ≤ length work.old) × Fresh s.now work.old count x h }
    ensures { Adds s.now work.old count x work.new }
{
    put_size(work, count, h);
    put_entry(s, work, count, x);
    put_hash(work, count, h.hash);
    put_link(work, count, h.hash);
}

// One that is equal to an earlier one is not put into the index.
fn add_again(s: &[u8], work: &mut [u32], count: u32, x: Signature, h: Hashed)
    requires { (length s.now ≤ BYTES) × (count < 256) × (USES ≤ length work.old) × Again s.now work.old count x h }
    ensures { Adds s.now work.old count x work.new }
{
    put_size(work, count, h);
    put_entry(s, work, count, x);
}

// A declared type stands at the end.
pub fn declare_type(s: &[u8], work: &mut [u32], count: u32, x: Signature)
    requires { (length s.now ≤ BYTES) × (count < 256) × (USES ≤ length work.old) × Indexed s.now work.old count × ReadableSignature s.now x }
    ensures { Adds s.now work.old count x work.new }
{
    let h = hash_of(s, x);
    match find_type(s, work, count, x, h.hash) {
        Some(_) => add_again(s, work, count, x, h),
        None => add_type(s, work, count, x, h),
    }
}

// A use that no type is equal to adds one at the end.
fn add_use(
    s: &[u8],
    work: &mut [u32],
    count: u32,
    t: TypeUse,
    h: Hashed,
    rec: u32,
) -> Resolved<(u32, u32)>
    requires { (length s.now ≤ BYTES) × (USES ≤ length work.old) × Fresh s.now work.old count (of_use t) h }
    ensures { Interns s.now work.old count t rec result work.new }
{
    if 256 <= count {
        return Err(syntax::refusal_at(Fault::TooManyTypes, rec));
    }
    add_type(s, work, count, of_use(t), h);
    Ok((count, count + 1))
}

// A use takes the first equal signature, or adds one at the end.
pub fn intern_use(
    s: &[u8],
    work: &mut [u32],
    count: u32,
    t: TypeUse,
    rec: u32,
) -> Resolved<(u32, u32)>
    requires { (length s.now ≤ BYTES) × (USES ≤ length work.old) × Indexed s.now work.old count × Readable s.now t.params }
    ensures { Interns s.now work.old count t rec result work.new }
{
    let x = of_use(t);
    let h = hash_of(s, x);
    match find_type(s, work, count, x, h.hash) {
        Some(n) => Ok((n, count)),
        None => add_use(s, work, count, t, h, rec),
    }
}

// How many types there are: 256 at most, whatever the word says.
pub fn total(work: &[u32]) -> u32
    requires { WORDS ≤ length work.now }
    ensures { result ≡ min (get_or work.now TOTAL 0) 256 }
{
    let n = work[area::TOTAL];
    if n < 256 {
        return n;
    }
    256
}

// How many parameters a type has; none where there is no such type.
pub fn param_count(s: &[u8], work: &[u32], n: u32) -> u32
    requires { WORDS ≤ length work.now }
    ensures { result ≡ Names.param_count (Basic.at (types_in s.now work.now) n) }
{
    if total(work) <= n {
        return 0;
    }
    let x = type_at(work, area::TYPES + 5 * (n as usize));
    crate::list::count_types(s, x.named, x.params)
}

#[derive(Clone, Copy)]
pub enum Agreement {
    Same,
    Differs,
    NoType,
}

// Is a type the one that a use says?
pub fn agrees(s: &[u8], work: &[u32], n: u32, t: TypeUse) -> Agreement
    requires { WORDS ≤ length work.now }
    ensures { result ≡ agreeing (Types.signature (use_of s.now t)) (Basic.at (types_in s.now work.now) n) }
{
    if total(work) <= n {
        return Agreement::NoType;
    }
    let x = of_use(t);
    let y = type_at(work, area::TYPES + 5 * (n as usize));
    if same_type(s, x, y) {
        return Agreement::Same;
    }
    Agreement::Differs
}

// The bytes of the module. `t` is the tally of the entries of all sections but the first, whose size stands beside the types.
ghost use Rattle.std.specs.Prelude.{◌≡◌, ◌∷◌, ◌-◌, ◌≤◌, ◌<◌, length, get_or};
ghost use Rattle.area.specs.Flags.{data_named_in};
ghost use Rattle.definition.specs.Binary as Binary;
ghost use Rattle.emit.specs.Put.{Put, past};
ghost use Rattle.kept.specs.Sections.{DATAS, SECTIONS};
ghost use Rattle.kept.specs.Tally.{tallies, no_tally};
ghost use Rattle.module.specs.Length.{Supplied, sections_from, count_section, all_sections, type_section};
ghost use Rattle.sections.specs.Write.{Writes, Writable, Held, Counts, all_entries, module_items};

use crate::length::content_len;
use deinline::section;
use kept::Tally;
use sections::{emit_fields, put_types};

// The magic and the version.
fn put_preamble(out: &mut [u8], at: usize) -> usize
    ensures { Put out.old at Binary.preamble result out.new }
{
    emit::copy(out, at, b"\0asm\x01\0\0\0")
}

// All entries of a section, `size` bytes, resolved once more.
fn put_again(k: u8, size: usize, s: &[u8], work: &mut [u32], out: &mut [u8], at: usize) -> usize
    requires { Writable s.now work.old × (size ≡ past 0 (length (Binary.joined (Binary.in_section k (all_entries s.now work.old))))) }
    ensures { Writes (Binary.joined (Binary.in_section k (all_entries s.now work.old))) out.old at result out.new work.old work.new }
{
    emit_fields(s, work, out, at, k, emit::tally(at, size))
}

// All entries of a section, `size` bytes: those that were kept, if all of them had room in their part.
fn put_entries(
    k: u8,
    size: usize,
    kept: &[u8],
    s: &[u8],
    work: &mut [u32],
    out: &mut [u8],
    at: usize,
) -> usize
    requires { (k < SECTIONS) × Writable s.now work.old × Held kept.now (all_entries s.now work.old) × (size ≡ past 0 (length (Binary.joined (Binary.in_section k (all_entries s.now work.old))))) }
    ensures { Writes (Binary.joined (Binary.in_section k (all_entries s.now work.old))) out.old at result out.new work.old work.new }
{
    let a = kept::start_of(kept.len(), k);
    let b = kept::start_of(kept.len(), k + 1);
    if size <= b - a {
        return emit::copy(out, at, &kept[a..a + size]);
    }
    put_again(k, size, s, work, out, at)
}

// The start section holds no count.
fn put_content(
    k: u8,
    size: usize,
    count: u64,
    kept: &[u8],
    s: &[u8],
    work: &mut [u32],
    out: &mut [u8],
    at: usize,
) -> usize
    requires { (k < SECTIONS) × Writable s.now work.old × Held kept.now (all_entries s.now work.old) × (size ≡ past 0 (length (Binary.joined (Binary.in_section k (all_entries s.now work.old))))) × Counts count k (all_entries s.now work.old) }
    ensures { Writes (Binary.content k (Binary.in_section k (all_entries s.now work.old))) out.old at result out.new work.old work.new }
{
    if k == section::START {
        return put_entries(k, size, kept, s, work, out, at);
    }
    let a = leb::put_u(out, at, count);
    put_entries(k, size, kept, s, work, out, a)
}

// A section's number and the length of its content.
pub fn put_head(k: u8, n: usize, out: &mut [u8], at: usize) -> usize
    ensures { Put out.old at (k ∷ Binary.u n) result out.new }
{
    let a = emit::put(out, at, k);
    leb::put_u(out, a, n as u64)
}

// An empty section is omitted.
fn put_section(
    k: u8,
    t: Tally,
    kept: &[u8],
    s: &[u8],
    work: &mut [u32],
    out: &mut [u8],
    at: usize,
) -> usize
    requires { (k < SECTIONS) × Supplied t kept.now s.now work.old }
    ensures { Writes (Binary.section (all_entries s.now work.old) k) out.old at result out.new work.old work.new }
{
    let i = k as usize;
    let sizes = t.sizes;
    let counts = t.counts;
    let count = counts[i];
    if count == 0 {
        return at;
    }
    let size = sizes[i] as usize;
    let n = content_len(k, size, count);
    let a = put_head(k, n, out, at);
    put_content(k, size, count, kept, s, work, out, a)
}

// The section of types: the size beside them, how many there are, and the types. Without types it is omitted.
fn put_type_section(s: &[u8], work: &[u32], out: &mut [u8], at: usize) -> usize
    requires { Writable s.now work.now }
    ensures { Put out.old at (type_section s.now work.now) result out.new }
{
    let size = area::word(work, area::SIZE) as usize;
    if size == 0 {
        return at;
    }
    let a = put_head(section::TYPE, size, out, at);
    let b = leb::put_u(out, a, type_table::total(work) as u64);
    put_types(s, work, out, b)
}

// The sections from one to before another.
fn put_sections(
    from: u8,
    to: u8,
    t: Tally,
    kept: &[u8],
    s: &[u8],
    work: &mut [u32],
    out: &mut [u8],
    at: usize,
) -> usize
    requires { (to ≤ SECTIONS) × Supplied t kept.now s.now work.old }
    ensures { Writes (sections_from (to - from) from (all_entries s.now work.old)) out.old at result out.new work.old work.new }
{
    let mut o = at;
    for k in from..to {
        o = put_section(k, t, kept, s, work, out, o);
    }
    o
}

// The data count section, where a data segment is named: how many there are.
fn put_count(t: Tally, work: &[u32], out: &mut [u8], at: usize) -> usize
    ensures { Put out.old at (count_section (data_named_in work.now) (get_or t.counts DATAS 0)) result out.new }
{
    if area::flag(work, area::DATA_NAMED) {
        let counts = t.counts;
        let n = counts[section::DATA as usize];
        let a = put_head(section::DATA_COUNT, leb::group_count(n), out, at);
        return leb::put_u(out, a, n);
    }
    at
}

// The sections after that of types: the data count stands before code and data.
fn put_all(t: Tally, kept: &[u8], s: &[u8], work: &mut [u32], out: &mut [u8], at: usize) -> usize
    requires { Supplied t kept.now s.now work.old }
    ensures { Writes (all_sections (data_named_in work.old) (all_entries s.now work.old)) out.old at result out.new work.old work.new }
{
    let a = put_sections(section::IMPORT, section::CODE, t, kept, s, work, out, at);
    let b = put_count(t, work, out, a);
    put_sections(section::CODE, section::DATA_COUNT, t, kept, s, work, out, b)
}

// The module, from the first byte on.
pub fn put_module(t: Tally, kept: &[u8], s: &[u8], work: &mut [u32], out: &mut [u8]) -> usize
    requires { Writable s.now work.old × Held kept.now (all_entries s.now work.old) × (t ≡ tallies no_tally (all_entries s.now work.old)) }
    ensures { Writes (Binary.module' (module_items s.now work.old)) out.old 0 result out.new work.old work.new }
{
    let a = put_preamble(out, 0);
    let b = put_type_section(s, work, out, a);
    put_all(t, kept, s, work, out, b)
}

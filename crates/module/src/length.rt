// How long the module is, by the size beside the types and by the tally of the other sections' entries. Lengths saturate, as places do.
ghost use Rattle.std.specs.Prelude.{◌≡◌, ◌-◌, ◌≤◌, ◌<◌, get_or};
ghost use Rattle.area.specs.Flags.{data_named_in};
ghost use Rattle.area.specs.Layout.{SIZE};
ghost use Rattle.module.specs.Length.{content_len, sized_len, section_len, types_len, lens_from, count_len, module_len};
ghost use Rattle.kept.specs.Sections.{SECTIONS};

use deinline::section;
use kept::Tally;

// The start section holds no count.
pub fn content_len(k: u8, size: usize, count: u64) -> usize
    ensures { result ≡ content_len k size count }
{
    if k == section::START {
        return size;
    }
    emit::tally(leb::group_count(count), size)
}

// A section's number, the length of its content, and its content.
pub fn sized_len(n: usize) -> usize
    ensures { result ≡ sized_len n }
{
    emit::tally(emit::tally(1, leb::group_count(n as u64)), n)
}

// An empty section is omitted.
pub fn section_len(t: Tally, k: u8) -> usize
    requires { k < SECTIONS }
    ensures { result ≡ section_len t k }
{
    let i = k as usize;
    let sizes = t.sizes;
    let counts = t.counts;
    let count = counts[i];
    if count == 0 {
        return 0;
    }
    let n = content_len(k, sizes[i] as usize, count);
    sized_len(n)
}

// The sections from one to before another, after `at` bytes.
fn sections_len(t: Tally, from: u8, to: u8, at: usize) -> usize
    requires { to ≤ SECTIONS }
    ensures { result ≡ lens_from (to - from) from at t }
{
    let mut o = at;
    for k in from..to {
        o = emit::tally(o, section_len(t, k));
    }
    o
}

// The data count section, where a data segment is named: how many there are.
fn count_len(t: Tally, work: &[u32]) -> usize
    ensures { result ≡ count_len (data_named_in work.now) t }
{
    if area::flag(work, area::DATA_NAMED) {
        let counts = t.counts;
        return sized_len(leb::group_count(counts[section::DATA as usize]));
    }
    0
}

// The section of types, whose content has this size: none where there are no types.
fn types_len(size: usize) -> usize
    ensures { result ≡ types_len size }
{
    if size == 0 {
        return 0;
    }
    sized_len(size)
}

// The preamble and all sections: the data count stands before code and data.
pub fn module_len(t: Tally, work: &[u32]) -> usize
    ensures { result ≡ module_len (get_or work.now SIZE 0) (data_named_in work.now) t }
{
    let size = area::word(work, area::SIZE) as usize;
    let a = emit::tally(8, types_len(size));
    let b = sections_len(t, section::IMPORT, section::CODE, a);
    let c = emit::tally(b, count_len(t, work));
    sections_len(t, section::CODE, section::DATA_COUNT, c)
}

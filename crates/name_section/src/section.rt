// The section: its name, and its subsections 1 (functions) and 2 (locals). A subsection has the form of a section.
ghost use Rattle.std.specs.Prelude.{◌≡◌, ◌≤◌, ◌<◌, length};
ghost use Rattle.area.specs.Layout.{WORDS};
ghost use Rattle.definition.specs.Binary as Binary;
ghost use Rattle.emit.specs.Put.{Put};
ghost use Rattle.sections.specs.Write.{Writable};
ghost use Rattle.definition.specs.NameSection.{section_name};
ghost use Rattle.name_section.specs.Section.{function_entries, local_entries, NameTally, length_of, subsections_len, name_len, names_in, SizeOf};
ghost use Rattle.kept.specs.Sections.{SECTIONS};

use kept::Tally;
use module::length::{content_len, sized_len};
use module::write::put_head;
use name_maps::{Reached, put_functions, put_locals};

// The entries of each subsection on an empty part: where they end is how long they are.
fn measure_functions(s: &[u8], work: &[u32]) -> Reached
    requires { WORDS ≤ length work.now }
    ensures { SizeOf (function_entries s.now work.now) result }
{
    let mut none = [0u8; 1];
    put_functions(s, work, &mut none[0..0], 0)
}

fn measure_locals(s: &[u8], work: &[u32]) -> Reached
    requires { Writable s.now work.now }
    ensures { SizeOf (local_entries s.now work.now) result }
{
    let mut none = [0u8; 1];
    put_locals(s, work, &mut none[0..0], 0)
}

// How large the subsections are.
pub fn measure(s: &[u8], work: &[u32]) -> Tally
    requires { Writable s.now work.now }
    ensures { NameTally s.now work.now result }
{
    let f = measure_functions(s, work);
    let l = measure_locals(s, work);
    let mut t = Tally::none();
    t.reach(1, f.at, f.count);
    t.reach(2, l.at, l.count);
    t
}

// How long both subsections are.
fn subsections_len(t: Tally) -> usize
    ensures { result ≡ subsections_len t }
{
    emit::tally(
        module::length::section_len(t, 1),
        module::length::section_len(t, 2),
    )
}

// How long the section is. An empty one is omitted.
pub fn section_len(t: Tally) -> usize
    ensures { result ≡ name_len t }
{
    let n = subsections_len(t);
    if n == 0 {
        return 0;
    }
    sized_len(emit::tally(5, n))
}

// A subsection's number and the length of its content.
fn put_length(k: u8, t: Tally, out: &mut [u8], at: usize) -> usize
    requires { k < SECTIONS }
    ensures { Put out.old at (length_of t k) result out.new }
{
    let i = k as usize;
    let sizes = t.sizes;
    let counts = t.counts;
    let n = content_len(k, sizes[i] as usize, counts[i]);
    put_head(k, n, out, at)
}

// Subsection 1. An empty one is omitted.
fn put_first(s: &[u8], work: &[u32], out: &mut [u8], at: usize, t: Tally) -> usize
    requires { Writable s.now work.now × NameTally s.now work.now t }
    ensures { Put out.old at (Binary.section_of 1 (function_entries s.now work.now)) result out.new }
{
    let counts = t.counts;
    let functions = counts[1];
    if functions == 0 {
        return at;
    }
    let a = put_length(1, t, out, at);
    let b = leb::put_u(out, a, functions);
    let x = put_functions(s, work, out, b);
    x.at
}

// Subsection 2, likewise.
fn put_second(s: &[u8], work: &[u32], out: &mut [u8], at: usize, t: Tally) -> usize
    requires { Writable s.now work.now × NameTally s.now work.now t }
    ensures { Put out.old at (Binary.section_of 2 (local_entries s.now work.now)) result out.new }
{
    let counts = t.counts;
    let locals = counts[2];
    if locals == 0 {
        return at;
    }
    let a = put_length(2, t, out, at);
    let b = leb::put_u(out, a, locals);
    let x = put_locals(s, work, out, b);
    x.at
}

// The name of the section.
fn put_title(out: &mut [u8], at: usize) -> usize
    ensures { Put out.old at (Binary.sized section_name) result out.new }
{
    emit::copy(out, at, b"\x04name")
}

// An empty section is omitted.
pub fn put_name_section(s: &[u8], work: &[u32], out: &mut [u8], at: usize, t: Tally) -> usize
    requires { Writable s.now work.now × NameTally s.now work.now t }
    ensures { Put out.old at (names_in s.now work.now) result out.new }
{
    let n = subsections_len(t);
    if n == 0 {
        return at;
    }
    let a = put_head(0, emit::tally(5, n), out, at);
    let b = put_title(out, a);
    let c = put_first(s, work, out, b, t);
    put_second(s, work, out, c, t)
}

// How many items the records have brought.
#![tactic(auto)]

ghost use Rattle.std.specs.Prelude.{◌≡◌, ◌+◌, ◌≤◌, length};
ghost use Rattle.std.proofs.lemmas.List.Edits.{sets};
ghost use Rattle.syntax.specs.Tokens.{space_of};
ghost use Rattle.counting.specs.Counting.{up, one_more, extern_space_of, own_space_of, source_space_of, source_brings, start_seen, field_seen};

use syntax::{Extern, Field, Own, Seen, Source, Space};

// One more, 256 at most: whatever passes that is refused before it is counted.
#[tactic(auto, using(laws::proofs::Exits::exits), unfolding(crate::specs::Counting::up))]
fn one_up(n: u32) -> u32
    ensures { result ≡ up n }
{
    if n < 256 {
        return n + 1;
    }
    n
}

#[tactic(auto, using(sources::proofs::Codes::codes), unfolding(crate::specs::Counting::one_more))]
pub fn one_more(seen: Seen, k: Space) -> Seen
    ensures { result ≡ one_more seen (space_of k) }
{
    let i = syntax::space_code(k);
    let mut counts = seen.counts;
    counts[i] = one_up(counts[i]);
    Seen {
        counts,
        started: seen.started,
    }
}

// The space of an item.
pub fn extern_space(x: Extern) -> Space
    ensures { result ≡ extern_space_of x }
{
    match x {
        Extern::Func(_) => Space::Funcs,
        Extern::Table(_) => Space::Tables,
        Extern::Mem(_) => Space::Mems,
        Extern::Global(_) => Space::Globals,
    }
}

pub fn own_space(o: Own) -> Space
    ensures { result ≡ own_space_of o }
{
    match o {
        Own::Func(_, _) => Space::Funcs,
        Own::Table(_) => Space::Tables,
        Own::Mem(_) => Space::Mems,
        Own::Global(_, _) => Space::Globals,
    }
}

pub fn source_space(x: Source) -> Space
    ensures { result ≡ source_space_of x }
{
    match x {
        Source::Own(o) => own_space(o),
        Source::Imported(_, e) => extern_space(e),
        Source::TableOf(_, _) => Space::Tables,
        Source::MemOf(_, _) => Space::Mems,
    }
}

// An inline table or memory brings a segment too.
fn with_source(seen: Seen, x: Source) -> Seen
    ensures { result ≡ source_brings seen x }
{
    match x {
        Source::Own(o) => one_more(seen, own_space(o)),
        Source::Imported(_, e) => one_more(seen, extern_space(e)),
        Source::TableOf(_, _) => one_more(one_more(seen, Space::Elems), Space::Tables),
        Source::MemOf(_, _) => one_more(one_more(seen, Space::Datas), Space::Mems),
    }
}

fn with_start(seen: Seen) -> Seen
    ensures { result ≡ start_seen seen }
{
    let counts = seen.counts;
    Seen {
        counts,
        started: true,
    }
}

pub fn with_field(seen: Seen, f: Field) -> Seen
    ensures { result ≡ field_seen seen f }
{
    match f {
        Field::Type { .. } => one_more(seen, Space::Types),
        Field::Import { what, .. } => one_more(seen, extern_space(what)),
        Field::Item { source, .. } => with_source(seen, source),
        Field::Export { .. } => seen,
        Field::Start(_) => with_start(seen),
        Field::Elem { .. } => one_more(seen, Space::Elems),
        Field::Data { .. } => one_more(seen, Space::Datas),
    }
}

// The counts become the words of the work area from a place on.
pub fn put_counts(work: &mut [u32], at: usize, seen: Seen)
    requires { at + 7 ≤ length work.old }
    ensures { work.new ≡ sets work.old at seen.counts }
{
    let counts = seen.counts;
    for i in 0..7 {
        work[at + i] = counts[i];
    }
}

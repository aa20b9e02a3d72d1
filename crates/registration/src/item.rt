// One item in its table, and the items that a field brings.
ghost use Rattle.std.specs.Prelude.{◌≡◌, [], ◌∷◌, ◌<◌};
ghost use Rattle.area.specs.Lent.{Lent};
ghost use Rattle.syntax.specs.Tokens.{space_of};
ghost use Rattle.syntax.specs.Items.{count_of};
ghost use Rattle.registration.specs.Register.{Fit, Puts, brought, source_items, nameless};

use syntax::{Fault, Field, Part, Refusal, Resolved, Seen, Source, Space};

// The next item of a space.
fn register_item(
    s: &[u8],
    work: &mut [u32],
    seen: Seen,
    k: Space,
    id: Part,
    rec: u32,
) -> Resolved<()>
    requires { Lent s.now work.old × (count_of seen (space_of k) < 256) }
    ensures { Puts s.now work.old seen rec ((space_of k, id) ∷ []) result work.new }
{
    let count = sources::seen::count_of(seen, k) as usize;
    match name_table::holder(s, work, k, count, id) {
        None => {
            name_table::put_item(s, work, k, count, id, rec);
            Ok(())
        }
        Some(first) => Err(Refusal {
            fault: Fault::NameTaken,
            rec,
            first,
        }),
    }
}

// An inline segment has no identifier.
fn nameless() -> Part
    ensures { result ≡ nameless }
{
    Part { at: 0, len: 0 }
}

// An inline table or memory: its segment, and then the item.
fn register_with(
    s: &[u8],
    work: &mut [u32],
    seen: Seen,
    segment: Space,
    k: Space,
    id: Part,
    rec: u32,
) -> Resolved<()>
    requires { Lent s.now work.old × Fit seen ((space_of segment, nameless) ∷ (space_of k, id) ∷ []) }
    ensures { Puts s.now work.old seen rec ((space_of segment, nameless) ∷ (space_of k, id) ∷ []) result work.new }
{
    register_item(s, work, seen, segment, nameless(), rec)?;
    let more = counting::one_more(seen, segment);
    register_item(s, work, more, k, id, rec)
}

#[tactic(auto, unfolding(crate::specs::Register::Fit))]
fn register_source(
    s: &[u8],
    work: &mut [u32],
    seen: Seen,
    id: Part,
    x: Source,
    rec: u32,
) -> Resolved<()>
    requires { Lent s.now work.old × Fit seen (source_items id x) }
    ensures { Puts s.now work.old seen rec (source_items id x) result work.new }
{
    match x {
        Source::Own(o) => register_item(s, work, seen, counting::own_space(o), id, rec),
        Source::Imported(_, e) => register_item(s, work, seen, counting::extern_space(e), id, rec),
        Source::TableOf(_, _) => register_with(s, work, seen, Space::Elems, Space::Tables, id, rec),
        Source::MemOf(_, _) => register_with(s, work, seen, Space::Datas, Space::Mems, id, rec),
    }
}

#[tactic(auto, using(crate::proofs::Puts::puts_none), unfolding(crate::specs::Register::Fit))]
pub fn register_field(s: &[u8], work: &mut [u32], seen: Seen, f: Field, rec: u32) -> Resolved<()>
    requires { Lent s.now work.old × Fit seen (brought f) }
    ensures { Puts s.now work.old seen rec (brought f) result work.new }
{
    match f {
        Field::Type { id, .. } => register_item(s, work, seen, Space::Types, id, rec),
        Field::Import { id, what, .. } => register_item(
            s,
            work,
            seen,
            counting::extern_space(what),
            id,
            rec,
        ),
        Field::Item { id, source, .. } => register_source(s, work, seen, id, source, rec),
        Field::Export { .. } => Ok(()),
        Field::Start(_) => Ok(()),
        Field::Elem { id, .. } => register_item(s, work, seen, Space::Elems, id, rec),
        Field::Data { id, .. } => register_item(s, work, seen, Space::Datas, id, rec),
    }
}

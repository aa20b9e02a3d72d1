// What the records before have brought, and what may still come.
ghost use Rattle.std.specs.Prelude.{◌≡◌};
ghost use Rattle.syntax.specs.Tokens.{space_of};
ghost use Rattle.syntax.specs.Items.{count_of, kind_of, room_of};

use syntax::{Kind, Seen, Space};

#[tactic(auto, using(crate::proofs::Codes::codes))]
pub fn count_of(seen: Seen, k: Space) -> u32
    ensures { result ≡ count_of seen (space_of k) }
{
    let counts = seen.counts;
    let i = syntax::space_code(k);
    counts[i]
}

// May one more item of a space come?
#[tactic(auto, unfolding(syntax::specs::Items::room_of))]
pub fn has_room(seen: Seen, k: Space) -> bool
    ensures { result ≡ (room_of seen).item (space_of k) }
{
    count_of(seen, k) < 256
}

// The same for what may be imported.
pub fn has_room_for(seen: Seen, kind: Kind) -> bool
    ensures { result ≡ (room_of seen).item (kind_of kind) }
{
    match kind {
        Kind::Func => has_room(seen, Space::Funcs),
        Kind::Table => has_room(seen, Space::Tables),
        Kind::Mem => has_room(seen, Space::Mems),
        Kind::Global => has_room(seen, Space::Globals),
    }
}

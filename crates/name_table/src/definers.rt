// The records that defined the items of each index space, a word to a name.
ghost use Rattle.std.specs.Prelude.{◌≡◌, ◌≤◌, ◌<◌, length};
ghost use Rattle.area.specs.Layout.{WORDS};
ghost use Rattle.area.specs.Lent.{Lent};
ghost use Rattle.syntax.specs.Tokens.{space_of};
ghost use Rattle.name_table.specs.Definers.{definers_base, holder_in, held_by, item_words};

use syntax::{Part, Space};

// Where the records of a space begin.
fn definers_base(k: Space) -> usize
    ensures { result ≡ definers_base (space_of k) }
{
    area::DEFINERS + 256 * syntax::space_code(k)
}

// The record that defined the first of count items of a space that carries an identifier.
pub fn holder(s: &[u8], work: &[u32], k: Space, count: usize, id: Part) -> Option<u32>
    requires { (WORDS ≤ length work.now) × (count ≤ 256) }
    ensures { holder_in count (space_of k) s.now work.now id ≡ held_by result }
{
    if id.len == 0 {
        return None;
    }
    let name = token::bytes_of(s, id);
    match crate::table::find_name(s, work, crate::spaces::table_base(k), count, name) {
        Some(n) => Some(area::word(work, definers_base(k) + n)),
        None => None,
    }
}

// An item more after count of its space: its name, and the record that defined it.
pub fn put_item(s: &[u8], work: &mut [u32], k: Space, count: usize, id: Part, rec: u32)
    requires { Lent s.now work.old × (count < 256) }
    ensures { work.new ≡ item_words s.now work.old (space_of k) count id rec }
{
    crate::entry::put_name(s, work, crate::spaces::table_base(k) + 3 * count, id);
    work[definers_base(k) + count] = rec;
}

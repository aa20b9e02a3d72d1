// The number of an item in its index space.
ghost use Rattle.std.specs.Prelude.{◌≡◌, ◌≤◌, length};
ghost use Rattle.area.specs.Layout.{WORDS};
ghost use Rattle.definition.specs.Names as Names;
ghost use Rattle.syntax.specs.Tokens.{space_of, index_of};
ghost use Rattle.name_table.specs.Area.{resolved};
ghost use Rattle.scope.specs.Scope.{scope_in, limit_in};

use name_table::Table;
use syntax::{Index, Resolved, Space};

// How many items a space has: the types with those that uses add.
fn limit_of(work: &[u32], k: Space) -> u32
    requires { WORDS ≤ length work.now }
    ensures { result ≡ limit_in (space_of k) work.now }
{
    if syntax::space_code(k) == syntax::space_code(Space::Types) {
        return type_table::total(work);
    }
    name_table::name_count(work, k) as u32
}

// The number that an index means in a space.
pub fn item_no(s: &[u8], work: &[u32], k: Space, x: Index, rec: u32) -> Resolved<u32>
    requires { WORDS ≤ length work.now }
    ensures { Names.item_no (scope_in s.now work.now) (space_of k) rec (index_of s.now x) ≡ resolved result }
{
    let t = Table {
        base: name_table::table_base(k),
        count: name_table::name_count(work, k),
        limit: limit_of(work, k),
    };
    name_table::number_in(s, work, t, x, rec)
}

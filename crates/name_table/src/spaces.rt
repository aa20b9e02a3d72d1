// The table of each index space.
ghost use Rattle.std.specs.Prelude.{◌≡◌, ◌≤◌, length};
ghost use Rattle.area.specs.Layout.{WORDS};
ghost use Rattle.syntax.specs.Tokens.{space_of};
ghost use Rattle.name_table.specs.Tables.{base, name_count};

use syntax::Space;

// Where the table of a space begins.
pub fn table_base(k: Space) -> usize
    ensures { result ≡ base (space_of k) }
{
    area::NAMES + area::TABLE * syntax::space_code(k)
}

// How many names it has: 256 at most, whatever its word says.
pub fn name_count(work: &[u32], k: Space) -> usize
    requires { WORDS ≤ length work.now }
    ensures { result ≡ name_count (space_of k) work.now }
{
    let n = area::word(work, area::NAMED + syntax::space_code(k));
    if n < 256 {
        return n as usize;
    }
    256
}

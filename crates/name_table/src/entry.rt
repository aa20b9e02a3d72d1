// Entries written to the work area.
ghost use Rattle.std.specs.Prelude.{◌≡◌, ◌+◌, ◌≤◌, ◌<◌, min, length};
ghost use Rattle.area.specs.Layout.{BYTES};
ghost use Rattle.name_table.specs.Area.{entry_words};

use syntax::Part;

// A place as a word: whatever stands past the stream's end stands at its end.
pub fn place_in(s: &[u8], at: usize) -> u32
    requires { length s.now ≤ BYTES }
    ensures { result ≡ min at (length s.now) }
{
    if at < s.len() {
        return at as u32;
    }
    s.len() as u32
}

// An entry is written: where an identifier stands, and its tag.
pub fn put_name(s: &[u8], work: &mut [u32], at: usize, id: Part)
    requires { (length s.now ≤ BYTES) × (at + 2 < length work.old) }
    ensures { work.new ≡ entry_words s.now work.old at id }
{
    let place = place_in(s, id.at);
    let tag = crate::name::tag_of(token::bytes_of(s, id));
    work[at] = place;
    work[at + 1] = id.len;
    work[at + 2] = tag;
}

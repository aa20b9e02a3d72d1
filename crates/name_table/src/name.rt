// Names compared: by their tags, with bytes, and with an entry of the work area.
ghost use Rattle.std.specs.Prelude.{◌≡◌, ◌+◌, ◌<◌, length, get_or};
ghost use Rattle.definition.specs.Basic.{same_bytes};
ghost use Rattle.definition.specs.Names as Names;
ghost use Rattle.name_table.specs.Area.{entry, tag_of};

use syntax::Part;

// One byte of a name.
fn byte_of(name: &[u8], i: usize) -> u8
    requires { i < length name.now }
    ensures { result ≡ get_or name.now i 0 }
{
    name[i]
}

// The tag of a name: its length and three of its bytes, in one word.
pub fn tag_of(name: &[u8]) -> u32
    ensures { result ≡ tag_of name.now }
{
    let n = name.len();
    if n == 0 {
        return 0;
    }
    let first = byte_of(name, 0) as u32;
    let last = byte_of(name, n - 1) as u32;
    let middle = byte_of(name, n / 2) as u32;
    (n % 256) as u32 + 256 * first + 65536 * last + 16777216 * middle
}

// Equal bytes. Other lengths cost one comparison.
pub fn same(a: &[u8], b: &[u8]) -> bool
    ensures { result ≡ same_bytes a.now b.now }
{
    if a.len() != b.len() {
        return false;
    }
    let mut i = 0;
    while i < a.len() {
        if a[i] != b[i] {
            return false;
        }
        i += 1;
    }
    true
}

// A word of the work area as a place or a length.
fn wide(x: u32) -> usize
    ensures { result ≡ x }
{
    x as usize
}

// The entry at a place of the work area carries the name, which has this tag. Another tag is another name.
pub fn carries(s: &[u8], work: &[u32], at: usize, tag: u32, name: &[u8]) -> bool
    requires { (at + 2 < length work.now) × (tag ≡ tag_of name.now) }
    ensures { result ≡ Names.carries same_bytes name.now (entry s.now work.now at) }
{
    if work[at + 2] != tag {
        return false;
    }
    let len = work[at + 1];
    if len == 0 {
        return false;
    }
    let place = wide(work[at]);
    let other = token::bytes_of(s, Part { at: place, len });
    same(name, other)
}

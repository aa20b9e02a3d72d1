// The size of the type section's content, which stands beside the types (document 02, §10): the groups of their count, and their bytes.
ghost use Rattle.std.specs.Prelude.{◌≡◌, ◌+◌, ◌≤◌, ◌<◌, length, get_or};
ghost use Rattle.std.specs.Int.{w32};
ghost use Rattle.std.proofs.Common.{Fits};
ghost use Rattle.area.specs.Layout.{SIZE, USES};
ghost use Rattle.type_table.specs.Size.{more, list_size, signature_size, size_words};

use crate::index::Hashed;

// What the groups of the count grow by with one type more: the first type brings the first group, the 128th the second.
fn count_grows(count: u32) -> u32
    requires { count < 256 }
    ensures { result ≡ more count }
{
    if count == 0 {
        return 1;
    }
    if count == 127 {
        return 1;
    }
    0
}

// The bytes of a list: its count, and a byte for each value type.
fn list_size(n: u32) -> u32
    requires { Fits w32 (list_size n) }
    ensures { result ≡ list_size n }
{
    let groups = leb::group_count(n as u64) as u32;
    groups + n
}

// The bytes of a signature: its form, and its two lists.
fn signature_size(h: Hashed) -> u32
    requires { Fits w32 (signature_size h) }
    ensures { result ≡ signature_size h }
{
    1 + list_size(h.params) + list_size(h.results)
}

// One type more after `count` types.
pub fn put_size(work: &mut [u32], count: u32, h: Hashed)
    requires { (count < 256) × (USES ≤ length work.old) × Fits w32 (get_or work.old SIZE 0 + more count + signature_size h) }
    ensures { work.new ≡ size_words work.old count h }
{
    let size = work[area::SIZE];
    let grown = size + count_grows(count) + signature_size(h);
    work[area::SIZE] = grown;
}

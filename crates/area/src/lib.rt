// The work area: where things stand in it, one word of it, and how it is cleared. docs/ARCHITECTURE.md has the layout as a table.
#![tactic(auto)]

ghost use Rattle.std.specs.Prelude.{◌≡◌, ◌<◌, length, get_or, replicate};
ghost use Rattle.area.specs.Flags.{flag_in, flag_word, flag_put};

// How many words it has at least, and how many bytes a stream has at most.
pub const WORDS: usize = 16384;

pub const BYTES: usize = 65536;

// How many items each index space has, by its code.
pub const COUNTS: usize = 0;
// Of these, how many types the fields declare.
pub const DECLARED: usize = 4;
// 1 where some body names a data segment.
pub const DATA_NAMED: usize = 7;
// Where the bodies of own functions end, two words each.
pub const ENDS: usize = 8;
// 1 in a strict call.
pub const STRICT: usize = 520;
// The table of types, five words each.
pub const TYPES: usize = 521;
// The index over them: for each bucket of hashes the root of a tree, for each type its two branches, and its hash in two words.
pub const HEADS: usize = 1801;

pub const LINKS: usize = 2057;

pub const HASHES: usize = 2569;
// The byte size of the type section's content.
pub const SIZE: usize = 3081;
// For each record the number of the type of its use.
pub const USES: usize = 3082;
// How many types there are.
pub const TOTAL: usize = 7178;
// How many names the table of each index space has.
pub const NAMED: usize = 7179;
// The tables of names.
pub const NAMES: usize = 7186;
// For each name the record that defined its item.
pub const DEFINERS: usize = 12562;
// The function's parameters and locals.
pub const LOCALS: usize = 14354;
// The labels of its open blocks, the outermost first.
pub const LABELS: usize = 14738;

// The words of one table of names.
pub const TABLE: usize = 768;

// Added to the record after a body that may use a type.
pub const MARK: u32 = 8192;

// The word at a place; past the end 0.
pub fn word(work: &[u32], at: usize) -> u32
    ensures { result ≡ get_or work.now at 0 }
{
    if at < work.len() {
        return work[at];
    }
    0
}

// A word that says yes or no: 1 or 0.
fn flag_word(b: bool) -> u32
    ensures { result ≡ flag_word b }
{
    if b {
        return 1;
    }
    0
}

// It is written at a place, as `STRICT`.
pub fn put_flag(work: &mut [u32], at: usize, b: bool)
    requires { at < length work.old }
    ensures { work.new ≡ flag_put at work.old b }
{
    work[at] = flag_word(b);
}

// What it says.
pub fn flag(work: &[u32], at: usize) -> bool
    ensures { result ≡ flag_in at work.now }
{
    word(work, at) == 1
}

// Every word becomes 0.
pub fn clear(work: &mut [u32])
    ensures { work.new ≡ replicate (length work.old) 0 }
{
    let mut i = 0;
    while i < work.len() {
        work[i] = 0;
        i += 1;
    }
}

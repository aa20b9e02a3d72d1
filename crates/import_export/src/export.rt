// Exports, and the start.
ghost use Rattle.std.specs.Prelude.{◌≤◌, length};
ghost use Rattle.area.specs.Layout.{WORDS};
ghost use Rattle.definition.specs.Syntax.{export_f, start_f};
ghost use Rattle.definition.specs.Token as Token;
ghost use Rattle.definition.specs.Names as Names;
ghost use Rattle.syntax.specs.Tokens.{part_of, space_of, index_of};
ghost use Rattle.syntax.specs.TypeUses.{list_of};
ghost use Rattle.scope.specs.Scope.{scope_in};
ghost use Rattle.binary.specs.Emits.{Emits};
ghost use Rattle.import_export.specs.Entry.{entry_of, export_entries, Lists};

use syntax::{Index, List, Part, Resolved, Space};

// The place after some entries, and how many there are.
#[derive(Clone, Copy)]
pub struct Ends {
    pub to: usize,
    pub count: u64,
}

pub fn emit_export(
    s: &[u8],
    work: &[u32],
    out: &mut [u8],
    at: usize,
    name: Part,
    k: Space,
    x: Index,
    rec: u32,
) -> Resolved<usize>
    requires { WORDS ≤ length work.now }
    ensures { Emits entry_of (Names.resolve (scope_in s.now work.now) rec (export_f (part_of s.now name) (space_of k) (index_of s.now x))) out.old at result out.new }
{
    let n = scope::item_no(s, work, k, x, rec)?;
    Ok(binary::put_export(s, out, at, name, k, n))
}

// The exports that stand inline, each of the item numbered n.
pub fn put_exports(s: &[u8], out: &mut [u8], at: usize, exports: List, k: Space, n: u32) -> Ends
    ensures { Lists (export_entries (space_of k) n (list_of Token.string s.now exports)) out.old at result out.new }
{
    let mut to = at;
    let mut here = exports.at;
    for i in 0..exports.count {
        let Ok((name, next)) = token::read_string(s, here) else {
            return Ends {
                to,
                count: i as u64,
            };
        };
        to = binary::put_export(s, out, to, name, k, n);
        here = next;
    }
    Ends {
        to,
        count: exports.count as u64,
    }
}

pub fn emit_start(
    s: &[u8],
    work: &[u32],
    out: &mut [u8],
    at: usize,
    x: Index,
    rec: u32,
) -> Resolved<usize>
    requires { WORDS ≤ length work.now }
    ensures { Emits entry_of (Names.resolve (scope_in s.now work.now) rec (start_f (index_of s.now x))) out.old at result out.new }
{
    operands::emit_number(s, work, out, at, Space::Funcs, x, rec)
}

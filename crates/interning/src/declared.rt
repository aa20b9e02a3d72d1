// The declared types, wherever they stand.
ghost use Rattle.std.specs.Prelude.{◌≡◌, ◌+◌, ◌<◌, length, get_or};
ghost use Rattle.area.specs.Layout.{DECLARED};
ghost use Rattle.area.specs.Lent.{Lent};
ghost use Rattle.definition.specs.Types as Types;
ghost use Rattle.type_table.specs.Table.{Adds, Indexed};
ghost use Rattle.walk.specs.Walk.{Ahead, begin, fields_in};
ghost use Rattle.interning.specs.Declaring.{HasRoom, Declares, DeclaredAll, listed};

use syntax::{Field, List};
use type_table::Signature;

// A type stands after the others.
fn add_declared(s: &[u8], work: &mut [u32], count: u32, params: List, results: List)
    requires { Lent s.now work.old × (count < 256) × Indexed s.now work.old count }
    ensures { Adds s.now work.old count (listed params results) work.new }
{
    let x = Signature {
        named: false,
        params,
        results,
    };
    type_table::declare_type(s, work, count, x);
}

// A field that declares a type adds it.
fn declare(s: &[u8], work: &mut [u32], count: u32, f: Field) -> u32
    requires { Lent s.now work.old × Indexed s.now work.old count × HasRoom count f }
    ensures { Declares s.now work.old count f result work.new }
{
    match f {
        Field::Type {
            id: _,
            params,
            results,
        } => {
            add_declared(s, work, count, params, results);
            count + 1
        }
        Field::Import {
            name: _,
            id: _,
            what: _,
        } => count,
        Field::Item {
            id: _,
            exports: _,
            source: _,
        } => count,
        Field::Export {
            name: _,
            space: _,
            index: _,
        } => count,
        Field::Start(_) => count,
        Field::Elem {
            id: _,
            mode: _,
            funcs: _,
        } => count,
        Field::Data {
            id: _,
            mode: _,
            bytes: _,
        } => count,
    }
}

// All of them, in their order. Reading has left how many there are, and the walk ends with the last of them.
fn declare_fields(s: &[u8], work: &mut [u32]) -> u32
    requires { Lent s.now work.old × Indexed s.now work.old 0 × Ahead s.now work.old begin × (get_or work.old DECLARED 0 ≡ length (Types.declared (fields_in s.now))) }
    ensures { DeclaredAll s.now work.old result work.new }
{
    let total = area::word(work, area::DECLARED);
    let mut c = walk::start();
    let mut count: u32 = 0;
    while count < total {
        let m = walk::visit(s, work, c);
        let what = m.what;
        match what {
            Some((f, _)) => {
                count = declare(s, work, count, f);
                c = m.next;
            }
            None => {
                return count;
            }
        }
    }
    count
}

// All of them, and the index over them.
pub fn declare_all(s: &[u8], work: &mut [u32]) -> u32
    requires { Lent s.now work.old × Ahead s.now work.old begin × (get_or work.old DECLARED 0 ≡ length (Types.declared (fields_in s.now))) }
    ensures { DeclaredAll s.now work.old result work.new }
{
    type_table::clear_index(work);
    declare_fields(s, work)
}

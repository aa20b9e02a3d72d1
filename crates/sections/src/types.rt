// The types of the table, declared and added: the entries of section 1.
ghost use Rattle.std.specs.Prelude.{map, ◌+◌, ◌≤◌, ◌<◌, length};
ghost use Rattle.area.specs.Layout.{WORDS};
ghost use Rattle.definition.specs.Binary as Binary;
ghost use Rattle.emit.specs.Put.{Put};
ghost use Rattle.type_table.specs.Table.{signature_of, entry_in, types_in};

// The entry of one.
fn put_type(s: &[u8], work: &[u32], out: &mut [u8], at: usize, place: usize) -> usize
    requires { place + 4 < length work.now }
    ensures { Put out.old at (Binary.func_type (signature_of s.now (entry_in work.now place))) result out.new }
{
    let x = type_table::type_at(work, place);
    import_export::put_signature(s, out, at, x)
}

// Their entries.
pub fn put_types(s: &[u8], work: &[u32], out: &mut [u8], at: usize) -> usize
    requires { WORDS ≤ length work.now }
    ensures { Put out.old at (Binary.joined (map Binary.func_type (types_in s.now work.now))) result out.new }
{
    let n = type_table::total(work);
    let mut place = area::TYPES;
    let mut o = at;
    for _ in 0..n {
        o = put_type(s, work, out, o, place);
        place += 5;
    }
    o
}

// The writers: a module, with its name section or without, where it has room.
#![tactic(auto)]

ghost use Rattle.std.specs.Prelude.{◌≡◌, ◌++◌};
ghost use Rattle.definition.specs.Binary as Binary;
ghost use Rattle.kept.specs.Tally.{tallies, no_tally};
ghost use Rattle.sections.specs.Write.{Writable, Held, all_entries, module_items};
ghost use Rattle.name_section.specs.Section.{names_in};
ghost use Rattle.writers.specs.Does.{no_room, Does};

use kept::Tally;
use module::module_len;

// A number, a record, where the name was first used, and how many bytes were written.
#[derive(Clone, Copy)]
pub struct Said {
    pub number: u8,
    pub rec: u32,
    pub first: u32,
    pub len: usize,
}

fn no_room(count: u32) -> Said
    ensures { result ≡ no_room count }
{
    Said {
        number: 18,
        rec: count,
        first: count,
        len: 0,
    }
}

// The module, where it has room.
pub fn write_module(
    s: &[u8],
    work: &mut [u32],
    out: &mut [u8],
    kept: &[u8],
    count: u32,
    t: Tally,
) -> Said
    requires { Writable s.now work.old × Held kept.now (all_entries s.now work.old) × (t ≡ tallies no_tally (all_entries s.now work.old)) }
    ensures { Does count (Binary.module' (module_items s.now work.old)) work.old out.old result work.new out.new }
{
    if out.len() < module_len(t, work) {
        return no_room(count);
    }
    let len = module::put_module(t, kept, s, work, out);
    Said {
        number: 0,
        rec: count,
        first: count,
        len,
    }
}

// The module and its name section, where both have room.
pub fn write_names(
    s: &[u8],
    work: &mut [u32],
    out: &mut [u8],
    kept: &[u8],
    count: u32,
    t: Tally,
) -> Said
    requires { Writable s.now work.old × Held kept.now (all_entries s.now work.old) × (t ≡ tallies no_tally (all_entries s.now work.old)) }
    ensures { Does count (Binary.module' (module_items s.now work.old) ++ names_in s.now work.old) work.old out.old result work.new out.new }
{
    let n = name_section::measure(s, work);
    if out.len() < emit::tally(module_len(t, work), name_section::section_len(n)) {
        return no_room(count);
    }
    let at = module::put_module(t, kept, s, work, out);
    let len = name_section::put_name_section(s, work, out, at, n);
    Said {
        number: 0,
        rec: count,
        first: count,
        len,
    }
}

// Parts of the stream as they are, and as names with their length before them.
ghost use Rattle.std.specs.Prelude.{◌≡◌, ◌∷◌, ◌++◌};
ghost use Rattle.definition.specs.Syntax.{code};
ghost use Rattle.definition.specs.Binary as Binary;
ghost use Rattle.emit.specs.Put.{Put};
ghost use Rattle.syntax.specs.Tokens.{part_of, space_of};
ghost use Rattle.syntax.specs.Items.{name_of};

use syntax::{ImportName, Part, Space};

// The bytes of a part.
pub fn put_part(s: &[u8], out: &mut [u8], at: usize, p: Part) -> usize
    ensures { Put out.old at (part_of s.now p) result out.new }
{
    emit::copy(out, at, token::bytes_of(s, p))
}

// Their length, and the bytes: a name, or a segment's data.
pub fn put_name(s: &[u8], out: &mut [u8], at: usize, p: Part) -> usize
    ensures { Put out.old at (Binary.sized (part_of s.now p)) result out.new }
{
    let bytes = token::bytes_of(s, p);
    let a = leb::put_u(out, at, bytes.len() as u64);
    emit::copy(out, a, bytes)
}

// The two names of an import.
pub fn put_import_name(s: &[u8], out: &mut [u8], at: usize, n: ImportName) -> usize
    ensures { Put out.old at (Binary.sized (name_of s.now n).module_name ++ Binary.sized (name_of s.now n).item_name) result out.new }
{
    let a = put_name(s, out, at, n.module);
    put_name(s, out, a, n.item)
}

// The byte that an export has for a space.
fn space_byte(k: Space) -> u8
    ensures { result ≡ code (space_of k) }
{
    syntax::space_code(k) as u8
}

// An export: its name, and the item that is exported.
pub fn put_export(s: &[u8], out: &mut [u8], at: usize, name: Part, k: Space, n: u32) -> usize
    ensures { Put out.old at (Binary.sized (part_of s.now name) ++ (code (space_of k) ∷ Binary.u n)) result out.new }
{
    let a = put_name(s, out, at, name);
    let b = emit::put(out, a, space_byte(k));
    leb::put_u(out, b, n as u64)
}

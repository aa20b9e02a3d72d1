// The labels of the open blocks, from `LABELS` on, the outermost first.
ghost use Rattle.std.specs.Prelude.{◌<◌};
ghost use Rattle.area.specs.Lent.{Lent};
ghost use Rattle.frames.specs.Blocks.{Opened};

use syntax::Part;

// A block opens where k are open: its label, named or not, is the innermost.
pub fn open_block(s: &[u8], work: &mut [u32], k: u32, label: Part)
    requires { Lent s.now work.old × (k < 128) }
    ensures { Opened s.now work.old k label work.new }
{
    name_table::put_name(s, work, area::LABELS + 3 * (k as usize), label);
}

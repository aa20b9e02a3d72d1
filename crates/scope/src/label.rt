// Labels: the depth of a block, and the label on an else or an end.
ghost use Rattle.std.specs.Prelude.{◌≡◌, ◌≤◌, length};
ghost use Rattle.area.specs.Layout.{WORDS};
ghost use Rattle.definition.specs.Names as Names;
ghost use Rattle.syntax.specs.Tokens.{id_of, index_of};
ghost use Rattle.scope.specs.Scope.{scope_in, labels_in};
ghost use Rattle.scope.specs.Answers.{depth_answer, closed_answer};

use syntax::{Depth, Fault, Index, Part, Resolved};

// The depth that an index means, k blocks being open.
pub fn depth_no(s: &[u8], work: &[u32], k: u32, x: Index, rec: u32) -> Resolved<Depth>
    requires { (WORDS ≤ length work.now) × (k ≤ 128) }
    ensures { Names.depth_of (scope_in s.now work.now) (labels_in s.now work.now k) rec (index_of s.now x) ≡ depth_answer result }
{
    let n = name_table::depth_of(s, work, area::LABELS, k as usize, x, rec)?;
    Ok(Depth(n))
}

// May an else or an end have this label, k blocks being open? The innermost must carry it.
pub fn closes(s: &[u8], work: &[u32], k: u32, label: Part, rec: u32) -> Resolved<()>
    requires { (WORDS ≤ length work.now) × (k ≤ 128) }
    ensures { Names.closes (scope_in s.now work.now) rec (id_of s.now label) (labels_in s.now work.now k) ≡ closed_answer result }
{
    if label.len == 0 {
        return Ok(());
    }
    if k == 0 {
        return Ok(());
    }
    let name = token::bytes_of(s, label);
    let tag = name_table::tag_of(name);
    let outer = k - 1;
    if name_table::carries(s, work, area::LABELS + 3 * (outer as usize), tag, name) {
        return Ok(());
    }
    Err(syntax::refusal_at(Fault::OtherLabel, rec))
}

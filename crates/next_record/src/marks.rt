// The marks of the open blocks, moved on. A block more pushes the others one bit up; 128 fit.
ghost use Rattle.std.specs.Prelude.{◌≡◌, ◌-◌};
ghost use Rattle.definition.specs.Instructions.{may_else};
ghost use Rattle.syntax.specs.Marks.{inside_of};
ghost use Rattle.next_record.specs.Marks.{mark_of, innermost_of, Opened, Elsed, Ended};

use syntax::Marks;

// The highest bit of a word.
const TOP: u64 = 9223372036854775808;

// What a record's reader needs of the marks: whether an else may come in the innermost block.
#[derive(Clone, Copy)]
pub struct Innermost {
    pub may: bool,
}

pub fn lowest(marks: Marks) -> Innermost
    ensures { result ≡ innermost_of marks }
{
    let may = marks.low % 2 == 1;
    Innermost { may }
}

// May an else come?
pub fn may_else(last: Innermost, depth: u32) -> bool
    ensures { result ≡ may_else (inside_of (depth - 1) (mark_of last)).blocks }
{
    if depth < 2 {
        return false;
    }
    last.may
}

// A block opens, in which an else may come or not.
pub fn with_block(marks: Marks, may: bool) -> Marks
    ensures { Opened marks may result }
{
    let low = marks.low % TOP * 2;
    let high = marks.high % TOP * 2 + marks.low / TOP;
    if may {
        return Marks { low: low + 1, high };
    }
    Marks { low, high }
}

// The innermost block has had its else.
pub fn without_else(marks: Marks) -> Marks
    ensures { Elsed marks result }
{
    Marks {
        low: marks.low / 2 * 2,
        high: marks.high,
    }
}

// The innermost block ends.
pub fn without_block(marks: Marks) -> Marks
    ensures { Ended marks result }
{
    Marks {
        low: marks.low / 2 + marks.high % 2 * TOP,
        high: marks.high / 2,
    }
}

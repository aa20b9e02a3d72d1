// The locals of a function: equal neighbours in one run. They were read before, so of their names only the lengths are looked at.
#![tactic(auto)]

ghost use Rattle.std.specs.Prelude.{◌≡◌, ◌≤◌, length};
ghost use Rattle.definition.specs.Basic.{concat_map};
ghost use Rattle.definition.specs.Binary as Binary;
ghost use Rattle.definition.specs.Reader.{many};
ghost use Rattle.definition.specs.Token as Token;
ghost use Rattle.emit.specs.Put.{Put};
ghost use Rattle.token.specs.Known.{Gets};
ghost use Rattle.typeuse.specs.Known.{Readable};
ghost use Rattle.runs.specs.Locals.{local_types, RunIs, RunAtIs};

use syntax::List;

// So many locals of one type, the place after them, and how many locals there still are.
#[derive(Clone, Copy)]
pub struct Run {
    pub count: u64,
    pub value: u8,
    pub next: usize,
    pub left: u32,
}

// The run of a local of type `value`, which stands before the locals here.
fn run_from(s: &[u8], at: usize, count: u32, value: u8) -> Run
    requires { Gets (many count Token.param s.now at) }
    ensures { RunIs s.now at count value result }
{
    let mut here = at;
    for i in 0..count {
        let Ok((l, next)) = typeuse::known_local(s, here) else {
            return Run {
                count: i as u64 + 1,
                value,
                next: here,
                left: count - i,
            };
        };
        if l.value != value {
            return Run {
                count: i as u64 + 1,
                value,
                next: here,
                left: count - i,
            };
        }
        here = next;
    }
    Run {
        count: count as u64 + 1,
        value,
        next: here,
        left: 0,
    }
}

// The first run of the locals here.
fn run_at(s: &[u8], at: usize, count: u32) -> Option<Run>
    requires { Gets (many count Token.param s.now at) }
    ensures { RunAtIs s.now at count result }
{
    if count == 0 {
        return None;
    }
    match typeuse::known_local(s, at) {
        Ok((l, next)) => Some(run_from(s, next, count - 1, l.value)),
        Err(_) => None,
    }
}

// A run has at least one local: so there are no more runs than locals.
pub fn count_runs(s: &[u8], ls: List) -> u64
    requires { Readable s.now ls }
    ensures { result ≡ length (Binary.runs (local_types s.now ls.at ls.count)) }
{
    let mut here = ls.at;
    let mut left = ls.count;
    for n in 0..ls.count {
        let Some(r) = run_at(s, here, left) else {
            return n as u64;
        };
        here = r.next;
        left = r.left;
    }
    ls.count as u64
}

fn put_run(out: &mut [u8], at: usize, r: Run) -> usize
    ensures { Put out.old at (Binary.run (r.count, r.value)) result out.new }
{
    let a = leb::put_u(out, at, r.count);
    emit::put(out, a, r.value)
}

// How many runs were put, and the place after them.
#[derive(Clone, Copy)]
pub struct Runs {
    pub count: u64,
    pub next: usize,
}

// The runs, without their count.
fn put_each_run(s: &[u8], out: &mut [u8], at: usize, ls: List) -> Runs
    requires { Readable s.now ls }
    ensures { (result.count ≤ ls.count) × (result.count ≡ length (Binary.runs (local_types s.now ls.at ls.count))) × Put out.old at (concat_map Binary.run (Binary.runs (local_types s.now ls.at ls.count))) result.next out.new }
{
    let mut o = at;
    let mut here = ls.at;
    let mut left = ls.count;
    for n in 0..ls.count {
        let Some(r) = run_at(s, here, left) else {
            return Runs {
                count: n as u64,
                next: o,
            };
        };
        o = put_run(out, o, r);
        here = r.next;
        left = r.left;
    }
    Runs {
        count: ls.count as u64,
        next: o,
    }
}

// The runs after their count. Where that is one group, the runs are put first, after a place for it.
pub fn put_runs(s: &[u8], out: &mut [u8], at: usize, ls: List) -> usize
    requires { Readable s.now ls }
    ensures { Put out.old at (Binary.vec Binary.run (Binary.runs (local_types s.now ls.at ls.count))) result out.new }
{
    if ls.count < 128 {
        if at < out.len() {
            let r = put_each_run(s, out, at + 1, ls);
            emit::put(out, at, r.count as u8);
            return r.next;
        }
    }
    let a = leb::put_u(out, at, count_runs(s, ls));
    let r = put_each_run(s, out, a, ls);
    r.next
}

// Which lines are used: the last one, and from the back those that a used one refers to. Index i is line i.
ghost use Rattle.std.specs.Prelude.{◌≡◌};
ghost use Rattle.codelist.specs.Codelist.{WellFormed};
ghost use Rattle.liveness.specs.Used.{used};
ghost use Rattle.liveness.specs.Views.{Marks, mark, marked};

use codelist::{Codelist, Op};

// Line i, marked.
// A number that is no line's marks nothing, as `mark` of the specs has it.
#[tactic(auto, using(crate::proofs::Tables::mark_out))]
fn mark(used: &mut [bool; 65], i: u8)
    ensures { used.new ≡ mark used.old i }
{
    if usize::from(i) < used.len() {
        used[usize::from(i)] = true;
    }
}

// The lines that an operation refers to, marked.
fn mark_operands(used: &mut [bool; 65], op: Op)
    ensures { used.new ≡ marked used.old op }
{
    match op {
        Op::Add(i, j) | Op::Mul(i, j) => {
            mark(used, i);
            mark(used, j);
        }
        Op::AddC(i, _) | Op::MulC(i, _) | Op::Pow(i, _) | Op::Inv(i) => mark(used, i),
    }
}

// The used lines, from the back.
#[tactic(auto, using(crate::proofs::Tables::seen_all, crate::proofs::Tables::seen_used))]
pub(crate) fn used_lines(c: &Codelist) -> [bool; 65]
    requires { WellFormed c.now }
    ensures { Marks (used c.now) result }
{
    let n = usize::from(c.factors);
    let count = usize::from(c.count);
    let mut used = [false; 65];
    used[n + count] = true;
    // By the line, which is marked or not.
    for k in (0..count).rev() {
        if used[n + k + 1] {
            mark_operands(&mut used, c.ops[k].op);
        }
    }
    used
}

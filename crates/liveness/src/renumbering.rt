// The new numbers: how many of the lines up to a line are kept. Index i is line i.
ghost use Rattle.std.specs.Prelude.{◌≡◌, false, ◌||◌, leb, get_or};
ghost use Rattle.liveness.specs.Tidied.{position, renumbered};
ghost use Rattle.liveness.specs.Views.{Numbers, number_at};

use codelist::Op;

// The new number of each line: how many up to it are kept. These are the factors and the used ones.
pub(crate) fn numbers(used: &[bool; 65], factors: u8) -> [u8; 65]
    ensures { Numbers (position (λ i. leb i factors || get_or used.now i false)) result }
{
    let mut numbers = [0; 65];
    let mut next = 0u8;
    // By the line, of which both tables are asked.
    for i in 1..65 {
        if i <= usize::from(factors) || used[i] {
            next += 1;
        }
        numbers[i] = next;
    }
    numbers
}

// The new number of line i.
// 0 of a number that is no line's, as `number_at` of the specs has it.
fn number(numbers: &[u8; 65], i: u8) -> u8
    ensures { result ≡ number_at numbers.now i }
{
    numbers.get(usize::from(i)).copied().unwrap_or(0)
}

// An operation with the new numbers.
pub(crate) fn renumbered(numbers: &[u8; 65], op: Op) -> Op
    ensures { result ≡ renumbered (number_at numbers.now) op }
{
    match op {
        Op::Add(i, j) => Op::Add(number(numbers, i), number(numbers, j)),
        Op::Mul(i, j) => Op::Mul(number(numbers, i), number(numbers, j)),
        Op::AddC(i, c) => Op::AddC(number(numbers, i), c),
        Op::MulC(i, c) => Op::MulC(number(numbers, i), c),
        Op::Pow(i, m) => Op::Pow(number(numbers, i), m),
        Op::Inv(i) => Op::Inv(number(numbers, i)),
    }
}

// The table of lines: twenty numbers a line, the ends of its value, of its spectrum and of its eight slopes; and two sets a line, its support
// and what it is nonlinear in. A line is read where it lies; the ends of valid ranges fit 32 bits, which halves what is cleared for each rating.
// The lines are no structs in an array, since `Range::cross` reads the slopes of two lines of one list of numbers.
ghost use Rattle.std.specs.Prelude.{◌≡◌, true, ◌+◌, ◌*◌, ◌<◌, set};
ghost use Rattle.range.specs.Limit.{is_valid};
ghost use Rattle.range.specs.Sums.{at, pair_at};
ghost use Rattle.bounds.specs.Table.{value_at, spectrum_at, gradient_at, support_at, nonlinear_at, reach_at, put_pair, Beside, Ready, line_with, Placed};

use range::Range;

#[derive(Drop)]
pub struct Table {
    pub numbers: [i32; 1280],
    pub sets: [u8; 128],
}

// What a line has beside its slopes.
#[derive(Clone, Copy)]
pub struct Head {
    pub value: Range,
    pub spectrum: Range,
    pub support: u8,
    pub nonlinear: u8,
}

// A line is named by its index: a type for the indices below 64 would be made anew, and taken apart, at each call.
impl Table {
    pub(crate) fn empty() -> Table
        ensures { Ready result 0 }
    {
        Table {
            numbers: [0; 1280],
            sets: [0; 128],
        }
    }

    // The range from the number m on.
    fn pair(&self, m: usize) -> Range
        requires { m < 1279 }
        ensures { result ≡ pair_at self.now.numbers m }
    {
        Range::new(i64::from(self.numbers[m]), i64::from(self.numbers[m + 1]))
    }

    pub(crate) fn value(&self, k: usize) -> Range
        requires { k < 64 }
        ensures { result ≡ value_at self.now k }
    {
        self.pair(20 * k)
    }

    pub(crate) fn spectrum(&self, k: usize) -> Range
        requires { k < 64 }
        ensures { result ≡ spectrum_at self.now k }
    {
        self.pair(20 * k + 2)
    }

    // The slope of the factor a.
    pub(crate) fn slope(&self, k: usize, a: usize) -> Range
        requires k_bound { k < 64 }
        requires a_bound { a < 8 }
        ensures { result ≡ at (gradient_at self.now k) a }
    {
        self.pair(20 * k + 4 + 2 * a)
    }

    // The set of factors that the line k depends on.
    pub(crate) fn support(&self, k: usize) -> u8
        requires { k < 64 }
        ensures { result ≡ support_at self.now k }
    {
        self.sets[2 * k]
    }

    // The set of factors that the line k is nonlinear in.
    pub(crate) fn nonlinear(&self, k: usize) -> u8
        requires { k < 64 }
        ensures { result ≡ nonlinear_at self.now k }
    {
        self.sets[2 * k + 1]
    }

    // Both: the set that a product, a power or an inverse of the line k is nonlinear in.
    pub(crate) fn reach(&self, k: usize) -> u8
        requires { k < 64 }
        ensures { result ≡ reach_at self.now k }
    {
        self.support(k) | self.nonlinear(k)
    }

    // Writes the slope of the factor a.
    pub(crate) fn put_slope(&mut self, k: usize, a: usize, r: Range)
        requires k_bound { k < 64 }
        requires a_bound { a < 8 }
        requires r_value { is_valid r ≡ true }
        ensures slopes { gradient_at self.new k ≡ set (gradient_at self.old k) a r }
        ensures beside { Beside self.old k self.new }
    {
        put(&mut self.numbers, 20 * k + 4 + 2 * a, r);
    }

    // Writes what the line k has beside its slopes.
    pub(crate) fn put_head(&mut self, k: usize, h: Head)
        requires k_bound { k < 64 }
        requires value { is_valid h.value ≡ true }
        requires spectrum { is_valid h.spectrum ≡ true }
        ensures { Placed (line_with h (gradient_at self.old k)) self.old k self.new }
    {
        put(&mut self.numbers, 20 * k, h.value);
        put(&mut self.numbers, 20 * k + 2, h.spectrum);
        self.sets[2 * k] = h.support;
        self.sets[2 * k + 1] = h.nonlinear;
    }
}

// Writes a range from the number m on.
fn put(numbers: &mut [i32; 1280], m: usize, r: Range)
    requires m_bound { m < 1279 }
    requires r_value { is_valid r ≡ true }
    ensures { numbers.new ≡ put_pair numbers.old m r }
{
    numbers[m] = r.low as i32;
    numbers[m + 1] = r.high as i32;
}

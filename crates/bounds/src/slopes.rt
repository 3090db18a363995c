// The slopes of a row, an array of eight ranges by value. Outside the set that a line depends on they are zero, so that only the members are
// worked out, of slopes that are read where they lie in the table. Each is written to the table where it is worked out: a processor that copied
// them from the array just after would wait for it.
ghost use Rattle.std.specs.Prelude.{◌≡◌, true, ◌<◌, Some};
ghost use Rattle.range.specs.declared.Range.{Range};
ghost use Rattle.range.specs.Limit.{is_valid};
ghost use Rattle.bounds.specs.Terms.{Told};
ghost use Rattle.bounds.specs.Table.{gradient_at, support_at, Blank, Refers, Gives, ruled, Filled};

use super::table::Table;
use super::valid;
use range::Range;

impl Table {
    // The slopes of the line k, for the factors in the set: what the rule gives of those of the lines i and j. None where one is no range.
    pub(crate) fn fill<F: Fn(Range, Range) -> Range>(
        &mut self,
        k: usize,
        set: u8,
        i: usize,
        j: usize,
        rule: F,
    ) -> Option<[Range; 8]>
        requires k_bound { k < 64 }
        requires blank { Blank self.old k }
        requires refers { Refers self.old i k }
        requires refers_2 { Refers self.old j k }
        requires callable { (g h : Range) → is_valid g ≡ true → is_valid h ≡ true → F.pre rule g h }
        requires told { (g h r : Range) → is_valid g ≡ true → is_valid h ≡ true → F.post rule g h r → Told r }
        ensures { (f : Range → Range → Range)
            → Gives (F.post rule) f
            → Filled (ruled f set self.old i j) self.old k result self.new }
    {
        let mut g = [Range::ZERO; 8];
        // By the factor, of which both tables and the set are asked.
        for a in 0..8 {
            // No member is left: small sets are common.
            let rest = set >> a;
            if rest == 0 {
                return Some(g);
            }
            if rest % 2 == 1 {
                let r = rule(self.slope(i, a), self.slope(j, a));
                if !valid::is_range(r) {
                    return None;
                }
                g[a] = r;
                self.put_slope(k, a, r);
            }
        }
        Some(g)
    }

    // The slopes of the line k are those of the line i, which depends on the factors in the set: they are valid, and zero for other factors, so that
    // none is tested.
    pub(crate) fn copied(&mut self, k: usize, set: u8, i: usize) -> [Range; 8]
        requires k_bound { k < 64 }
        requires blank { Blank self.old k }
        requires refers { Refers self.old i k }
        requires set_value { set ≡ support_at self.old i }
        ensures { Filled (gradient_at self.old i) self.old k (Some result) self.new }
    {
        let mut g = [Range::ZERO; 8];
        // By the factor, of which both lines are asked.
        for a in 0..8 {
            // No member is left: small sets are common. Where there is one behind the fourth factor all eight are copied, which takes less time than a look at each.
            if (set < 16) & (set >> a == 0) {
                return g;
            }
            let r = self.slope(i, a);
            g[a] = r;
            self.put_slope(k, a, r);
        }
        g
    }
}

// The boat lines: two of n numerals each, parted by tabs.
ghost use Rattle.std.specs.Prelude.{◌≡◌, ◌≤◌, length, IfSome};
ghost use Rattle.sisters_text.specs.Input.{boats_in};
ghost use Rattle.sisters_text.specs.Views.{values_of};

const TAB: u8 = 9;

const LINE_END: u8 = 10;

// The values of both boats, the first boat's before the second's: none where the lines have another form or number.
pub(crate) fn boat_lines(s: &[u8], n: usize) -> Option<[i64; 16]>
    requires { n ≤ 8 }
    ensures read { values_of n result ≡ boats_in n s.now }
    ensures whole { IfSome result (λ xs. length xs ≡ 16) }
{
    let mut values = [0; 16];
    let mut rest = s;
    // By the numeral's place, which says what byte ends it. Of the sixteen the first 2 · n are given: no library allocates.
    for a in 0..2 * n {
        let end = if (a + 1) % n == 0 { LINE_END } else { TAB };
        let (w, after) = codelist::field(rest, end)?;
        values[a] = w.value();
        rest = after;
    }
    rest.is_empty().then_some(values)
}

// The boat lines: eight numerals each, parted by tabs.
ghost use Rattle.std.specs.Prelude.{◌≡◌, [], ◌++◌, ◌∷◌, ◌<◌, ◌≤◌, length, MatchOption};
ghost use Rattle.fleet_text.specs.Input.{numbers, boat_lines};
ghost use Rattle.fleet_text.specs.Views.{numbers_read, boats_read};

use boats::Boat;
use std::marker::Model;

const TAB: u8 = 9;

const LINE_END: u8 = 10;

// The most boats of a page.
const MOST_BOATS: usize = 1000;

// The boats of a page. An array with a count: no library here allocates.
#[derive(Drop)]
pub(crate) struct Boats {
    boats: [Boat; 1000],
    count: usize,
}

// Clauses see the list of the boats.
impl Model for Boats {
    ghost use Rattle.std.specs.Prelude.{List, ◌≤◌, take};
    ghost use Rattle.boats.specs.declared.Boat.{Boat};

    ghost Value = { List Boat };

    ghost view = { λ b. take b.count b.boats };

    ghost invariant = { λ b. b.count ≤ 1000 };
}

impl Boats {
    fn new() -> Self
        ensures { result ≡ [] }
    {
        Boats {
            boats: [Boat { numbers: [0; 8] }; 1000],
            count: 0,
        }
    }

    // One boat more, or none where there are as many as a page may have.
    // As of the box lines of `text`: a struct over an array of a type parameter is not to be had.
    fn push(&mut self, boat: Boat) -> Option<()>
        ensures { MatchOption result (length self.old ≡ 1000) (λ _. (length self.old < 1000) × (self.new ≡ self.old ++ boat ∷ [])) }
    {
        if self.count == MOST_BOATS {
            return None;
        }
        self.boats[self.count] = boat;
        self.count += 1;
        Some(())
    }

    pub(crate) fn as_slice(&self) -> &[Boat]
        ensures same { result.now ≡ self.now }
        ensures few { length result.now ≤ 1000 }
    {
        &self.boats[..self.count]
    }
}

// A boat's line, and what follows it.
fn boat_line(s: &[u8]) -> Option<(Boat, &[u8])>
    ensures { numbers_read result ≡ numbers 8 [] s.now }
{
    let mut numbers = [0; 8];
    let mut rest = s;
    // By the numeral's place, which says what byte ends it.
    for a in 0..8 {
        let end = if a < 7 { TAB } else { LINE_END };
        let (w, after) = codelist::field(rest, end)?;
        numbers[a] = w.value();
        rest = after;
    }
    Some((Boat { numbers }, rest))
}

// The boats of the lines: none where a line has another form, or where there are more than 1,000.
pub(crate) fn boat_lines(s: &[u8]) -> Option<Boats>
    ensures { boats_read result ≡ boat_lines 1000 [] s.now }
{
    let mut boats = Boats::new();
    let mut rest = s;
    while !rest.is_empty() {
        let (boat, after) = boat_line(rest)?;
        boats.push(boat)?;
        rest = after;
    }
    Some(boats)
}

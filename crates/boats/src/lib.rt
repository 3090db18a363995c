// The fleet page (02, request 3): figures over the members' boats, each rated by the engine as a class of one point.
#![tactic(auto)]

ghost use Rattle.std.specs.Prelude.{◌≡◌};
ghost use Rattle.boats.specs.Boats.{numbers_of};
ghost use Rattle.boats.specs.Fleet.{number_of, place_of, fleet_of, fleet_of_numbers, in_full};

use engine::Engine;

mod page; // page.rt: the walk over the boats, in either form
mod rating; // rating.rt: the rating of one boat
mod totals; // totals.rt: the running total over the boats

// The most boats of a page.
const MOST_BOATS: usize = 1000;

// A boat of n factors is the first n of its numbers.
#[derive(Clone, Copy)]
pub struct Boat {
    pub numbers: [i64; 8],
}

// The figures: how many boats are accepted, how many are refused with 9, 11 and 12, the sums of the accepted boats' value ends, and the
// position, from 1, of the first boat with the greatest high end; 0, and not an option, if no boat is accepted: `greatest-none` says so of the page.
#[derive(Clone, Copy)]
pub struct Report {
    pub accepted: u64,
    pub range: u64,
    pub divisor: u64,
    pub limit: u64,
    pub low: i64,
    pub high: i64,
    pub greatest: u64,
}

// Why there is no report.
#[derive(Clone, Copy, PartialEq, Eq)]
pub enum Refusal {
    // 10: there is no codelist.
    NoCodelist,
    // 14: more than 1,000 boats, or an unfinished record.
    Boats,
}

impl Refusal {
    // The refusal's number.
    pub fn number(self) -> u8
        ensures { result ≡ number_of self }
    {
        match self {
            Refusal::NoCodelist => 10,
            Refusal::Boats => 14,
        }
    }

    // The refusal's place.
    pub fn place(self) -> u64
        ensures { result ≡ place_of self }
    {
        0
    }
}

// The page of records of eight numbers, one after another. 10 comes before 14, which an unfinished record gets too.
pub fn of_numbers(engine: Engine, numbers: &[i64]) -> Result<Report, Refusal>
    ensures { in_full result ≡ fleet_of_numbers engine numbers.now }
{
    let (records, rest) = numbers.as_chunks::<8>();
    if !rest.is_empty() && codelist::is_ratable(engine.codelist) {
        return Err(Refusal::Boats);
    }
    page::of_records(engine, records)
}

// The page of a lent list of boats.
pub fn of_boats(engine: Engine, boats: &[Boat]) -> Result<Report, Refusal>
    ensures { in_full result ≡ fleet_of engine (numbers_of boats.now) }
{
    page::of_records(engine, boats)
}

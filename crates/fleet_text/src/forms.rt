// The page by either form of the list of boats (01, "Forms and where they belong"): a flat slice of numbers, and a lent slice of structs.
ghost use Rattle.std.specs.Prelude.{◌≡◌, ◌≤◌, length};
ghost use Rattle.boats.specs.Boats.{numbers_of};
ghost use Rattle.boats.specs.Fleet.{fleet_of, in_full};
ghost use Rattle.fleet_text.specs.Views.{Flat};

use super::Form;
use boats::{Boat, Refusal, Report};
use engine::Engine;

// The numbers of the boats, one after another.
fn flat(boats: &[Boat]) -> [i64; 8000]
    requires { length boats.now ≤ 1000 }
    ensures { Flat (numbers_of boats.now) result }
{
    let mut numbers = [0; 8000];
    for (k, boat) in boats.iter().enumerate() {
        numbers[8 * k..8 * k + 8].copy_from_slice(&boat.numbers);
    }
    numbers
}

// The last of `times` answers, at least one: a page is made often to be measured.
fn last_of<T: Drop, F: Fn() -> T>(times: u64, page: F) -> T
    requires { F.IsAlwaysCallable page }
    ensures { F.post page result }
{
    let mut last = page();
    for _ in 1..times {
        last = page();
    }
    last
}

// The page by the form that is asked for. Numbers are laid out flat once.
#[tactic(auto, using(crate::proofs::Flat::flat_page))]
pub(crate) fn page_of(
    engine: Engine,
    boats: &[Boat],
    form: Form,
    times: u64,
) -> Result<Report, Refusal>
    requires { length boats.now ≤ 1000 }
    ensures { in_full result ≡ fleet_of engine (numbers_of boats.now) }
{
    match form {
        Form::Numbers => {
            let numbers = flat(boats);
            let end = 8 * boats.len();
            last_of(times, || boats::of_numbers(engine, &numbers[..end]))
        }
        Form::Structs => last_of(times, || boats::of_boats(engine, boats)),
    }
}

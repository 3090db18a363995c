// The class-limit engine for a program in C (02, requests 10 and 13): load and rate as two functions on lent bytes, by class number. Both return a refusal's
// number plus 100 times its place, or 0 where accepted; whatever the numbers and bytes are, there is an outcome, and each byte afterwards is known.
// A crate is a library or a static library, not both: `motmotdivan_c` exports the two to C under these names.
#![tactic(auto)]

ghost use Rattle.std.specs.Prelude.{◌≡◌, ◌≤◌, IfErr};
ghost use Rattle.motmotdivan.specs.Desk.{class_load_code, class_load_state, class_rate_code, class_rate_record};
ghost use Rattle.motmotdivan.specs.Views.{place_of, code_in, in_full, class_answer};

use codes::Refusal;
use rules::Limits;

mod codes; // codes.rt: why a call is refused, as one number
mod desk; // desk.rt: where the bytes of a class stand
mod doubles; // doubles.rt: doubles that are whole numbers, in eight bytes each
mod quote; // quote.rt: rating on the bytes of a class, up to the limits
mod record; // record.rt: the record of ranges and the record of a result

// Loads a codelist (02's sheet) from a text into the bytes of a class. Refused, all bytes are as before; the other classes' are in any case. A number that is
// no class's gets 21, and then a desk of another length 10.
pub fn motmotdivan_load(class: u64, state: &mut [u8], text: &[u8]) -> u64
    ensures value { result ≡ class_load_code class state.old text.now }
    ensures state_after { state.new ≡ class_load_state class state.old text.now }
{
    match load(class, state, text) {
        Ok(()) => 0,
        Err(refusal) => refusal.code(),
    }
}

fn load(class: u64, state: &mut [u8], text: &[u8]) -> Result<(), Refusal>
    ensures value { code_in result ≡ class_load_code class state.old text.now }
    ensures placed { IfErr result (λ r. place_of r ≤ 65) }
    ensures state_after { state.new ≡ class_load_state class state.old text.now }
{
    let at = desk::start_of(class, state.len())?;
    encoding::load(&mut state[at..at + encoding::LENGTH], text)?;
    Ok(())
}

// Rates the ranges, sixteen doubles, by the codelist of a class into the result, twenty-four doubles. After a refusal these are zeros; a result of another
// length is not written, and gets 8. A number that is no class's gets 21; of a desk of another length no bytes are the class's, so that it is empty.
pub fn motmotdivan_rate(class: u64, state: &[u8], ranges: &[u8], res: &mut [u8]) -> u64
    ensures value { result ≡ class_rate_code class state.now ranges.now res.old }
    ensures res_after { res.new ≡ class_rate_record class state.now ranges.now res.old }
{
    let rated = rate(class, state, ranges, res.len());
    if res.len() == record::RESULT_LENGTH {
        record::put_result(res, &rated.unwrap_or(Limits::ZERO));
    }
    match rated {
        Ok(_) => 0,
        Err(refusal) => refusal.code(),
    }
}

// The limits, for a result of so many bytes.
fn rate(class: u64, state: &[u8], ranges: &[u8], room: usize) -> Result<Limits, Refusal>
    ensures { in_full result ≡ class_answer class state.now ranges.now room }
{
    let at = desk::start_of(class, state.len())?;
    quote::quoted(&state[at..at + encoding::LENGTH], ranges, room)
}

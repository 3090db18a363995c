// The library for a program in C (02, requests 10 and 13): the two functions of `motmotdivan`, exported under their names by C's calling convention. The header
// include/motmotdivan.h declares them.
#![tactic(auto)]

ghost use Rattle.std.specs.Prelude.{◌≡◌};
ghost use Rattle.motmotdivan.specs.Desk.{class_load_code, class_load_state, class_rate_code, class_rate_record};

// `motmotdivan::motmotdivan_load`, with its clauses word for word.
#[unsafe(no_mangle)]
pub extern "C" fn motmotdivan_load(class: u64, state: &mut [u8], text: &[u8]) -> u64
    ensures value { result ≡ class_load_code class state.old text.now }
    ensures state_after { state.new ≡ class_load_state class state.old text.now }
{
    motmotdivan::motmotdivan_load(class, state, text)
}

// `motmotdivan::motmotdivan_rate`, with its clauses word for word.
#[unsafe(no_mangle)]
pub extern "C" fn motmotdivan_rate(class: u64, state: &[u8], ranges: &[u8], res: &mut [u8]) -> u64
    ensures value { result ≡ class_rate_code class state.now ranges.now res.old }
    ensures res_after { res.new ≡ class_rate_record class state.now ranges.now res.old }
{
    motmotdivan::motmotdivan_rate(class, state, ranges, res)
}

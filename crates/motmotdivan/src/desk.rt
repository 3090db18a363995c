// Where the bytes of a class stand on the desk: 512 after those of the classes before it.
ghost use Rattle.std.specs.Prelude.{◌≡◌, ◌+◌, ◌≤◌, IfOk};
ghost use Rattle.motmotdivan.specs.Views.{start_of};

use super::codes::Refusal;

// The bytes of a desk: those of four classes.
const LENGTH: usize = 2048;

// Where those of a class begin, on a desk of so many bytes. One of another length is empty.
pub(crate) fn start_of(class: u64, length: usize) -> Result<usize, Refusal>
    ensures value { result ≡ start_of class length }
    ensures upper_bound { IfOk result (λ at. at + 512 ≤ length) }
{
    if !classes::is_class(class) {
        return Err(Refusal::Class);
    }
    if length != LENGTH {
        return Err(Refusal::NoCodelist);
    }
    Ok((class - 1) as usize * encoding::LENGTH)
}

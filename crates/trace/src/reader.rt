// A reader: the caller's bytes, which it only borrows, and where it stands in them.
ghost use Rattle.std.specs.Prelude.{◌≡◌, ◌<◌, false, is_some};
ghost use Rattle.trace.specs.Layout.{opening};
ghost use Rattle.trace.specs.Reading.{IsBetweenEvents};

use crate::place::Place;

// It stands before the file until the contents are read, and then between two events of a file that opens. That its bytes stay
// what they were is a clause of each method that moves it: no fact of a type can say that a field stays as it was.
#[derive(Drop)]
pub struct Reader<'a> {
    pub(crate) bytes: &'a [u8],
    pub(crate) at: Place,
    ghost opened: { (0 < at.byte → is_some (opening bytes.now) ≡ false) },
    ghost between: { (0 < at.byte → IsBetweenEvents bytes.now at) },
}

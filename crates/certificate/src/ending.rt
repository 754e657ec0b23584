// How a certificate ends.

// What the last line of a certificate's text tells.
#[derive(Clone, Copy, PartialEq, Eq, Debug)]
pub enum Ending {
    // the file was read to its end, and none of its events races
    Clean,
    // it was read to its end, and races are listed
    NotClean,
    // a fault ended the run
    Refused,
}

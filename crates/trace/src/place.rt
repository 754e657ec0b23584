// Where a reader stands, and the guard that takes it back from an event that is refused.
ghost use Rattle.std.specs.Prelude.{◌≡◌, unwrap_or};

// The section of the last event taken (0 before the first), how many events were taken, and the next byte, which is 0 before
// the file is opened: what `Reader::place` answers is promised number by number, so there is no Option here.
#[derive(Clone, Copy, PartialEq, Eq, Debug)]
pub struct Place {
    pub section: usize,
    pub events: usize,
    pub byte: usize,
}

// Holds the reader's place while an event is read. At its end the place is put back, where there is one to go back to;
// an event is kept by taking that away.
pub struct Guard<'a> {
    pub at: &'a mut Place,
    pub back: Option<Place>,
}

impl Drop for Guard<'_> {
    fn drop(self)
        ensures { self.exit.0.now ≡ unwrap_or self.entry.back self.entry.at.now }
    {
        let Guard { at, back } = self;
        if let Some(place) = back {
            *at = place;
        }
    }
}

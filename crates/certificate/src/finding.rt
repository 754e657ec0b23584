// What a run finds: a thousand declined events at most.
use std::marker::Model;

// A declined event by its number in the file, the place of its race and the witness's serial.
#[derive(Clone, Copy, PartialEq, Eq, Debug)]
pub struct Finding {
    pub event: usize,
    pub place: u8,
    pub witness: u32,
}

// How many findings a run lists.
pub(crate) const MOST: usize = 1_000;

// The findings so far are the first `count` of the list. There is room for all, so that a run wants no memory.
#[derive(Drop)]
pub struct Findings {
    pub(crate) list: [Finding; MOST],
    pub(crate) count: usize,
}

impl Model for Findings {
    ghost use Rattle.std.specs.Prelude.{◌≤◌, List, take};
    ghost use Rattle.certificate.specs.declared.finding.Finding.{Finding as AFinding};

    ghost Value = { List AFinding };

    ghost view = { λ f. take f.count f.list };

    ghost invariant = { λ f. f.count ≤ 1000 };
}

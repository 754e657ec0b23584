// The set of holders of one slot.
ghost use Rattle.std.specs.Prelude.{◌≡◌};
ghost use Rattle.locksets.specs.Sets.{bit_of, or_bit, member, no_holder, with_holder, carried, Wide};

// A bit for each number below 256, so that every `u8` has one and no range needs a check here.
#[derive(Clone, Copy)]
pub struct LockSet {
    words: [u64; 4],
}

impl LockSet {
    pub fn empty() -> LockSet
        ensures { result ≡ no_holder }
    {
        LockSet { words: [0; 4] }
    }

    // The bit of the holder, 0 or 1.
    fn bit(&self, holder: u8) -> u64
        ensures { result ≡ bit_of self.now.words holder }
    {
        (self.words[(holder / 64) as usize] >> (holder % 64)) & 1
    }

    // Joins a bit, 0 or 1, to that of the holder.
    fn join_bit(&mut self, holder: u8, bit: u64)
        ensures words { self.new.words ≡ or_bit self.old.words holder bit }
        ensures wide { Wide self.old holder }
    {
        self.words[(holder / 64) as usize] |= bit << (holder % 64);
    }

    // Whether the holder is in the set.
    pub fn contains(&self, holder: u8) -> bool
        ensures { result ≡ member self.now holder }
    {
        self.bit(holder) == 1
    }

    // Adds the holder.
    pub fn insert(&mut self, holder: u8)
        ensures { self.new ≡ with_holder self.old holder }
    {
        self.join_bit(holder, 1);
    }

    // The set of one holder.
    pub fn only(holder: u8) -> LockSet
        ensures { result ≡ with_holder no_holder holder }
    {
        let mut set = LockSet::empty();
        set.insert(holder);
        set
    }

    // Adds `to` if `from` is in the set. The bit is copied without a branch: which sets have
    // `from` follows no pattern, and a pass does this to every slot.
    pub fn carry(&mut self, from: u8, to: u8)
        ensures set { self.new ≡ carried self.old from to }
        ensures wide { Wide self.old to }
    {
        let bit = self.bit(from);
        self.join_bit(to, bit);
    }
}

// Counts of answers, to compare and to print.
use crate::piles::PileAnswers;
use keepers::KeeperAnswer;

// How many answers there were of each kind.
#[derive(Clone, Copy, Default)]
pub struct Tally {
    pub done: usize,
    pub refused: usize,
    pub yes: usize,
    pub no: usize,
    pub counts: usize,
}

impl Tally {
    fn add(&mut self, answer: KeeperAnswer) {
        let count = match answer {
            KeeperAnswer::Done => &mut self.done,
            KeeperAnswer::Refused(_) => &mut self.refused,
            KeeperAnswer::Holds(true) => &mut self.yes,
            KeeperAnswer::Holds(false) => &mut self.no,
            KeeperAnswer::Passes(_) => &mut self.counts,
        };
        *count = count.saturating_add(1);
    }

    pub(crate) fn of(answers: &[KeeperAnswer]) -> Tally {
        let mut tally = Tally::default();
        for answer in answers {
            tally.add(*answer);
        }
        tally
    }
}

// How many answers stand in one list and not at the same place in the other.
pub(crate) fn unlike(a: &[KeeperAnswer], b: &[KeeperAnswer]) -> usize {
    let differ = a.iter().zip(b).filter(|(x, y)| x != y).count();
    differ.saturating_add(a.len().abs_diff(b.len()))
}

pub(crate) fn differences(answers: &PileAnswers) -> usize {
    let expected = answers.locksets.as_slice();
    [
        &answers.clocks,
        &answers.over_locksets,
        &answers.over_clocks,
        &answers.twice,
    ]
    .iter()
    .map(|pile| unlike(expected, pile.as_slice()))
    .fold(0, usize::saturating_add)
}

// Theorems about the judgement, each on the contract of a function that does nothing.
ghost use Rattle.std.specs.Prelude.{List};
ghost use Rattle.events.specs.declared.Event.{Event as AnEvent};
ghost use Rattle.order.specs.Examples.{AsWorked};
ghost use Rattle.order.specs.Judgement.{judge};
ghost use Rattle.order.specs.Verdicts.{Right};
ghost use Rattle.monitor.specs.Sound.{Sound};
ghost use Rattle.monitor.specs.Stands.{Stands};
ghost use Rattle.monitor.specs.Theorems.{OrderDecided, ReachedOrdered, SlotStands, OneRight, CommitPasses};

use crate::monitor::Monitor;
use keepers::Keeper;

// A record for which a monitor stands is sound, and the judgement on it is right for every event.
pub fn standing_is_sound<K: Keeper>(_monitor: &Monitor<K>)
    ensures { (rec : List AnEvent) → Stands rec _monitor.now → Sound rec × ((e : AnEvent) → Right rec e (judge rec e)) }
{}

// The test of order that computes decides whether a chain leads from one event to another.
pub fn order_is_decided()
    ensures { OrderDecided }
{}

// An access has reached a thread just if it is ordered before what that thread would read next.
pub fn reached_is_ordered()
    ensures { ReachedOrdered }
{}

// A write slot stands for the latest write of the life, and a read slot for its thread's latest read, if that is newer.
pub fn slots_stand_for_latest()
    ensures { SlotStands }
{}

// No two answers to an offered event are right.
pub fn one_answer_is_right()
    ensures { OneRight }
{}

// The ten worked examples are judged as they say.
pub fn examples_are_judged()
    ensures { AsWorked }
{}

// A commit makes twice as many passes as its two sets have places together.
pub fn commits_pass_twice()
    ensures { CommitPasses }
{}

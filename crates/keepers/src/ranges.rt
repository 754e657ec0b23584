// Whether a call is refused, as every keeper asks it first.
ghost use Rattle.std.specs.Prelude.{◌≡◌, ◌<◌, ◌≤◌, ◌&&◌, OnOk};
ghost use Rattle.keepers.specs.Meaning.{is_slot, is_holder, in_range, begin_answer, forget_answer, pass_at};

use crate::fault::KeeperFault;
use crate::limits::{HOLDERS, PASS_LIMIT, SLOTS, THREADS};

fn in_range(within: bool) -> Result<(), KeeperFault>
    ensures { result ≡ in_range within }
{
    if within {
        Ok(())
    } else {
        Err(KeeperFault::OutOfRange)
    }
}

#[tactic(auto, unfolding(crate::specs::Meaning::begin_answer))]
pub fn check_begin(slot: usize, thread: u8) -> Result<(), KeeperFault>
    ensures answer { result ≡ begin_answer slot thread }
    ensures within { OnOk result ((slot < 576) × (thread < 8)) }
{
    in_range(slot < SLOTS && thread < THREADS)
}

#[tactic(auto, unfolding(crate::specs::Meaning::forget_answer))]
pub fn check_forget(slot: usize) -> Result<(), KeeperFault>
    ensures answer { result ≡ forget_answer slot }
    ensures within { OnOk result (slot < 576) }
{
    in_range(slot < SLOTS)
}

pub fn check_pass(passes: u32, from: u8, to: u8) -> Result<(), KeeperFault>
    ensures answer { result ≡ pass_at passes from to }
    ensures within { OnOk result ((from < 136) × (to < 136) × (passes < 200000000)) }
{
    in_range(from < HOLDERS && to < HOLDERS)?;
    if passes < PASS_LIMIT {
        Ok(())
    } else {
        Err(KeeperFault::PassLimit)
    }
}

pub fn check_ask(slot: usize, holder: u8) -> Result<(), KeeperFault>
    ensures answer { result ≡ in_range (is_slot slot && is_holder holder) }
    ensures within { OnOk result ((slot < 576) × (holder < 136)) }
{
    in_range(slot < SLOTS && holder < HOLDERS)
}

// What the call in Rattle tells of a certificate of each ending, of the longest one, and of a buffer too short for that.
use crate::calls::Step;
use crate::files::written;
use crate::verdicts::RACE;
use certificate::{KeeperKind, LONGEST_TEXT, certify_into};
use events::Action;
use handmade::single;
use std::alloc::{AllocError, Global};

fn repeat(steps: &mut Vec<Step>, times: u32, step: Step) -> Result<(), AllocError> {
    for _ in 0..times {
        steps.push(step)?;
    }
    Ok(())
}

// 255 empty sections, and one in which 0 forks 1, reads and then writes under serial 10,000 what 1 reads a thousand and one
// times. So each number of its certificate has as many digits as it can have.
fn longest(heap: Global) -> anyhow::Result<Vec<u8>> {
    let mut steps = Vec::new(heap);
    repeat(&mut steps, 1, (0, Action::Fork { child: 1 }))?;
    repeat(&mut steps, 9_998, (0, Action::Read { place: 5 }))?;
    repeat(&mut steps, 1, (0, Action::Write { place: 15 }))?;
    repeat(&mut steps, 1_001, (1, Action::Read { place: 15 }))?;
    let mut counts = vec![in heap; 0usize; 255]?;
    counts.push(steps.len())?;
    written(heap, counts.as_slice(), steps.as_slice())
}

fn tell(
    rt: &HostRuntime,
    name: &str,
    file: &[u8],
    kind: KeeperKind,
    room: usize,
) -> anyhow::Result<()> {
    let mut out = vec![in rt.alloc(); 0u8; room]?;
    match certify_into(file, kind, out.as_mut_slice()) {
        Ok(told) => println!(rt; "{name}: {told:?}")?,
        Err(fault) => println!(rt; "{name}: {fault}")?,
    }
    Ok(())
}

pub(crate) fn endings(rt: &HostRuntime) -> anyhow::Result<()> {
    let clean = single(rt.alloc(), &[])?;
    let racing = single(rt.alloc(), &RACE)?;
    let long = longest(rt.alloc())?;
    tell(
        rt,
        "a clean file",
        clean.as_slice(),
        KeeperKind::Locksets,
        LONGEST_TEXT,
    )?;
    tell(
        rt,
        "a racing file",
        racing.as_slice(),
        KeeperKind::LayeredLocksets,
        LONGEST_TEXT,
    )?;
    tell(
        rt,
        "the longest certificate",
        long.as_slice(),
        KeeperKind::Clocks,
        LONGEST_TEXT,
    )?;
    tell(
        rt,
        "a byte less room for it",
        long.as_slice(),
        KeeperKind::LayeredClocks,
        LONGEST_TEXT - 1,
    )
}

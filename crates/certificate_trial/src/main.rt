// Certificates of trace files, sound and damaged, by every kind of keeper, and what the call does to its buffer.
#![tactic(auto)]

mod calls;
mod damaged;
mod endings;
mod failing;
mod files;
mod many;
mod rooms;
mod rules;
mod verdicts;

fn main(rt: HostRuntime) -> anyhow::Result<()> {
    verdicts::clean(&rt)?;
    verdicts::not_clean(&rt)?;
    rules::threads(&rt)?;
    rules::locks(&rt)?;
    damaged::before(&rt)?;
    damaged::at_events(&rt)?;
    damaged::behind(&rt)?;
    many::declines(&rt)?;
    rooms::rooms(&rt)?;
    endings::endings(&rt)?;
    failing::failing(&rt)
}

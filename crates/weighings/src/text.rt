// The text of the parts with the replies to their steps.
ghost use Rattle.std.specs.Prelude.{◌≡◌, drop, Some};
ghost use Rattle.weighings.specs.Texts.{part_text, demo_text};

use crate::steps::Part;
use crate::words::ReplyText;
use monitor::Reply;
use std::fmt;

// A part, and the replies from that to its first step on.
#[derive(Drop)]
struct PartText<'a> {
    part: &'a Part,
    replies: &'a [Reply],
}

impl fmt::Display for PartText<'_> {
    ghost output = { λ t. Some (part_text t.part.now t.replies.now) };

    fn fmt<W: fmt::Write>(&self, f: &mut fmt::Formatter<W>) -> fmt::Result {
        writeln!(f, "{}", self.part.title)?;
        for (step, reply) in self.part.steps.iter().zip(self.replies) {
            writeln!(f, "  {step} {}", ReplyText(*reply))?;
        }
        Ok(())
    }
}

// The replies after the first n.
fn after(replies: &[Reply], n: usize) -> &[Reply]
    ensures { result.now ≡ drop n replies.now }
{
    replies.get(n..).unwrap_or(&[])
}

// All parts, and the replies to all their steps.
#[derive(Drop)]
pub(crate) struct DemoText<'a> {
    pub(crate) parts: &'a [Part],
    pub(crate) replies: &'a [Reply],
}

impl fmt::Display for DemoText<'_> {
    ghost output = { λ t. Some (demo_text t.parts.now t.replies.now) };

    fn fmt<W: fmt::Write>(&self, f: &mut fmt::Formatter<W>) -> fmt::Result {
        let mut replies = self.replies;
        for part in self.parts {
            write!(f, "{}", PartText { part, replies })?;
            replies = after(replies, part.steps.len());
        }
        Ok(())
    }
}

// Calls for a certificate, and what they answer.
use crate::files::written;
use certificate::{LONGEST_TEXT, wickerheron_certify};
use events::Action;
use std::alloc::{AllocError, Global};
use std::fmt;
use std::str::from_utf8;

// What the buffer holds before a call.
const BEFORE: u8 = 170;

// A thread and what it does. An `Event` says the same; its fields' names would make the tables no plainer.
pub(crate) type Step = (u8, Action);

// The number that the call for C answers, and the buffer as the call leaves it. Kinds and answers are numbers there.
#[derive(PartialEq, Drop)]
pub(crate) struct Answer {
    pub(crate) number: i64,
    out: Vec<u8>,
}

// Calls with a buffer of so many bytes.
pub(crate) fn call(
    heap: Global,
    file: &[u8],
    kind: u32,
    room: usize,
) -> Result<Answer, AllocError> {
    let mut out = vec![in heap; BEFORE; room]?;
    let number = wickerheron_certify(file, kind, out.as_mut_slice());
    Ok(Answer { number, out })
}

impl Answer {
    // What is written, which is nothing where the answer is negative, and the bytes past it.
    pub(crate) fn parts(&self) -> (&[u8], &[u8]) {
        let length = usize::try_from(self.number).unwrap_or(0);
        let out = self.out.as_slice();
        out.split_at_checked(length).unwrap_or((out, &[]))
    }

    // Whether the bytes past the text are as they were.
    pub(crate) fn kept(&self) -> bool {
        let (_, rest) = self.parts();
        rest.iter().all(|byte| *byte == BEFORE)
    }
}

// The text, or the negative answer.
impl fmt::Display for Answer {
    fn fmt<W: fmt::Write>(&self, f: &mut fmt::Formatter<W>) -> fmt::Result {
        let number = self.number;
        if number < 0 {
            return writeln!(f, "answer {number}");
        }
        let (text, _) = self.parts();
        match from_utf8(text) {
            Ok(text) => f.write_str(text),
            Err(_) => writeln!(f, "{number} bytes that are no text"),
        }
    }
}

// Says whether the other kinds of keeper bring the same answer and the same buffer.
pub(crate) fn compare(rt: &HostRuntime, file: &[u8], first: &Answer) -> anyhow::Result<()> {
    let mut agree = first.kept();
    for kind in 2..5 {
        if call(rt.alloc(), file, kind, LONGEST_TEXT)? != *first {
            println!(rt; "kind {kind} differs")?;
            agree = false;
        }
    }
    let word = if agree {
        "all kinds agree"
    } else {
        "not all is as it should be"
    };
    println!(rt; "{word}")?;
    Ok(())
}

// A file's certificate under its name.
pub(crate) fn show(rt: &HostRuntime, name: &str, file: &[u8]) -> anyhow::Result<()> {
    let answer = call(rt.alloc(), file, 1, LONGEST_TEXT)?;
    print!(rt; "{name}:\n{answer}")?;
    compare(rt, file, &answer)
}

// The certificate of a file of events, in sections of so many.
pub(crate) fn show_sections(
    rt: &HostRuntime,
    name: &str,
    counts: &[usize],
    steps: &[Step],
) -> anyhow::Result<()> {
    let file = written(rt.alloc(), counts, steps)?;
    show(rt, name, file.as_slice())
}

// The certificate of a file of events in one section.
pub(crate) fn show_steps(rt: &HostRuntime, name: &str, steps: &[Step]) -> anyhow::Result<()> {
    show_sections(rt, name, &[steps.len()], steps)
}

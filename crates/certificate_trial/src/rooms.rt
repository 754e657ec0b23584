// Buffers of several lengths, and kinds of keeper that there are not.
use crate::calls::call;
use crate::verdicts::RACE;
use certificate::LONGEST_TEXT;
use handmade::single;

// The kind, by the number that C gives it, and the room of each call; the text has 58 bytes.
const CALLS: [(u32, usize); 12] = [
    (1, 58),
    (2, 58),
    (3, 58),
    (4, 58),
    (1, 57),
    (4, 57),
    (1, 0),
    (1, 59),
    (2, 100),
    (0, 58),
    (5, 58),
    (u32::MAX, 0),
];

// What each call answers, and what the buffer then holds.
pub(crate) fn rooms(rt: &HostRuntime) -> anyhow::Result<()> {
    let file = single(rt.alloc(), &RACE)?;
    let whole = call(rt.alloc(), file.as_slice(), 1, LONGEST_TEXT)?;
    let (text, _) = whole.parts();
    for (kind, room) in CALLS {
        let answer = call(rt.alloc(), file.as_slice(), kind, room)?;
        let number = answer.number;
        let (front, rest) = answer.parts();
        let held = match front.len() {
            0 => "no text",
            _ if front == text => "the text",
            _ => "another text",
        };
        let past = rest.len();
        let word = if answer.kept() { "kept" } else { "changed" };
        println!(rt; "kind {kind} room {room}: {number}, {held}, {past} bytes past it {word}")?;
    }
    Ok(())
}

// The caller's buffer, which is filled from its front.
ghost use Rattle.std.specs.Prelude.{length};
ghost use Rattle.trace.specs.Sheets.{Room, Adds};

// The buffer, and where the next bytes go. It is the caller's, of any length, since the writer takes no heap. The whole of it is
// held, and not what is left, since `write` promises all of it, what stands before `at` too.
#[derive(Drop)]
pub(crate) struct Sheet<'a> {
    pub(crate) out: &'a mut [u8],
    pub(crate) at: usize,
}

impl Sheet<'_> {
    // Copies the bytes into the buffer, behind what is there.
    pub(crate) fn put(&mut self, bytes: &[u8])
        requires { Room self.old (length bytes.now) }
        ensures { Adds self.old bytes.now self.new }
    {
        let end = self.at + bytes.len();
        let out = &mut *self.out;
        (&mut out[self.at..end]).copy_from_slice(bytes);
        self.at = end;
    }
}

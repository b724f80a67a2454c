// The reader's place while a line is read.
ghost use Rattle.std.specs.Prelude.{◌≡◌, ◌+◌, ◌<◌, true, if◌then◌else◌};

// Borrows the place. Unless the line was accepted, its drop puts the place back to the line's start.
pub(crate) struct LineGuard<'g> {
    pub(crate) place: &'g mut usize,
    pub(crate) start: usize,
    pub(crate) accepted: bool,
}

impl Drop for LineGuard<'_> {
    fn drop(self)
        ensures { self.exit.0.now ≡ (if self.entry.accepted then self.entry.place.now else self.entry.start) }
    {
        if !self.accepted {
            *self.place = self.start;
        }
        let LineGuard {
            place: _,
            start: _,
            accepted: _,
        } = self;
    }
}

impl LineGuard<'_> {
    // Accepts the line: the place stays, and the next line has the next number.
    pub(crate) fn accept(&mut self, number: &mut u16)
        requires { number.old < 65535 }
        ensures counted { number.new ≡ number.old + 1 }
        ensures accepted { self.new.accepted ≡ true }
        ensures stays { (self.new.place.now ≡ self.old.place.now) × (self.new.place.ghost_name ≡ self.old.place.ghost_name) }
    {
        *number += 1;
        self.accepted = true;
    }
}

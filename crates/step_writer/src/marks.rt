// The variables that an action has beside those of the task.
ghost use Rattle.std.specs.Prelude.{◌≡◌, ◌+◌, ◌<◌};
ghost use Rattle.probefile.specs.Probe.{max_variables};

// With n variables of the task, variable n is the semaphore, and n + 1 + a the marker of action a; a probe file has room for both.
#[derive(Clone, Copy)]
pub struct Marks {
    pub n: usize,
    pub a: usize,
    ghost inside: { n + (1 + a) < max_variables },
}

impl Marks {
    // The variable that is the marker.
    pub fn marker(self) -> usize
        ensures { result ≡ self.n + (1 + self.a) }
    {
        self.n + (1 + self.a)
    }
}

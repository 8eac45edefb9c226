ghost use Rattle.std.specs.Prelude.{◌≡◌, ◌-◌};

/// The ticks from `begin` up to, not including, `end`.
#[derive(Clone, Copy, Default, PartialEq, Eq)]
pub struct Part {
    pub begin: u32,
    pub end: u32,
}

impl Part {
    /// How many ticks the part has.
    pub fn ticks(&self) -> u32
        ensures { result ≡ self.now.end - self.now.begin }
    {
        self.end.saturating_sub(self.begin)
    }
}

ghost use Rattle.std.specs.Prelude.{◌≡◌, if◌then◌else◌, nat_lt};

/// The number of a rule and of one of its places.
#[derive(Clone, Copy, PartialEq, Eq, Debug)]
pub struct Label {
    pub rule: u32,
    pub place: u32,
}

impl Label {
    /// The label of a place of a rule, which has 0 for the rule's number at or above the count of its places.
    pub fn of(rule: u32, place: u32, count: u32) -> Label
        ensures { result ≡ (if nat_lt place count then record { rule = rule; place = place } else record { rule = 0; place = place }) }
    {
        Label {
            rule: if place < count { rule } else { 0 },
            place,
        }
    }
}

ghost use Rattle.piles.specs.Waive.{Waives};
ghost use Rattle.piles.specs.Waiver.{NotListed, listed};
ghost use Rattle.std.specs.Prelude.{◌≡◌, ◌↔◌, Contains, IsTrue, []};

use crate::fault::WaiverFull;
use crate::scope::Scope;
use crate::scoped::Scoped;
use crate::unlisted::Unlisted;
use arrayvec::ArrayVec;
use problem::problem::Problem;
use rules::rule::Rule;

/// A rule of which up to 16 places are waived.
pub type Waiver<R> = Scoped<R, Unlisted>;

impl Unlisted {
    /// The place is listed.
    fn lists(&self, place: u32) -> bool
        ensures { IsTrue result ↔ Contains self.now.places.items place }
    {
        self.places.contains(&place)
    }
}

impl Scope for Unlisted {
    ghost Covers = { λ s. NotListed s.places.items };

    fn covers<R: Rule>(&self, _rule: &R, _problem: &Problem, place: u32) -> bool {
        !self.lists(place)
    }
}

impl<R> Waiver<R> {
    /// The rule with none of its places waived.
    pub fn new(rule: R) -> Waiver<R>
        ensures rule { result.rule ≡ rule }
        ensures places { listed result ≡ [] }
    {
        let places = ArrayVec::new();
        Scoped {
            rule,
            scope: Unlisted { places },
        }
    }

    /// The place is listed.
    pub fn lists(&self, place: u32) -> bool
        ensures { IsTrue result ↔ Contains (listed self.now) place }
    {
        self.scope.lists(place)
    }

    /// Adds a place's number to the list, if it is not there yet.
    pub fn waive(&mut self, place: u32) -> Result<(), WaiverFull>
        ensures places { Waives (listed self.old) place (listed self.new) result }
        ensures rule { self.new.rule ≡ self.old.rule }
    {
        if self.lists(place) {
            return Ok(());
        }
        let places = &mut self.scope.places;
        places.try_push(place).map_err(|_| WaiverFull { place })
    }
}

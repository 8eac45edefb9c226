//! A rule of a buyer who wants something of each row by itself.
ghost use Rattle.std.specs.Prelude.{◌≡◌};

use rules::task_rule::TaskRule;
use table::placed::Placed;

/// Rule 101. Every row is on processor 0.
#[derive(Clone, Copy)]
pub(crate) struct OnProcessor0;

impl TaskRule for OnProcessor0 {
    const NUMBER: u32 = 101;

    ghost NUMBER = { 101 };

    ghost wanted = { λ _ _ _ row _. row.processor ≡ 0 };

    fn wants(&self, placed: &Placed<'_>) -> bool {
        placed.row.processor == 0
    }
}

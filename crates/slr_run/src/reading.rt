// What the steps of a run go by: a checked table, and what the book says of its productions.
ghost use Rattle.std.specs.Prelude.{◌≡◌, ℕ, ◌<◌};
ghost use Rattle.slr_run.specs.Checking.{columns_in};
ghost use Rattle.slr_run.specs.Stages.{setting_by, number_at, Grounds};

use crate::checking::columns_of;
use book::columns::Outline;

// A table whose numbers fit the book's T, N and P, and the left side and the length of each production: so few that the
// number of no reduction is `ACCEPT`.
#[derive(Drop)]
pub(crate) struct Machine<'t> {
    pub table: &'t [u16],
    pub outline: Outline,
    pub lefts: [u8; 256],
    pub lengths: [u8; 256],
    ghost few_productions: { outline.productions < 256 },
    ghost grounded: { ∥ Grounds outline table.now lefts ∥₁ },
}

impl<'t> Machine<'t> {
    ghost use Rattle.slr_run.specs.Machines.{machine_rows, machine_setting};

    // The machine of a checked table and of the productions that go with it.
    pub(crate) fn new(
        table: &'t [u16],
        outline: Outline,
        lefts: [u8; 256],
        lengths: [u8; 256],
    ) -> Self
        requires { Grounds outline table.now lefts }
        ensures outline { result.outline ≡ outline }
        ensures setting { (room cells : ℕ)
            → machine_setting result room cells ≡ setting_by outline lefts lengths table.now room cells }
    {
        Machine {
            table,
            outline,
            lefts,
            lengths,
        }
    }

    // The number in the cell of a state and a column.
    pub(crate) fn number(&self, state: u8, column: usize) -> u16
        requires { (state < machine_rows self.now) × (column < columns_in self.now.outline) }
        ensures { result ≡ number_at self.now.outline self.now.table.now state column }
    {
        self.table[state as usize * columns_of(self.outline) + column]
    }
}

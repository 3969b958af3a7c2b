// A table that 4, 5 and 6 let through, as a type of its own: who has one need not ask again. `Table::formed` makes it.

ghost use Rattle.std.specs.Prelude.{◌≡◌, ◌≤◌};
ghost use Rattle.table.specs.Verdicts.{Taken};
ghost use Rattle.table.specs.Form.{form_of};

use crate::Table;

#[derive(Clone, Copy)]
pub struct Formed {
    pub table: Table,
    ghost taken: { form_of table ≡ Taken },
    ghost some: { 1 ≤ table.n },
    ghost few: { table.n ≤ 16 },
}

// A scope table in which no record is broken: made where that is known, and lent by those that ask for it.
ghost use Rattle.table_records.specs.Facts.{IsOfChain};

use std::marker::Model;
use std::ops::DerefSlice;

// In a clause it is the list of its numbers. That none of their records is broken is known where a function hands it on as a slice of numbers, or names the field.
#[derive(Drop)]
pub struct Scopes<'a> {
    pub numbers: &'a [u32],
}

impl<'a> Model for Scopes<'a> {
    ghost use Rattle.std.specs.Prelude.{List, ℕ};
    ghost use Rattle.table_records.specs.Facts.{Chained};

    ghost Value = { List ℕ };

    ghost view = { λ s. s.numbers.now };

    ghost invariant = { λ s. Chained s.numbers.now };
}

impl DerefSlice for Scopes<'_> {
    type Elem = u32;

    ghost deref_gives = { λ ss numbers. IsOfChain ss numbers };

    fn deref(&self) -> &[u32] {
        self.numbers
    }
}

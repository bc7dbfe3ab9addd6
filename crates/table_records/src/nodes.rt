// A node table in which no node is out of place: made where that is known, and lent by those that ask for it.
ghost use Rattle.table_records.specs.Facts.{IsOfTree};

use std::marker::Model;
use std::ops::DerefSlice;

// Not `Copy`, since what derives that may have no `Model`. Functions that are called before the fact is known, or that are lent a rule, take the slice and
// make one where it is known.
// In a clause it is the list of its numbers. That they are a tree is known where a function hands it on as a slice of numbers, or names the field.
#[derive(Drop)]
pub struct Nodes<'a> {
    pub numbers: &'a [u32],
}

impl<'a> Model for Nodes<'a> {
    ghost use Rattle.std.specs.Prelude.{List, ℕ};
    ghost use Rattle.table_records.specs.Facts.{Tree};

    ghost Value = { List ℕ };

    ghost view = { λ s. s.numbers.now };

    ghost invariant = { λ s. Tree s.numbers.now };
}

impl DerefSlice for Nodes<'_> {
    type Elem = u32;

    ghost deref_gives = { λ ns numbers. IsOfTree ns numbers };

    fn deref(&self) -> &[u32] {
        self.numbers
    }
}

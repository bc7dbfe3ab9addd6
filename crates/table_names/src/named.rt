// A node table with the bytes of its names: made where it is known that each name lies within them, and lent by those that ask for it.
use std::marker::Model;
use table_records::nodes::Nodes;

// In a clause it is both lists. That each name lies within the bytes is known where a function names a field.
#[derive(Drop)]
pub struct NamedNodes<'a> {
    pub nodes: &'a Nodes<'a>,
    pub names: &'a [u8],
}

impl<'a> Model for NamedNodes<'a> {
    ghost use Rattle.table_records.specs.Facts.{Named};
    ghost use Rattle.table_names.specs.Name.{NamedTable};

    ghost Value = { NamedTable };

    ghost view = { λ t. record { nodes = t.nodes.now; names = t.names.now } };

    ghost invariant = { λ t. Named t.nodes.now t.names.now };
}

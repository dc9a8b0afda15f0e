// The Normalized Path of a node (RFC 9535, section 2.7): the public operation that writes it into a lent room.
//
// A path is found upwards, from the node to the root, by the parents that the records name: once for its length, and once more to write it, from its last byte to
// its first. Nothing is kept on the way.
//
//   escapes    how long a key and an index are in a path
//   writing    their bytes, each before those that are written already
//   climb      the steps from a node up to the root

#![tactic(auto)]

ghost use Rattle.std.specs.Prelude.{◌≡◌};
ghost use Rattle.definition.specs.Paths.{path_outcome};
ghost use Rattle.table_laws.specs.Accepted.{Accepted};
ghost use Rattle.table_path.specs.Outcomes.{told, ToldIn};

use table::TableRefusal;
use table::records::RECORD;

mod climb;
mod escapes;
mod writing;

// Why no path is written.
#[derive(Clone, Copy)]
pub enum PathRefusal {
    // Refusals 9, 10 and 17: what the check of the table finds.
    Table(TableRefusal),
    // Refusal 15: there is no such node.
    NoNode,
    // Refusal 16: the path has so many bytes, and the room has less.
    SmallRoom(usize),
}

impl From<TableRefusal> for PathRefusal {
    ghost use Rattle.table_path.specs.declared.PathRefusal.TheVariants.{Table};

    ghost from_gives = { λ refusal given. given ≡ Table refusal };

    fn from(refusal: TableRefusal) -> PathRefusal {
        PathRefusal::Table(refusal)
    }
}

// The path of a node of an accepted table, in the first bytes of the room, and how many there are.
fn path_in(table: &[u8], text: &[u8], node: usize, room: &mut [u8]) -> Result<usize, PathRefusal>
    requires { Accepted table.now text.now }
    ensures { ToldIn table.now text.now node room.old result room.new }
{
    if table.len() / RECORD <= node {
        return Err(PathRefusal::NoNode);
    }
    let size = climb::path_length(table, text, node);
    if room.len() < size {
        return Err(PathRefusal::SmallRoom(size));
    }
    climb::write_path(table, text, node, room, size);
    Ok(size)
}

// The same for any table. With every refusal the room stays as it was.
pub fn path_of_node(
    table: &[u8],
    text: &[u8],
    node: usize,
    room: &mut [u8],
) -> Result<usize, PathRefusal>
    ensures { told result room.new ≡ path_outcome table.now text.now node room.old }
{
    table::check_table(table, text)?;
    path_in(table, text, node, room)
}

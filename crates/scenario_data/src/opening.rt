//! The tables that the cabinets of a scenario open with.

ghost use Rattle.std.specs.Prelude.{◌≡◌};
ghost use Rattle.sig_tables.specs.Putting.{EachFits};
ghost use Rattle.scenario_data.specs.Content.{CabinetContent, cabinet_content};
ghost use Rattle.scenario_data.specs.Opening.{base_tables, opening_tables};

use crate::scenario::{Base, Cabinet};
use sig_tables::Tables;

/// The standard tables of a name.
fn base_tables(base: Base) -> Tables
    ensures { result ≡ base_tables base }
{
    match base {
        Base::Std8 => Tables::std8(),
        Base::Max8 => Tables::max8(),
    }
}

/// The tables that a cabinet opens with: its base, with its cells put in order. Takes no memory.
pub fn opening_tables(cabinet: &Cabinet) -> Tables
    ensures { result ≡ opening_tables (cabinet_content cabinet.now) }
{
    let mut tables = base_tables(cabinet.base);
    tables.put_each(cabinet.cells.as_slice());
    tables
}

/// A law: each cell of the tables that a cabinet opens with holds an allowed value, whatever its cells say.
pub fn opening_tables_in_range()
    ensures { (c : CabinetContent) → EachFits (opening_tables c) }
{}

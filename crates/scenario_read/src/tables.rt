//! The consistency rules that the tables must keep with which the cabinets of a scenario open.

ghost use Rattle.std.specs.Prelude.{◌≡◌, ◌≤◌, map, length};
ghost use Rattle.scenario_data.specs.Content.{cabinet_content};
ghost use Rattle.scenario_read.specs.Faults.{table_faults, all_table_faults};
ghost use Rattle.scenario_read.specs.Readers.{Answers};

use rule_book::judge;
use scenario_data::{Cabinet, ReadFail, Refusal, opening_tables};

/// Refuses the first rule that the opening tables of a cabinet break; cabinets are counted from 1.
fn judged(number: u32, cabinet: &Cabinet) -> Result<(), ReadFail>
    ensures { Answers result (table_faults number (cabinet_content cabinet.now)) (λ _. Unit {0}) }
{
    let tables = opening_tables(cabinet);
    match judge(&tables, &tables, false) {
        Ok(()) => Ok(()),
        Err(broken) => Err(ReadFail::Refused(Refusal::Broken {
            cab: number,
            rule: broken.rule,
            row: broken.row,
        })),
    }
}

/// Refuses the first rule that the opening tables of the first cabinet break that breaks any, of at most 64 cabinets.
pub fn all_judged(cabinets: &Vec<Cabinet>) -> Result<(), ReadFail>
    requires { length cabinets.now.items ≤ 64 }
    ensures { Answers result (all_table_faults 1 (map cabinet_content cabinets.now.items)) (λ _. Unit {0}) }
{
    for place in 0..cabinets.len() {
        match judged(place as u32 + 1, &cabinets[place]) {
            Ok(()) => {}
            Err(fail) => return Err(fail),
        }
    }
    Ok(())
}

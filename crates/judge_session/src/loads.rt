//! The loads of a cabinet, in the order of the scenario.

ghost use Rattle.std.specs.Prelude.{◌≡◌, map, Option};
ghost use Rattle.std.specs.Option.{option_map};
ghost use Rattle.sig_tables.specs.Putting.{put_content};
ghost use Rattle.scenario_data.specs.Content.{ScenarioContent, load_content};
ghost use Rattle.judge_session.specs.Told.{load_told};

use scenario_data::LoadItem;

/// The cabinet's load with this number, counted from 1.
pub fn load_of(loads: &[LoadItem], cab: u32, id: u32) -> Option<&LoadItem>
    ensures { (s : ScenarioContent) → s.loads ≡ map load_content loads.now
        → option_map (λ l. map put_content l.now.cells.items) result ≡ load_told s cab id }
{
    if id == 0 {
        return None;
    }
    let mut left = id - 1;
    for load in loads {
        if load.cabinet == cab {
            if left == 0 {
                return Some(load);
            }
            left -= 1;
        }
    }
    None
}

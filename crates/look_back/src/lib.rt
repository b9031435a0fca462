//! What was seen of a cabinet in its last 4,096 frames and more, and the result of looking back over it: for how many
//! frames in a row something held. Frames that show and saw the same are kept as one run with a count, so that the
//! memory is flat and a tick at which nothing changes does little.
#![tactic(auto)]

mod calling;
mod counting;
mod cuts;
mod frame_history;
mod frame_runs;
mod lasting;
mod latched;
mod left;
mod long_counts;
mod reach;
mod readiness;
mod row;
mod sample;
mod shown;
mod staging;
mod times;
mod window;

pub use counting::Counting;
pub use cuts::Cut;
pub use frame_history::FrameHistory;
pub use frame_runs::{FrameRun, FrameRuns};
pub use latched::Latched;
pub use long_counts::LongCounts;
pub use reach::{reach_decides, times_are_in_reach};
pub use row::Row;
pub use sample::{Look, Sample};
pub use window::{Seen, Window};

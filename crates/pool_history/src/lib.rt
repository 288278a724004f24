// The grids of a texture's write history: one stamped by a write, all stamped again by a mip regeneration, all taken out.
#![tactic(auto)]

mod grids;
mod run;

pub use grids::{regenerate_grids, stamp_grid};
pub use run::{HistoryRun, Used, remove_grids};

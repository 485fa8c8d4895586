//! Drawings of a run for a page: the state diagram with the rows that were used, the tree of devices, and the map of resources as
//! bars.
#![tactic(auto)]

mod bars;
mod diagram;
mod holding;
mod legend;
mod names;
mod places;
mod rows;
mod run_rows;
mod scale;
mod shapes;
mod style;
mod tree;
mod used;

pub use bars::{map_change, resource_map, resource_table};
pub use device_ids::WantOfMemory;
pub use diagram::state_diagram;
pub use holding::{Holding, holdings};
pub use names::DriverNames;
pub use rows::{ROWS, Row, row_between};
pub use run_rows::{DeviceRows, RunRows};
pub use style::STYLE;
pub use tree::device_tree;
pub use used::Used;

//! What the bus steps of a machine go by, beside the chips.
use data_bus::Index;
use probe::Probe;

/// The probe, by whose counters a step is judged, and the index of the rack's pages, by which the chip is found that answers. Both go on by
/// each served step, and stay where one isn't.
#[derive(Debug, Drop)]
pub(crate) struct Bus {
    pub(crate) probe: Probe,
    pub(crate) index: Index,
}

// What a run is given.
use super::event_list::EventList;
use super::show_list::ShowList;
pub use console_spec::{At, End, Event};

/// What a run is given.
#[derive(Debug, Drop)]
pub struct Script {
    /// The power-on byte, 00 where the text has none.
    pub power: u8,

    /// When the run ends.
    pub end: End,

    /// The events in the order of the text.
    pub events: EventList,

    /// The frames to be shown, 1 to 600, in the order of the text. A frame can stand here more than once.
    pub shows: ShowList,
}

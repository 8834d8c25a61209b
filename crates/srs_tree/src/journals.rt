// Journals: lists of events.
use srs_num::Items;
use srs_path::Event;

/// Events, seen as the list of them.
pub type Journal = Items<Event>;

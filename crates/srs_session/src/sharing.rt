// Threads share scripts and pass transcripts on.
use srs_num::NoMemory;
use srs_tree::{Script, Segment, Transcript, Transcripts};

fn is_shared<T: Send + Sync>() {}

/// Threads may share scripts, and pass on what sessions were told: that it is compiled shows it.
pub fn shared() {
    is_shared::<Segment>();
    is_shared::<Script>();
    is_shared::<Result<Transcript, NoMemory>>();
    is_shared::<Result<Transcripts, NoMemory>>();
}

// The numbers that are said.
ghost use Rattle.std.specs.Prelude.{All};
ghost use Rattle.srs_cert.specs.Sayings.{reply_numbers, end_numbers, AreShort, IsSayable};

use srs_map::OrbitEnd;
use srs_tree::{Reply, Said, Transcript, Transcripts};

/// Each number that sessions were told has at most 64 bits, as the types of what is said keep. It
/// answers nothing: who calls it may cite its clause.
pub fn sayable(told: &Transcripts)
    ensures { All (All IsSayable) told.now }
{
    for i in 0..told.len() {
        sayable_session(told.get(i));
    }
}

fn sayable_session(told: &Transcript)
    ensures { All IsSayable told.now }
{
    for i in 0..told.len() {
        sayable_said(told.get(i));
    }
}

fn sayable_said(s: &Said)
    ensures { IsSayable s.now }
{
    match s {
        Said::At(round) => {
            let _round = *round;
        }
        Said::Version(number) => {
            let _number = *number;
        }
        Said::Point(r, reply) => {
            let _ = r.parts();
            sayable_reply(reply);
        }
        Said::Count(outcomes) => {
            let _outcomes = *outcomes;
        }
        Said::Polygon(_) => {}
        Said::Orbit(end) => sayable_end(*end),
    }
}

fn sayable_reply(reply: &Reply)
    ensures { AreShort (reply_numbers reply.now) }
{
    if let Reply::Outside(cycle) = reply {
        let _ = cycle.len();
    }
}

fn sayable_end(end: OrbitEnd)
    ensures { AreShort (end_numbers end) }
{
    match end {
        OrbitEnd::Zero(_steps) => {}
        OrbitEnd::Wide(_steps) => {}
        OrbitEnd::Loop(_start, _round) => {}
        OrbitEnd::Spent => {}
    }
}

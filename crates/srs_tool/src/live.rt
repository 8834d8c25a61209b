// The command `live`.
ghost use Rattle.std.specs.Prelude.{◌≡◌, ◌≤◌, ◌^◌, List, IfOk, length};
ghost use Rattle.srs_plane.specs.Polygons.{IsPolygon, region_of};
ghost use Rattle.srs_plane.specs.Regions.{HasPoint};
ghost use Rattle.srs_tree.specs.declared.sessions.Segment.{Segment};
ghost use Rattle.srs_crew.specs.Runs.{IsRun};
ghost use Rattle.srs_tool.specs.declared.commands.Command.TheVariants.{Live};
ghost use Rattle.srs_tool.specs.Words.{IsCrew};
ghost use Rattle.srs_tool.specs.Output.{IsLiveRunOf, Owes};

use crate::lines::refused;
use crate::output::Output;
use crate::status::Status;
use srs_cell::Cell;
use srs_crew::run_levels;
use srs_file::{Cert, FileErr, one_live_text, read_live};
use srs_num::NoMemory;
use srs_path::Limits;
use srs_plane::Vertices;
use srs_print::{put_live, sayable};
use srs_session::Gate;
use srs_text::Bytes;
use srs_tree::{Run, Script};
use std::alloc::Global;
use std::sync::Wait;
use std::thread::Threads;

/// The text of a live run over the polygon that the input spells, by so many workers and with its
/// sessions, or the refusal of the input. An `Err` is want of memory.
pub fn live<R: Threads + Wait + Sync, G: Gate>(
    rt: &R,
    alloc: Global,
    limits: &Limits,
    workers: u32,
    input: &[u8],
    gate: &G,
) -> Result<Output, NoMemory>
    requires crew { IsCrew workers }
    requires short { length input.now ≤ 2 ^ 20 }
    ensures { IfOk result (λ o. Owes (Live limits.now workers) input.now o.status o.text) }
{
    match read_live(alloc, input) {
        Ok((vertices, cell, script)) => {
            let text = live_run(rt, alloc, limits, workers, &vertices, cell, &script, gate)?;
            Ok(Output {
                status: Status::Done,
                text,
            })
        }
        Err(FileErr::At(line, slip)) => refused(alloc, line, slip),
        Err(FileErr::NoMemory) => Err(NoMemory),
    }
}

// The text of a live run over the polygon with this cell, and with these sessions.
fn live_run<R: Threads + Wait + Sync, G: Gate>(
    rt: &R,
    alloc: Global,
    limits: &Limits,
    workers: u32,
    vertices: &Vertices,
    cell: Cell,
    script: &Script,
    gate: &G,
) -> Result<Bytes, NoMemory>
    requires crew { IsCrew workers }
    requires polygon { IsPolygon vertices.now }
    requires region { cell ≡ region_of vertices.now }
    ensures { IfOk result (IsLiveRunOf vertices.now limits.now script.now) }
{
    // A cell has a point.
    let _ = cell.region();
    let run = run_levels(rt, alloc, cell, *limits, workers, script, gate)?;
    text_of(alloc, limits, vertices, &run)
}

// The text of the run.
fn text_of(
    alloc: Global,
    limits: &Limits,
    vertices: &Vertices,
    run: &Run,
) -> Result<Bytes, NoMemory>
    requires polygon { IsPolygon vertices.now }
    requires point { HasPoint (region_of vertices.now) }
    requires run { (script : List (List Segment)) ×
        IsRun (region_of vertices.now) limits.now script run.now }
    ensures { (script : List (List Segment)) →
        IsRun (region_of vertices.now) limits.now script run.now →
        IfOk result (IsLiveRunOf vertices.now limits.now script) }
{
    // Limits are within their ranges.
    let _ = limits.wits();
    let events = run.version.preorder(alloc)?;
    let cert = Cert::new(alloc, vertices.as_slice(), *limits, events)?;
    // What is made as a certificate is one, what is said is known by its text, and the text of a run
    // is that of no other.
    let _ = cert.events();
    sayable(&run.transcripts);
    one_live_text();
    let mut text = Bytes::new(alloc);
    match put_live(&mut text, run, &cert) {
        Ok(()) => Ok(text),
        Err(_) => Err(NoMemory),
    }
}

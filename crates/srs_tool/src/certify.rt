// The command `certify`.
ghost use Rattle.std.specs.Prelude.{◌≡◌, ◌≤◌, ◌^◌, IfOk, length};
ghost use Rattle.srs_plane.specs.Polygons.{IsPolygon, region_of};
ghost use Rattle.srs_cert.specs.Lives.{cert_of};
ghost use Rattle.srs_rounds.specs.Refined.{IsRefined};
ghost use Rattle.srs_tool.specs.declared.commands.Command.TheVariants.{Certify};
ghost use Rattle.srs_tool.specs.Output.{IsCertificateOf, Owes};

use crate::lines::refused;
use crate::output::Output;
use crate::status::Status;
use srs_cell::Cell;
use srs_file::{Cert, FileErr, read_polygon};
use srs_num::NoMemory;
use srs_path::Limits;
use srs_plane::{Vertex, Vertices};
use srs_print::put_cert;
use srs_rounds::rounds;
use srs_text::Bytes;
use srs_tree::Version;
use std::alloc::Global;

/// The certificate of the polygon that the input spells, or the refusal of the input. An `Err` is
/// want of memory.
pub fn certify(alloc: Global, limits: &Limits, input: &[u8]) -> Result<Output, NoMemory>
    requires { length input.now ≤ 2 ^ 20 }
    ensures { IfOk result (λ o. Owes (Certify limits.now) input.now o.status o.text) }
{
    match read_polygon(alloc, input) {
        Ok((vertices, cell)) => {
            let text = certificate(alloc, limits, &vertices, cell)?;
            Ok(Output {
                status: Status::Done,
                text,
            })
        }
        Err(FileErr::At(line, slip)) => refused(alloc, line, slip),
        Err(FileErr::NoMemory) => Err(NoMemory),
    }
}

// The certificate of the polygon with this cell.
fn certificate(
    alloc: Global,
    limits: &Limits,
    vertices: &Vertices,
    cell: Cell,
) -> Result<Bytes, NoMemory>
    requires polygon { IsPolygon vertices.now }
    requires region { cell ≡ region_of vertices.now }
    ensures { IfOk result (IsCertificateOf vertices.now limits.now) }
{
    // A cell has a point.
    let _ = cell.region();
    let (version, cert) = refine_polygon(alloc, limits, vertices.as_slice(), cell)?;
    // The cells aren't printed: their memory serves for the text.
    drop(version);
    let mut text = Bytes::new(alloc);
    match put_cert(&mut text, &cert) {
        Ok(()) => Ok(text),
        Err(_) => Err(NoMemory),
    }
}

/// The tree of the polygon with this cell, refined round by round, and its certificate. An `Err` is
/// want of memory for the two.
pub fn refine_polygon(
    alloc: Global,
    limits: &Limits,
    vertices: &[Vertex],
    cell: Cell,
) -> Result<(Version, Cert), NoMemory>
    requires polygon { IsPolygon vertices.now }
    requires region { cell ≡ region_of vertices.now }
    ensures refined { IfOk result
        (λ r. IsRefined (region_of vertices.now) limits.now r.0) }
    ensures certificate { IfOk result (λ r. r.1 ≡ cert_of vertices.now limits.now r.0) }
{
    // Limits are within their ranges.
    let _ = limits.wits();
    let version = rounds(alloc, cell, limits)?;
    let events = version.preorder(alloc)?;
    let cert = Cert::new(alloc, vertices, *limits, events)?;
    Ok((version, cert))
}

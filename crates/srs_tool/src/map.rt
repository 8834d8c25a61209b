// The command `map`.
ghost use Rattle.std.specs.Prelude.{◌≤◌, ◌^◌, IfOk, length};
ghost use Rattle.srs_plane.specs.Polygons.{region_of};
ghost use Rattle.srs_tree.specs.Tree.{outcome_at};
ghost use Rattle.srs_raster.specs.Maps.{IsMapText};
ghost use Rattle.srs_check.specs.Builds.{IsBuilt};
ghost use Rattle.srs_tool.specs.declared.commands.Command.TheVariants.{Map};
ghost use Rattle.srs_tool.specs.Words.{IsSide};
ghost use Rattle.srs_tool.specs.Output.{Owes};

use crate::lines::{bad, refused};
use crate::output::Output;
use crate::status::Status;
use srs_check::{Built, build};
use srs_file::{Cert, FileErr, read_cert};
use srs_num::NoMemory;
use srs_raster::map_text;
use srs_text::Bytes;
use srs_tree::Version;
use std::alloc::Global;

/// The map of the certificate that the input spells, with so many columns and rows, or its first
/// fault, or the refusal of the input. An `Err` is want of memory.
pub fn draw(alloc: Global, columns: u32, rows: u32, input: &[u8]) -> Result<Output, NoMemory>
    requires columns { IsSide columns }
    requires rows { IsSide rows }
    requires short { length input.now ≤ 2 ^ 27 }
    ensures { IfOk result (λ o. Owes (Map columns rows) input.now o.status o.text) }
{
    let cert = match read_cert(alloc, input) {
        Ok(cert) => cert,
        Err(FileErr::At(line, slip)) => return refused(alloc, line, slip),
        Err(FileErr::NoMemory) => return Err(NoMemory),
    };
    match build(alloc, &cert)? {
        Built::Valid(version, _) => {
            let text = map_of(alloc, &cert, &version, columns, rows)?;
            Ok(Output {
                status: Status::Done,
                text,
            })
        }
        Built::Bad(line, fault) => bad(alloc, line, &fault),
    }
}

// The map of the certificate, drawn from its version. An `Err` is want of memory.
fn map_of(
    alloc: Global,
    cert: &Cert,
    version: &Version,
    columns: u32,
    rows: u32,
) -> Result<Bytes, NoMemory>
    requires columns { IsSide columns }
    requires rows { IsSide rows }
    requires built { IsBuilt cert.now version.now }
    ensures { IfOk result (IsMapText (region_of cert.now.vertices) (outcome_at cert.now.events)
        cert.now.vertices columns rows) }
{
    // The vertices are those of a polygon.
    let _ = cert.events();
    map_text(alloc, version, cert.vertices(), columns, rows)
}

// The check of a certificate.
ghost use Rattle.std.specs.Prelude.{◌≡◌, IfOk};
ghost use Rattle.srs_plane.specs.Polygons.{IsPolygon, region_of};
ghost use Rattle.srs_check.specs.Faults.{IsChecked};
ghost use Rattle.srs_check.specs.Certified.{Certifies};
ghost use Rattle.srs_check.specs.Whole.{IsOfWhole, IsValid};

use crate::Checked;
use crate::tally::node_count;
use crate::walk::Walk;
use srs_cell::Cell;
use srs_cert::Cert;
use srs_num::NoMemory;
use srs_plane::{PolyErr, Vertex, polygon};
use std::alloc::Global;

/// Tests each node in preorder. `Valid` exactly where each proves itself; then the leaves partition
/// the polygon, each cut divides its cell, and each leaf inside or outside is sound. `Bad` has the
/// line and the fault of the first node that doesn't; it doesn't come where the events are those of
/// a whole history. Of a node that is left it says that the budget is spent or that there is no
/// grid line, and nothing of why its cell stays open. An `Err` is want of memory.
pub fn check(alloc: Global, c: &Cert) -> Result<Checked, NoMemory>
    ensures checked { IfOk result (IsChecked c.now) }
    ensures certified { IfOk result (Certifies c.now) }
    ensures whole { IsOfWhole c.now → IfOk result IsValid }
{
    let mut walk = Walk::of(alloc, root_of(alloc, c)?);
    let limits = c.limits();
    for i in 0..node_count(c) {
        let event = c.events().get(i as u64);
        let depth = event.path.len();
        walk.node(alloc, &limits, c.line(i), depth, event.outcome.as_ref())?;
    }
    Ok(walk.end(&limits))
}

// The cell of the polygon.
pub(crate) fn root_of(alloc: Global, c: &Cert) -> Result<Cell, NoMemory>
    ensures { IfOk result (λ cell. cell ≡ region_of c.now.vertices) }
{
    // The vertices are those of a polygon.
    let _ = c.events();
    polygon_cell(alloc, c.vertices())
}

/// The cell of the polygon with these vertices. An `Err` is want of memory.
pub fn polygon_cell(alloc: Global, vertices: &[Vertex]) -> Result<Cell, NoMemory>
    requires { IsPolygon vertices.now }
    ensures { IfOk result (λ cell. cell ≡ region_of vertices.now) }
{
    let region = match polygon(alloc, vertices) {
        Ok(region) => region,
        Err(PolyErr::NoMemory) => return Err(NoMemory),
        Err(_) => unreachable!(),
    };
    match Cell::of(alloc, region)? {
        Some(cell) => Ok(cell),
        None => unreachable!(),
    }
}

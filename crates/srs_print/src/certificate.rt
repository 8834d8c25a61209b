// The text of a certificate.
ghost use Rattle.std.specs.Prelude.{◌≡◌, ◌++◌, [], ◌∷◌, codes, OnOk, OnErr};
ghost use Rattle.std.specs.List.{flat_map};
ghost use Rattle.srs_cert.specs.Texts.{count_text, vertex_text, ring_text, limits_text, head_text};
ghost use Rattle.srs_cert.specs.Texts.{outcome_text};
ghost use Rattle.srs_cert.specs.Certificates.{outcomes_of, cert_text};
ghost use Rattle.srs_print.specs.Fronts.{StopsIn};

use crate::line::{put_count, put_line};
use crate::node::put_outcome;
use srs_cert::{Cert, word_of};
use srs_path::Limits;
use srs_plane::Vertex;
use srs_text::{Bytes, NoMemory};
use srs_tree::Journal;

/// Appends the text of the certificate. An `Err` is want of memory, and leaves a front of the text
/// behind what was there.
pub fn put_cert(out: &mut Bytes, c: &Cert) -> Result<(), NoMemory>
    ensures ok { OnOk result (out.new ≡ out.old ++ cert_text c.now) }
    ensures err { OnErr result (StopsIn out.old (cert_text c.now) out.new) }
{
    put_head(out, c.vertices(), &c.limits())?;
    put_nodes(out, c.events())?;
    out.extend(b"end\n")
}

// The outcomes of the events.
fn put_nodes(out: &mut Bytes, events: &Journal) -> Result<(), NoMemory>
    ensures ok { OnOk result (out.new ≡ out.old ++ flat_map outcome_text (outcomes_of events.now)) }
    ensures err { OnErr result
        (StopsIn out.old (flat_map outcome_text (outcomes_of events.now)) out.new) }
{
    for i in 0..events.len() {
        put_outcome(out, &events.get(i).outcome)?;
    }
    Ok(())
}

// All that stands before the tree.
pub(crate) fn put_head(
    out: &mut Bytes,
    vertices: &[Vertex],
    limits: &Limits,
) -> Result<(), NoMemory>
    ensures ok { OnOk result (out.new ≡ out.old ++ head_text vertices.now limits.now) }
    ensures err { OnErr result (StopsIn out.old (head_text vertices.now limits.now) out.new) }
{
    put_count(out, b"srs", 1)?;
    put_ring(out, vertices)?;
    put_limits(out, limits)
}

/// Appends the lines of the polygon with these vertices. An `Err` is want of memory, and leaves a
/// front of them behind what was there.
pub fn put_ring(out: &mut Bytes, vertices: &[Vertex]) -> Result<(), NoMemory>
    ensures ok { OnOk result (out.new ≡ out.old ++ ring_text vertices.now) }
    ensures err { OnErr result (StopsIn out.old (ring_text vertices.now) out.new) }
{
    put_count(out, b"polygon", vertices.len() as u64)?;
    put_vertices(out, vertices)
}

fn put_vertices(out: &mut Bytes, vertices: &[Vertex]) -> Result<(), NoMemory>
    ensures ok { OnOk result (out.new ≡ out.old ++ flat_map vertex_text vertices.now) }
    ensures err { OnErr result (StopsIn out.old (flat_map vertex_text vertices.now) out.new) }
{
    for v in vertices {
        put_vertex(out, v)?;
    }
    Ok(())
}

fn put_vertex(out: &mut Bytes, v: &Vertex) -> Result<(), NoMemory>
    ensures ok { OnOk result (out.new ≡ out.old ++ vertex_text v.now) }
    ensures err { OnErr result (StopsIn out.old (vertex_text v.now) out.new) }
{
    put_line(out, word_of(v.kind), &[v.p, v.q, v.d])
}

fn put_limits(out: &mut Bytes, limits: &Limits) -> Result<(), NoMemory>
    ensures ok { OnOk result (out.new ≡ out.old ++ limits_text limits.now) }
    ensures err { OnErr result (StopsIn out.old (limits_text limits.now) out.new) }
{
    let depth = limits.depth() as i64;
    let cells = limits.cells() as i64;
    let wits = limits.wits() as i64;
    put_line(out, b"limits", &[depth, cells, wits])
}

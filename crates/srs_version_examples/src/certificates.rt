// Certificates, as their texts spell them.
ghost use Rattle.std.specs.Prelude.{◌≡◌, IfOk};
ghost use Rattle.srs_plane.specs.Polygons.{region_of};

use srs_check::{Built, Counts, build};
use srs_file::{Cert, read_cert};
use srs_tree::Version;
use std::alloc::Global;
use std::test::Fail;

// The triangle (-1/8, 0), (0, -1/8), (1/8, 0): its parts above and below y = 0 are of two kinds each.
pub const SPLIT: &str =
    "srs 1\npolygon 3\nge -1 0 8\nge 0 -1 8\nge 1 0 8\nlimits 2 64 16\ncut 0 1 0\ncut 1 0 0\nin 5\nw -1 0 3\nw 0 -1 4\nw 0 0 0\nw 0 1 2\nw 1 0 1\nout 2 0 1\ncut 1 1 0\nin 9\nw -1 -1 5\nw -1 0 4\nw -1 1 3\nw 0 -1 5\nw 0 0 0\nw 0 1 3\nw 1 -1 5\nw 1 0 1\nw 1 1 2\nout 1 1\nend\n";

// The same without the edge from (-1/8, 0) to (0, -1/8).
pub const OPEN_EDGE: &str =
    "srs 1\npolygon 3\ngt -1 0 8\nge 0 -1 8\nge 1 0 8\nlimits 2 64 16\ncut 0 1 0\ncut 1 0 0\nin 5\nw -1 0 3\nw 0 -1 4\nw 0 0 0\nw 0 1 2\nw 1 0 1\nout 2 0 1\ncut 1 1 0\nin 9\nw -1 -1 5\nw -1 0 4\nw -1 1 3\nw 0 -1 5\nw 0 0 0\nw 0 1 3\nw 1 -1 5\nw 1 0 1\nw 1 1 2\nout 1 1\nend\n";

// The segment from (-1/8, 0) to (0, 0) is left.
pub const LEFT_SEGMENT: &str =
    "srs 1\npolygon 3\nge -1 0 8\nge 0 -1 8\nge 1 0 8\nlimits 2 64 16\ncut 0 1 0\ncut 1 0 0\nin 5\nw -1 0 3\nw 0 -1 4\nw 0 0 0\nw 0 1 2\nw 1 0 1\nleft depth cycle\ncut 1 1 0\nin 9\nw -1 -1 5\nw -1 0 4\nw -1 1 3\nw 0 -1 5\nw 0 0 0\nw 0 1 3\nw 1 -1 5\nw 1 0 1\nw 1 1 2\nout 1 1\nend\n";

// The part below y = 0 and x + y = 0 is left.
pub const LEFT_PART: &str =
    "srs 1\npolygon 3\nge -1 0 8\nge 0 -1 8\nge 1 0 8\nlimits 2 64 16\ncut 0 1 0\ncut 1 0 0\nin 5\nw -1 0 3\nw 0 -1 4\nw 0 0 0\nw 0 1 2\nw 1 0 1\nout 2 0 1\ncut 1 1 0\nin 9\nw -1 -1 5\nw -1 0 4\nw -1 1 3\nw 0 -1 5\nw 0 0 0\nw 0 1 3\nw 1 -1 5\nw 1 0 1\nw 1 1 2\nleft depth cycle\nend\n";

pub fn certificate(alloc: Global, text: &str) -> Result<Cert, Fail> {
    if text.len() > 65536 {
        Err("it is short")?;
    }
    match read_cert(alloc, text.as_bytes()) {
        Ok(cert) => Ok(cert),
        Err(_) => Err("it is a certificate")?,
    }
}

// The version of the certificate, and its counts.
pub fn built(alloc: Global, cert: &Cert) -> Result<(Version, Counts), Fail>
    ensures { IfOk result (λ p. p.0.region ≡ region_of cert.now.vertices) }
{
    match build(alloc, cert)? {
        Built::Valid(version, counts) => Ok((version, counts)),
        Built::Bad(_, _) => Err("each node proves itself")?,
    }
}

// The version of the certificate of this text.
pub fn version_of(alloc: Global, text: &str) -> Result<Version, Fail> {
    let (version, _) = built(alloc, &certificate(alloc, text)?)?;
    Ok(version)
}

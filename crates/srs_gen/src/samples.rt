// The polygon and the points of a seed.
ghost use Rattle.std.specs.Prelude.{◌≡◌, ◌<◌, ◌≤◌, ◌*◌, ◌^◌, IfOk};
ghost use Rattle.srs_plane.specs.Polygons.{IsPolygon};
ghost use Rattle.srs_gen.specs.Draws.{next_state, state_after};
ghost use Rattle.srs_gen.specs.Samples.{kind_by, vertex_from, point_from, points_from};
ghost use Rattle.srs_gen.specs.Samples.{made_vertices, made_points};

use crate::draws::Generator;
use srs_num::{Items, NoMemory, Pt};
use srs_plane::{Kind, Vertex};
use std::alloc::Global;

/// Points, seen as the list of them.
pub type Points = Items<Pt>;

/// A triangle of which the edges are drawn closed or open, and points that are drawn in the square
/// around it.
#[derive(Drop)]
pub struct Sample {
    pub vertices: [Vertex; 3],
    pub points: Points,
}

/// The triangle and the first `n` points of the seed `s`. An `Err` is want of memory.
pub fn made_sample(alloc: Global, s: u32, n: u32) -> Result<Sample, NoMemory>
    requires seed { s < 2 ^ 31 }
    requires few { n ≤ 10000 }
    ensures vertices { IfOk result (λ sample. sample.vertices ≡ made_vertices s) }
    ensures points { IfOk result (λ sample. sample.points ≡ made_points s n) }
    ensures polygon { IfOk result (λ sample. IsPolygon sample.vertices) }
{
    let mut draws = Generator::new(s);
    let vertices = vertices(&mut draws);
    let points = points(alloc, &mut draws, n)?;
    Ok(Sample { vertices, points })
}

// The vertices, whose kinds are the next three draws.
fn vertices(draws: &mut Generator) -> [Vertex; 3]
    ensures vertices { result ≡ made_vertices draws.old }
    ensures draws { draws.new ≡ state_after draws.old 3 }
{
    let left = vertex(draws, -1, 0);
    let low = vertex(draws, 1, -2);
    let high = vertex(draws, 1, 2);
    [left, low, high]
}

// The vertex at (p, q), whose kind is the next draw.
fn vertex(draws: &mut Generator, p: i64, q: i64) -> Vertex
    ensures vertex { result ≡ vertex_from draws.old p q }
    ensures draws { draws.new ≡ next_state draws.old }
{
    let kind = kind_of(draws.below(2));
    Vertex { p, q, d: 1, kind }
}

// Closed for 0, open for 1.
fn kind_of(draw: u32) -> Kind
    ensures { result ≡ kind_by draw }
{
    if draw == 0 { Kind::Ge } else { Kind::Gt }
}

// The points of the next 2 * `n` draws.
fn points(alloc: Global, draws: &mut Generator, n: u32) -> Result<Points, NoMemory>
    requires { n ≤ 10000 }
    ensures { IfOk result (λ points. points ≡ points_from draws.old n) }
{
    let mut points = Points::new(alloc);
    for _i in 0..n {
        if points.push(point(draws)).is_err() {
            return Err(NoMemory);
        }
    }
    Ok(points)
}

// The point of the next two draws.
fn point(draws: &mut Generator) -> Pt
    ensures point { result ≡ point_from draws.old }
    ensures draws { draws.new ≡ next_state (next_state draws.old) }
{
    let p = draws.below(129) as i64 - 64;
    let q = draws.below(257) as i64 - 128;
    let Some(r) = Pt::new(p, q, 64) else {
        unreachable!()
    };
    r
}

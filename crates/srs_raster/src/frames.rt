// What a map spans.
ghost use Rattle.std.specs.Prelude.{◌≡◌, ◌^◌, pos, neg_ℤ, ◌*ℤ◌, ◌≤ℤ◌};
ghost use Rattle.srs_num.specs.Points.{IsWithin};
ghost use Rattle.srs_plane.specs.Polygons.{IsPolygon};
ghost use Rattle.srs_plane.specs.Placed.{IsPlaced};
ghost use Rattle.srs_num.specs.Floor.{IsFloor, IsCeiling};
ghost use Rattle.srs_raster.specs.Frames.{scaled_by, IsFrame, IsNarrow, IsFloorOfLeast, IsCeilingOfGreatest};

use srs_num::{ceil_div, floor_div};
use srs_plane::Vertex;

// One of the two coordinates.
#[derive(Clone, Copy, Drop)]
pub(crate) enum Axis {
    X,
    Y,
}

// The ends of the map along the axes, in 64ths: whole numbers within 256.
#[derive(Clone, Copy, Drop)]
pub(crate) struct Frame {
    pub(crate) left: i64,
    pub(crate) right: i64,
    pub(crate) bottom: i64,
    pub(crate) top: i64,
}

// The least frame that holds the vertices.
pub(crate) fn frame_of(vs: &[Vertex]) -> Frame
    requires { IsPolygon vs.now }
    ensures frame { IsFrame vs.now result }
    ensures narrow { IsNarrow result }
{
    Frame {
        left: lowest(vs, Axis::X),
        right: highest(vs, Axis::X),
        bottom: lowest(vs, Axis::Y),
        top: highest(vs, Axis::Y),
    }
}

// The floor of 64 times the least coordinate.
fn lowest(vs: &[Vertex], axis: Axis) -> i64
    requires { IsPolygon vs.now }
    ensures floor { IsFloorOfLeast axis vs.now result }
    ensures narrow { IsWithin 256 result }
{
    let mut lowest = floor_at(&vs[0], axis);
    for v in vs {
        lowest = lowest.min(floor_at(v, axis));
    }
    lowest
}

// The ceiling of 64 times the greatest coordinate.
fn highest(vs: &[Vertex], axis: Axis) -> i64
    requires { IsPolygon vs.now }
    ensures ceiling { IsCeilingOfGreatest axis vs.now result }
    ensures narrow { IsWithin 256 result }
{
    let mut highest = ceiling_at(&vs[0], axis);
    for v in vs {
        highest = highest.max(ceiling_at(v, axis));
    }
    highest
}

// The floor of 64 times the vertex's coordinate.
fn floor_at(v: &Vertex, axis: Axis) -> i64
    requires { IsPlaced v.now }
    ensures floor { IsFloor (scaled_by axis v.now) v.now.d result }
    ensures narrow { IsWithin 256 result }
{
    floor_div(scaled(v, axis), v.d as i128) as i64
}

// The ceiling of 64 times the vertex's coordinate.
fn ceiling_at(v: &Vertex, axis: Axis) -> i64
    requires { IsPlaced v.now }
    ensures ceiling { IsCeiling (scaled_by axis v.now) v.now.d result }
    ensures narrow { IsWithin 256 result }
{
    ceil_div(scaled(v, axis), v.d as i128) as i64
}

// 64 times the vertex's coordinate times its denominator.
fn scaled(v: &Vertex, axis: Axis) -> i128
    requires { IsPlaced v.now }
    ensures value { result ≡ scaled_by axis v.now }
    ensures low { neg_ℤ (pos 256 *ℤ v.now.d) ≤ℤ result }
    ensures high { result ≤ℤ (pos 256 *ℤ v.now.d) }
    ensures sized { (pos 1 ≤ℤ v.now.d) × IsWithin (2 ^ 30) result }
{
    match axis {
        Axis::X => 64 * v.p as i128,
        Axis::Y => 64 * v.q as i128,
    }
}

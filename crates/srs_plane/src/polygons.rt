// Convex polygons.
ghost use Rattle.std.specs.Prelude.{◌≡◌, ◌≢◌, ◌+◌, ◌%◌, ◌<◌, ◌^◌, ◌≤◌, pos, ◌-ℤ◌, ◌*ℤ◌, ◌<ℤ◌, ◌↔◌};
ghost use Rattle.std.specs.Prelude.{length, IsTrue, IfOk, IfErr, OnOk};
ghost use Rattle.std.specs.Bool.{MatchBool};
ghost use Rattle.srs_num.specs.Points.{value, IsNear, IsWithin};
ghost use Rattle.srs_num.specs.Lines.{edge_form};
ghost use Rattle.srs_plane.specs.Polygons.{point_of, vertex_at, edge_at, HasSmallDenominator};
ghost use Rattle.srs_plane.specs.Polygons.{TurnsLeft, TurnsWrong, IsCounted, HaveSmallDenominators};
ghost use Rattle.srs_plane.specs.Polygons.{AreNear, IsPolygon, IsPolygonErr, region_of};
ghost use Rattle.srs_plane.specs.Placed.{IsPlaced};
ghost use Rattle.srs_plane.specs.Regions.{HasPoint};

use crate::{Half, Kind, Region};
use srs_num::{Form, NoMemory, Pt};
use std::alloc::Global;
use thiserror::Error;

/// The most vertices of a polygon.
pub const MOST_VERTICES: usize = 16;

/// The most that the denominator of a vertex may be.
pub const MOST_VERTEX_DENOMINATOR: i64 = 65536;

/// The corner `(p / d, q / d)` of a polygon; `kind` belongs to the edge from here to the next vertex.
#[derive(Clone, Copy, Debug, PartialEq, Eq, Drop)]
pub struct Vertex {
    pub p: i64,
    pub q: i64,
    pub d: i64,
    pub kind: Kind,
}

impl Vertex {
    /// Whether the denominator is 1 to `MOST_VERTEX_DENOMINATOR` and both coordinates are at most 4
    /// in magnitude. It takes no memory.
    pub fn is_placed(&self) -> bool
        ensures { IsTrue result ↔ IsPlaced self.now }
    {
        if !has_small_denominator(self) {
            return false;
        }
        is_near(self)
    }
}

/// Why a list of vertices is no polygon. Indices count from 0.
#[derive(Clone, Copy, Debug, PartialEq, Eq, Error)]
pub enum PolyErr {
    #[error("fewer than 3 vertices")]
    Few,
    #[error("more than 16 vertices")]
    Many,
    #[error("the denominator of vertex {0} isn't 1 to 65536")]
    Big(u32),
    #[error("vertex {0} is more than 4 away from an axis")]
    Far(u32),
    #[error("another vertex isn't to the left of the edge from vertex {0}")]
    Turn(u32),
    #[error("out of memory")]
    NoMemory,
}

/// The region of the convex polygon with these vertices, whose inside stands to the left of each
/// edge. The refusals stand in the order of `PolyErr`, each with the least index.
pub fn polygon(alloc: Global, vs: &[Vertex]) -> Result<Region, PolyErr>
    ensures ok { IfOk result (λ region. region ≡ region_of vs.now) }
    ensures polygon { OnOk result (IsPolygon vs.now) }
    ensures point { OnOk result (HasPoint (region_of vs.now)) }
    ensures err { IfErr result (λ e. IsPolygonErr vs.now e) }
{
    check_count(vs)?;
    check_denominators(vs)?;
    check_distances(vs)?;
    check_turns(vs)?;
    let region = region_inside(alloc, vs)?;
    Ok(region)
}

// The region of the polygon. An `Err` is want of memory.
fn region_inside(alloc: Global, vs: &[Vertex]) -> Result<Region, PolyErr>
    requires { IsPolygon vs.now }
    ensures ok { IfOk result (λ region. region ≡ region_of vs.now) }
    ensures err { IfErr result (λ e. IsPolygonErr vs.now e) }
{
    let halves = sides(alloc, vs)?;
    match Region::of(alloc, halves) {
        Ok(region) => Ok(region),
        Err(NoMemory) => Err(PolyErr::NoMemory),
    }
}

// 3 to `MOST_VERTICES` vertices.
fn check_count(vs: &[Vertex]) -> Result<(), PolyErr>
    ensures ok { OnOk result (IsCounted vs.now) }
    ensures err { IfErr result (λ e. IsPolygonErr vs.now e) }
{
    if vs.len() < 3 {
        return Err(PolyErr::Few);
    }
    if vs.len() > MOST_VERTICES {
        return Err(PolyErr::Many);
    }
    Ok(())
}

// Each denominator is 1 to `MOST_VERTEX_DENOMINATOR`.
fn check_denominators(vs: &[Vertex]) -> Result<(), PolyErr>
    requires { IsCounted vs.now }
    ensures ok { OnOk result (HaveSmallDenominators vs.now (length vs.now)) }
    ensures err { IfErr result (λ e. IsPolygonErr vs.now e) }
{
    for i in 0..vs.len() {
        if !has_small_denominator(nth_vertex(vs, i)) {
            return Err(PolyErr::Big(i as u32));
        }
    }
    Ok(())
}

// Each vertex is near.
fn check_distances(vs: &[Vertex]) -> Result<(), PolyErr>
    requires counted { IsCounted vs.now }
    requires small { HaveSmallDenominators vs.now (length vs.now) }
    ensures ok { OnOk result (AreNear vs.now (length vs.now)) }
    ensures err { IfErr result (λ e. IsPolygonErr vs.now e) }
{
    for i in 0..vs.len() {
        if !is_near(nth_vertex(vs, i)) {
            return Err(PolyErr::Far(i as u32));
        }
    }
    Ok(())
}

// Each edge has all other vertices strictly to its left.
fn check_turns(vs: &[Vertex]) -> Result<(), PolyErr>
    requires counted { IsCounted vs.now }
    requires small { HaveSmallDenominators vs.now (length vs.now) }
    requires near { AreNear vs.now (length vs.now) }
    ensures ok { OnOk result (IsPolygon vs.now) }
    ensures err { IfErr result (λ e. IsPolygonErr vs.now e) }
{
    for i in 0..vs.len() {
        if !turns_left(vs, i) {
            return Err(PolyErr::Turn(i as u32));
        }
    }
    Ok(())
}

// Whether each other vertex is strictly to the left of the edge from vertex `i`.
fn turns_left(vs: &[Vertex], i: usize) -> bool
    requires there { i < length vs.now }
    requires small { HaveSmallDenominators vs.now (length vs.now) }
    requires near { AreNear vs.now (length vs.now) }
    ensures { MatchBool result (TurnsLeft vs.now i) (TurnsWrong vs.now i) }
{
    let edge = edge(vs, i);
    let next = (i + 1) % vs.len();
    for j in 0..vs.len() {
        if j != i && j != next && !is_left(&edge, nth_vertex(vs, j)) {
            return false;
        }
    }
    true
}

// The halves of the polygon, one an edge.
fn sides(alloc: Global, vs: &[Vertex]) -> Result<Vec<Half>, PolyErr>
    requires { IsPolygon vs.now }
    ensures ok { IfOk result (λ halves. halves.items ≡ region_of vs.now) }
    ensures err { IfErr result (λ e. IsPolygonErr vs.now e) }
{
    let mut halves = Vec::new(alloc);
    for i in 0..vs.len() {
        let from = nth_vertex(vs, i);
        let half = Half {
            form: edge(vs, i),
            kind: from.kind,
        };
        if halves.push(half).is_err() {
            return Err(PolyErr::NoMemory);
        }
    }
    Ok(halves)
}

// The form of the edge from vertex `i` to the next one.
fn edge(vs: &[Vertex], i: usize) -> Form
    requires there { i < length vs.now }
    requires small { HaveSmallDenominators vs.now (length vs.now) }
    requires near { AreNear vs.now (length vs.now) }
    ensures { result ≡ edge_at vs.now i }
{
    line(nth_vertex(vs, i), nth_vertex(vs, (i + 1) % vs.len()))
}

// The vertex number `i`.
fn nth_vertex(vs: &[Vertex], i: usize) -> &Vertex
    requires { i < length vs.now }
    ensures { result.now ≡ vertex_at vs.now i }
{
    &vs[i]
}

fn has_small_denominator(v: &Vertex) -> bool
    ensures { IsTrue result ↔ HasSmallDenominator v.now }
{
    1 <= v.d && v.d <= MOST_VERTEX_DENOMINATOR
}

fn is_near(v: &Vertex) -> bool
    requires { HasSmallDenominator v.now }
    ensures { IsTrue result ↔ IsNear (point_of v.now) }
{
    match Pt::new(v.p, v.q, v.d) {
        Some(r) => r.near(),
        None => false,
    }
}

// The form of the line from one vertex to another.
fn line(from: &Vertex, to: &Vertex) -> Form
    requires from { IsPlaced from.now }
    requires to { IsPlaced to.now }
    ensures { result ≡ edge_form (point_of from.now) (point_of to.now) }
{
    let a = minor(from.q, from.d, to.q, to.d);
    let b = minor(from.d, from.p, to.d, to.p);
    let c = minor(from.p, from.q, to.p, to.q);
    match Form::new(a, b, c) {
        Some(form) => form,
        None => unreachable!(),
    }
}

// `a * d - b * c`, for numbers of vertices.
fn minor(a: i64, b: i64, c: i64, d: i64) -> i64
    requires a { IsWithin (2 ^ 18) a }
    requires b { IsWithin (2 ^ 18) b }
    requires c { IsWithin (2 ^ 18) c }
    requires d { IsWithin (2 ^ 18) d }
    ensures value { result ≡ a *ℤ d -ℤ b *ℤ c }
    ensures size { IsWithin (2 ^ 37) result }
{
    a * d - b * c
}

// Whether the vertex is strictly to the left of the line.
fn is_left(line: &Form, v: &Vertex) -> bool
    requires { IsPlaced v.now }
    ensures { IsTrue result ↔ (pos 0 <ℤ value line.now (point_of v.now)) }
{
    value_at(line, v) > 0
}

// The value of the form at the vertex.
fn value_at(form: &Form, v: &Vertex) -> i64
    requires { IsPlaced v.now }
    ensures { result ≡ value form.now (point_of v.now) }
{
    let (a, b, c) = form.parts();
    a * v.p + b * v.q + c * v.d
}

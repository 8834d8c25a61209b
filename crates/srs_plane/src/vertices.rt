// Lists of vertices.
use crate::Vertex;
use srs_num::Items;

/// Vertices, seen as the list of them.
pub type Vertices = Items<Vertex>;

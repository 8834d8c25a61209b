// The laws of convex polygons.
ghost use Rattle.srs_plane.specs.Convexity.{CornersWeigh, CornersSpeak, VerticesSpeak, PolygonsHavePoints};

/// The corners speak for a triangle, and the vertices for a convex polygon: what is at least 0 at
/// each of them is at least 0 at each point of the closed polygon. And a convex polygon has a
/// point, also without its edges.
pub fn convexity()
    ensures weigh { CornersWeigh }
    ensures corners { CornersSpeak }
    ensures vertices { VerticesSpeak }
    ensures points { PolygonsHavePoints }
{}

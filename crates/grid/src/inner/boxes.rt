// Boxes: four points whose edges run along the axes, by turns. All their turns are known without a product.
ghost use Rattle.std.specs.Prelude.{◌≡◌};
ghost use Rattle.grid.specs.Domain.{Contour};
ghost use Rattle.grid.specs.Boxes.{along_x as along_x_of, along_y as along_y_of, by_turns as by_turns_of, four_by_turns as four_by_turns_of, box};
ghost use Rattle.grid.specs.inside.Edges.{Closed};

use crate::Edge;

// Whether an edge runs along the x axis.
fn along_x(u: Edge) -> bool
    ensures { result ≡ along_x_of u }
{
    u.dy == 0
}

// Whether it runs along the y axis.
fn along_y(u: Edge) -> bool
    ensures { result ≡ along_y_of u }
{
    u.dx == 0
}

// Whether four edges that lead back run along the axes, by turns, and none is still: the last two are as long as the first two.
fn by_turns(u: Edge, v: Edge, w: Edge, z: Edge) -> bool
    requires { Closed u v w z }
    ensures { result ≡ by_turns_of u v w z }
{
    along_x(u) & along_y(v) & along_x(w) & along_y(z) & !along_y(u) & !along_x(v)
}

// Whether the edges of a contour of four points run so, beginning along either axis.
fn four_by_turns(points: &[i32]) -> bool
    requires { Contour points.now 4 }
    ensures { result ≡ four_by_turns_of points.now }
{
    let ab = crate::inner::edge_at(points, 0, 1);
    let bc = crate::inner::edge_at(points, 1, 2);
    let cd = crate::inner::edge_at(points, 2, 3);
    let da = crate::inner::edge_at(points, 3, 0);
    by_turns(ab, bc, cd, da) || by_turns(bc, cd, da, ab)
}

// Whether a contour of n points is a box.
pub fn is_box(points: &[i32], n: usize) -> bool
    requires { Contour points.now n }
    ensures { result ≡ box points.now }
{
    n == 4 && four_by_turns(points)
}

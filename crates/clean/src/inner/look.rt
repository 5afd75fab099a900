// One look over a contour: whether it passes the verdict that goes with a rule, and from where a walk would begin.
ghost use Rattle.std.specs.Prelude.{◌≡◌, ◌<◌, ◌≤◌};
ghost use Rattle.grid.specs.Points.{points as points_of};
ghost use Rattle.grid.specs.Corners.{distinct_neighbours};
ghost use Rattle.grid.specs.Domain.{Contour};
ghost use Rattle.ring.specs.declared.Rule as R;
ghost use Rattle.ring.specs.Rule.{goes};
ghost use Rattle.ring.specs.inside.Rows.{FirstStand};
ghost use Rattle.clean.specs.Verdicts.{spike_free_distinct};
ghost use Rattle.clean.specs.inside.Looking.{Onward, LookedOver};

use grid::Edge;
use ring::Rule;

// Whether a contour passes its verdict, and how many of its vertices stand from the front.
#[derive(Clone, Copy)]
pub struct Look {
    pub passes: bool,
    pub standing: usize,
}

// Whether, equal neighbours skipped, three or more points remain and none of them is a spike, where so many are met
// and looked at before position start. Only where the way does not turn can an edge be still: it leads to an equal
// neighbour, and is passed over.
fn onward(points: &[i32], n: usize, first: usize, begun: Edge, met: usize, start: usize) -> bool
    requires { Contour points.now n × Onward points.now n first begun met start }
    ensures { result ≡ spike_free_distinct (distinct_neighbours (points_of points.now)) }
{
    let mut to = begun;
    let mut kept = met;
    for i in start..n {
        let from = grid::inner::edge_at(points, i - 1, i);
        if grid::inner::aligned(to, from) {
            if grid::still(from) {
                continue;
            }
            if grid::inner::backward(to, from) {
                return false;
            }
        }
        to = from;
        kept += 1;
    }
    let closing = grid::inner::edge_at(points, n - 1, first);
    3 <= kept && !grid::inner::reverses(to, closing)
}

// The same from the front. It is made anew for each call, which costs less than one on a few points.
#[inline(always)]
pub fn none_reverses(points: &[i32], n: usize) -> bool
    requires { Contour points.now n × (3 ≤ n) }
    ensures { result ≡ spike_free_distinct (distinct_neighbours (points_of points.now)) }
{
    let first = grid::inner::first_other(points, n);
    if first == n {
        return false;
    }
    let closing = grid::inner::edge_at(points, n - 1, first);
    onward(points, n, first, closing, 1, first + 1)
}

// The same where the first k vertices stand by the rule Spike, and are not looked at again.
fn none_reverses_after(points: &[i32], n: usize, k: usize) -> bool
    requires contour { Contour points.now n × (3 ≤ n) }
    requires k_lt_n { (k < n) × FirstStand (goes R.Rule.Spike points.now) n k }
    ensures { result ≡ spike_free_distinct (distinct_neighbours (points_of points.now)) }
{
    if k == 0 {
        return none_reverses(points, n);
    }
    let to = grid::inner::edge_at(points, k - 1, k);
    onward(points, n, 0, to, k + 1, k + 1)
}

// A contour is looked over once. Where all of it stands it passes; by the rule Collinear no other does. By the rule Spike
// one may pass that has equal neighbours: for its verdict the look goes on behind the first vertex that is to go.
pub fn look_over(rule: Rule, points: &[i32], n: usize) -> Look
    requires { Contour points.now n × (3 ≤ n) }
    ensures { LookedOver rule points.now n result }
{
    let standing = ring::inner::standing(rule, points, n);
    if standing == n {
        return Look {
            passes: true,
            standing,
        };
    }
    match rule {
        Rule::Collinear => Look {
            passes: false,
            standing,
        },
        Rule::Spike => Look {
            passes: none_reverses_after(points, n, standing),
            standing,
        },
    }
}

// The part of the points that a range names.
ghost use Rattle.std.specs.Prelude.{◌≡◌, ◌*◌, ◌≤◌, [], get_or, length};
ghost use Rattle.buffer.specs.Spans.{span};
ghost use Rattle.buffer.specs.inside.Ranges.{Names};
ghost use Rattle.rows.specs.Parts.{part};
ghost use Rattle.buffer.specs.Parts.{named as named_by};

// From point `start` to point `end`.
pub fn between<'a>(points: &'a [i32], start: usize, end: usize) -> &'a [i32]
    requires { (start ≤ end) × (2 * end ≤ length points.now) }
    ensures { part result ≡ named_by (part points.entry) (record { start = start; end = end }) }
{
    &points[2 * start..2 * end]
}

pub fn named<'a>(points: &'a [i32], ranges: &[[usize; 2]], k: usize) -> &'a [i32]
    requires { Names points.now ranges.now k }
    ensures { part result ≡ named_by (part points.entry) (span (get_or ranges.now k [])) }
{
    let [start, end] = ranges[k];
    between(points, start, end)
}

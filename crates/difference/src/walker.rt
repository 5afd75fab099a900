// A walker through a set: the caller's points, and the place that it has reached. What it hands out are parts of those points.
ghost use Rattle.std.specs.Prelude.{◌≡◌};
ghost use Rattle.rows.specs.Parts.{part};
ghost use Rattle.difference.specs.Walking.{handed};

#[derive(Clone, Copy)]
pub struct Walker<'a> {
    pub points: &'a [i32],
    pub place: usize,
}

impl<'a> Walker<'a> {
    // The contour from the place reached up to the end; the empty part at the front of the points where there is none.
    pub fn contour(self, end: usize) -> &'a [i32]
        ensures { part result ≡ handed (part self.entry.points) self.entry.place end }
    {
        if self.place <= end && end <= self.points.len() / 2 {
            return &self.points[2 * self.place..2 * end];
        }
        &self.points[..0]
    }
}

// What a walker that has reached a place hands out up to the end.
pub fn reached<'a>(points: &'a [i32], place: usize, end: usize) -> &'a [i32]
    ensures { part result ≡ handed (part points.entry) place end }
{
    Walker { points, place }.contour(end)
}

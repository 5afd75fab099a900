// A file, judged and drawn.
ghost use Rattle.std.specs.Prelude.{◌≡◌, ◌*◌, ◌≤◌, length};
ghost use Rattle.rows.specs.Rows.{front};
ghost use Rattle.buffer.specs.Sets.{joined};
ghost use Rattle.setfile.specs.Editions.{is_second};
ghost use Rattle.report.specs.Listing.{job};
ghost use Rattle.report.specs.inside.Lines.{Put, Listable};
ghost use Rattle.picture.specs.Frame.{sizes};
ghost use Rattle.picture.specs.Picture.{drawn, job_extent, shown, picture};
ghost use Rattle.picture.specs.inside.Parts.{Dotted};

use crate::NUMBERS;
use crate::inner::{frame, outlines, scale, spots};
use buffer::Sizes;
use report::inner::{listing, text};
use setfile::inner::{filling, head};

// Puts the picture of a file's n contours, which have these points.
fn put_drawn(second: bool, bytes: &[u8], n: usize, points: &[i32], text: &mut [u8]) -> usize
    requires dotted { Dotted second bytes.now n points.now }
    requires bytes_in_bounds { length (drawn (job_extent bytes.now) (sizes (job_extent bytes.now)) (shown bytes.now))
        ≤ length text.old }
    ensures { Put 0
        (drawn (job_extent bytes.now) (sizes (job_extent bytes.now))
        (shown bytes.now))
        text.old result text.new }
{
    let extent = frame::extent_of(points);
    let sizes = frame::sizes_of(extent);
    let second_part = frame::put_opening(text, extent, sizes);
    let third_part = outlines::put(second, bytes, n, points, text, second_part);
    let fourth_part = spots::put(second, bytes, n, points, text, third_part);
    scale::put_closing(text, fourth_part, sizes)
}

// Reads the points of a file of these sizes, and puts its picture.
fn put_job(second: bool, bytes: &[u8], file: Sizes, text: &mut [u8]) -> usize
    requires accepted { (second ≡ is_second bytes.now)
        × Listable second bytes.now file.contours
        × (2 * file.points ≡ length (joined (job bytes.now))) }
    requires bytes_in_bounds { length (drawn (job_extent bytes.now) (sizes (job_extent bytes.now)) (shown bytes.now))
        ≤ length text.old }
    ensures { Put 0
        (drawn (job_extent bytes.now) (sizes (job_extent bytes.now))
        (shown bytes.now))
        text.old result text.new }
{
    let n = file.contours;
    let mut points = [0i32; NUMBERS];
    filling::points(second, bytes, n, &mut points);
    put_drawn(second, bytes, n, &points[..2 * file.points], text)
}

// Puts the picture of a file, and answers how long it is.
pub fn draw(bytes: &[u8], text: &mut [u8]) -> usize
    requires { length (picture bytes.now) ≤ length text.old }
    ensures { (result ≡ length (picture bytes.now))
        × (text.new ≡ front (picture bytes.now) text.old) }
{
    let second = head::is_second(bytes);
    match listing::accept(second, bytes) {
        Ok(file) => put_job(second, bytes, file, text),
        Err(refusal) => text::put_line(text, 0, b"refused ", u64::from(refusal.number())),
    }
}

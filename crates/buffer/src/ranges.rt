// Ranges, each a start and an end, and when they are sound.
ghost use Rattle.std.specs.Prelude.{◌≡◌, map};
ghost use Rattle.buffer.specs.declared.ranges.Span.{Span};
ghost use Rattle.buffer.specs.Spans.{span, spans, sound as sound_of};

// A range as a struct, which lies in memory as a row of two numbers does.
#[repr(C)]
#[derive(Clone, Copy)]
pub struct Span {
    pub start: usize,
    pub end: usize,
}

// What is read as a span.
trait Range: Copy {
    ghost read: { Self → Span };

    fn span(self) -> Span
        ensures { result ≡ read self };
}

impl Range for [usize; 2] {
    ghost read = { span };

    fn span(self) -> Span {
        let [start, end] = self;
        Span { start, end }
    }
}

impl Range for Span {
    ghost read = { λ s. s };

    fn span(self) -> Span {
        self
    }
}

// Whether the spans name parts from 0 to the count, one behind the other.
fn all_sound<R: Range>(ranges: &[R], count: usize) -> bool
    ensures { result ≡ sound_of (map R.read ranges.now) count }
{
    let mut all = true;
    let mut at = 0;
    for range in ranges {
        let s = range.span();
        all &= (at == s.start) & (s.start <= s.end);
        at = s.end;
    }
    all & (at == count)
}

// Whether the ranges name parts from 0 to the count, one behind the other.
pub fn sound(ranges: &[[usize; 2]], count: usize) -> bool
    ensures { result ≡ sound_of (spans ranges.now) count }
{
    all_sound(ranges, count)
}

// The same, of ranges that are structs.
pub fn sound_spans(ranges: &[Span], count: usize) -> bool
    ensures { result ≡ sound_of ranges.now count }
{
    all_sound(ranges, count)
}

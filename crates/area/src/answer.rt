// The answer of an area function to C: its reply number, and the area, 0 where it is refused.
ghost use Rattle.std.specs.Prelude.{◌≡◌};

use replies::Refusal;

#[repr(C)]
#[derive(Clone, Copy)]
pub struct Area {
    pub reply: u32,
    pub value: i64,
}

impl From<Result<i64, Refusal>> for Area {
    ghost use Rattle.area.specs.Answers.{answered};

    ghost from_gives = { λ answer area. area ≡ answered answer };

    fn from(answer: Result<i64, Refusal>) -> Area {
        match answer {
            Ok(value) => Area { reply: 0, value },
            Err(refusal) => Area {
                reply: refusal.number(),
                value: 0,
            },
        }
    }
}

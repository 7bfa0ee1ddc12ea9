// Rectangles, objects and refusals: rect.rs, object.rs and error.rs as far as OC-SORT uses them.
#![tactic(auto)]

ghost use Rattle.std.specs.Prelude.{◌≡◌};
ghost use Rattle.object.specs.Object.{xyxy_of, rect_of, corners_of};
ghost use Rattle.object.specs.Refusal.{number_of, told_of, NoneIsZero};

// Left upper corner, width and height.
#[derive(Clone, Copy)]
pub struct Rect {
    pub x: f32,
    pub y: f32,
    pub width: f32,
    pub height: f32,
}

impl Rect {
    // The rectangle of these four numbers.
    pub fn new(x: f32, y: f32, width: f32, height: f32) -> Rect
        ensures { result ≡ record { x = x; y = y; width = width; height = height } }
    {
        Rect {
            x,
            y,
            width,
            height,
        }
    }

    // The corners x1, y1, x2, y2.
    pub fn get_xyxy(self) -> [f32; 4]
        ensures { result ≡ xyxy_of self }
    {
        [self.x, self.y, self.x + self.width, self.y + self.height]
    }

    // The rectangle with these corners.
    pub fn from_xyxy(x1: f32, y1: f32, x2: f32, y2: f32) -> Rect
        ensures { result ≡ rect_of x1 y1 x2 y2 }
    {
        Rect::new(x1, y1, x2 - x1, y2 - y1)
    }
}

// The corners of a box.
#[derive(Clone, Copy)]
pub struct Corners {
    pub x1: f32,
    pub y1: f32,
    pub x2: f32,
    pub y2: f32,
}

// An object as the tracker takes it in: its corners and its score.
#[derive(Clone, Copy)]
pub struct Detection {
    pub x1: f32,
    pub y1: f32,
    pub x2: f32,
    pub y2: f32,
    pub score: f32,
}

// Without its score.
impl From<Detection> for Corners {
    ghost from_gives = { λ d c. c ≡ corners_of d };

    fn from(d: Detection) -> Corners {
        Corners {
            x1: d.x1,
            y1: d.y1,
            x2: d.x2,
            y2: d.y2,
        }
    }
}

// A rectangle and its score.
#[derive(Clone, Copy)]
pub struct Object {
    pub rect: Rect,
    pub prob: f32,
}

impl Object {
    // The object with this rectangle and score.
    pub fn new(rect: Rect, prob: f32) -> Object
        ensures { result ≡ record { rect = rect; prob = prob } }
    {
        Object { rect, prob }
    }

    pub fn get_rect(self) -> Rect
        ensures { result ≡ self.rect }
    {
        self.rect
    }

    pub fn get_prob(self) -> f32
        ensures { result ≡ self.prob }
    {
        self.prob
    }
}

// Why a call was turned away.
#[derive(Clone, Copy, Debug, PartialEq, Eq)]
pub enum Refusal {
    // A state rule is broken.
    UnsoundState,
    // A setting is outside its range.
    BadSetting,
    // The input isn't whole objects of five numbers.
    RaggedFrame,
    // More than 64 objects.
    CrowdedFrame,
    // An answer buffer is too short.
    ShortAnswer,
    // The state already counts 1,000,000 frames.
    RunOver,
    // More tracks than the table holds.
    FullTable,
    // The assignment's sizes don't agree.
    BadMatrix,
    // A whole cost of the assignment is outside -1,000,000 to 1,000,000 (document 02, 2.3).
    CostOutOfRange,
}

// The number that a host is told.
impl From<Refusal> for u8 {
    ghost from_gives = { λ r n. n ≡ number_of r };

    fn from(r: Refusal) -> u8 {
        match r {
            Refusal::UnsoundState => 1,
            Refusal::BadSetting => 2,
            Refusal::RaggedFrame => 3,
            Refusal::CrowdedFrame => 4,
            Refusal::ShortAnswer => 5,
            Refusal::RunOver => 6,
            Refusal::FullTable => 7,
            Refusal::BadMatrix => 8,
            Refusal::CostOutOfRange => 12,
        }
    }
}

// The number that the caller of a call is told: 0 where nothing is refused.
pub fn told<T: Copy>(r: Result<T, Refusal>) -> u64
    ensures { result ≡ told_of r }
{
    match r {
        Ok(_) => 0,
        Err(refusal) => u64::from(u8::from(refusal)),
    }
}

// Does nothing, and ensures that no refusal has the number 0.
pub fn no_refusal_is_zero()
    ensures { NoneIsZero }
{}

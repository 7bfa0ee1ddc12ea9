// The lines of a track behind its first.
ghost use Rattle.std.specs.Prelude.{◌+◌, ◌≤◌, IfSome};

// What a line shows: the filter, the saved one, the last box, the list's box, the direction, the kept boxes, and the newest box,
// which is the last one.
#[derive(Clone, Copy)]
pub enum Part {
    X,
    P,
    SavedX,
    SavedP,
    Last,
    List,
    Direction,
    Kept0,
    Kept1,
    Kept2,
    Kept3,
    Kept4,
    Kept5,
    Kept6,
    Kept7,
    Newest,
}

// In the order of their lines.
pub const PARTS: [Part; 16] = [
    Part::X,
    Part::P,
    Part::SavedX,
    Part::SavedP,
    Part::Last,
    Part::List,
    Part::Direction,
    Part::Kept0,
    Part::Kept1,
    Part::Kept2,
    Part::Kept3,
    Part::Kept4,
    Part::Kept5,
    Part::Kept6,
    Part::Kept7,
    Part::Newest,
];

pub fn name(part: Part) -> &'static str {
    match part {
        Part::X => "x",
        Part::P => "p",
        Part::SavedX => "sx",
        Part::SavedP => "sp",
        Part::Last => "last",
        Part::List => "list",
        Part::Direction => "dir",
        Part::Kept0 => "kept0",
        Part::Kept1 => "kept1",
        Part::Kept2 => "kept2",
        Part::Kept3 => "kept3",
        Part::Kept4 => "kept4",
        Part::Kept5 => "kept5",
        Part::Kept6 => "kept6",
        Part::Kept7 => "kept7",
        Part::Newest => "newest",
    }
}

// Where numbers start among a track's, and how many they are.
#[derive(Clone, Copy)]
pub struct Place {
    pub from: usize,
    pub count: usize,
}

pub fn span(part: Part) -> Place
    ensures { result.from + result.count ≤ 163 }
{
    match part {
        Part::X => Place { from: 0, count: 7 },
        Part::P => Place { from: 7, count: 49 },
        Part::SavedX => Place { from: 56, count: 7 },
        Part::SavedP => Place {
            from: 63,
            count: 49,
        },
        Part::Last | Part::Newest => Place {
            from: 112,
            count: 5,
        },
        Part::List => Place {
            from: 117,
            count: 4,
        },
        Part::Direction => Place {
            from: 121,
            count: 2,
        },
        Part::Kept0 => Place {
            from: 123,
            count: 5,
        },
        Part::Kept1 => Place {
            from: 128,
            count: 5,
        },
        Part::Kept2 => Place {
            from: 133,
            count: 5,
        },
        Part::Kept3 => Place {
            from: 138,
            count: 5,
        },
        Part::Kept4 => Place {
            from: 143,
            count: 5,
        },
        Part::Kept5 => Place {
            from: 148,
            count: 5,
        },
        Part::Kept6 => Place {
            from: 153,
            count: 5,
        },
        Part::Kept7 => Place {
            from: 158,
            count: 5,
        },
    }
}

// The word of a track by which a line has numbers: `frozen` for the saved filter, else the tag of what the line shows. A filter
// always has.
pub fn tag_of(part: Part) -> Option<usize>
    ensures { IfSome result (λ tag. tag ≤ 14) }
{
    match part {
        Part::X | Part::P => None,
        Part::SavedX | Part::SavedP => Some(0),
        Part::Last | Part::Newest => Some(4),
        Part::List => Some(5),
        Part::Direction => Some(6),
        Part::Kept0 => Some(7),
        Part::Kept1 => Some(8),
        Part::Kept2 => Some(9),
        Part::Kept3 => Some(10),
        Part::Kept4 => Some(11),
        Part::Kept5 => Some(12),
        Part::Kept6 => Some(13),
        Part::Kept7 => Some(14),
    }
}

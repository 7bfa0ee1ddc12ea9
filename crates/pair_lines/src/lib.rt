// Answers to the comparison's lines that pair: objects with tracks, how often their shortcut runs, and by an assignment.
#![tactic(auto)]

ghost use Rattle.std.specs.Prelude.{◌≡◌, ◌≤◌, length, OnErr};

use mark_lines::{Matches, Unmarked, Untaken};
use matching::{Boxes, Detections, Marks, Motions};
use protocol::{Buffer, Fault, Words};

// Puts the answer to a line.
pub fn answer(word: &[u8], words: Words<'_>, out: &mut Buffer<'_>) -> Result<(), Fault>
    ensures { OnErr result (out.new ≡ out.old) }
{
    match word {
        b"assoc" => associate(words, out),
        b"shortcuts" => shortcuts(words, out),
        _ => lap_lines::answer(word, words, out),
    }
}

// `assoc ND NT` and the numbers: objects are paired with tracks as in the first round.
fn associate(mut words: Words<'_>, out: &mut Buffer<'_>) -> Result<(), Fault>
    ensures { OnErr result (out.new ≡ out.old) }
{
    let objects = words.size(64)?;
    let tracks = words.size(64)?;
    let mut numbers = [0.0f32; 1026];
    if words.fill(&mut numbers)? != 2 + objects * 5 + tracks * 11 {
        return Err(Fault::BadNumbers);
    }
    let all = marks_of(&numbers, objects, tracks);
    let marks = &all.at[..objects];
    out.put(Matches(marks));
    out.put(Unmarked(marks));
    out.put(Untaken { marks, tracks });
    Ok(())
}

// The marks by numbers that are the threshold, the inertia, the objects, the predicted boxes, the directions and the previous boxes.
fn marks_of(numbers: &[f32], nd: usize, nt: usize) -> Marks
    requires { (nd ≤ 64) × (nt ≤ 64) × (length numbers.now ≡ 1026) }
{
    let boxes = 2 + nd * 5;
    let directions = boxes + nt * 4;
    let previous = directions + nt * 2;
    assoc::associate(
        numbers[0],
        numbers[1],
        Detections {
            cells: &numbers[2..],
            n: nd,
        },
        Boxes {
            cells: &numbers[boxes..],
            n: nt,
        },
        Motions {
            directions: &numbers[directions..],
            previous: Detections {
                cells: &numbers[previous..],
                n: nt,
            },
        },
    )
}

// `shortcuts R C`
fn shortcuts(mut words: Words<'_>, out: &mut Buffer<'_>) -> Result<(), Fault>
    ensures { OnErr result (out.new ≡ out.old) }
{
    let rows: u32 = words.read()?;
    let columns: u32 = words.read()?;
    words.end()?;
    let tally = shortcut_counts::shortcuts(u64::from(rows), u64::from(columns));
    out.put_line(format_args!("{} {}", tally.shortcut, tally.assignment));
    Ok(())
}

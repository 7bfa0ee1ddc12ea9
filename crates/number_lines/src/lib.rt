// Answers to the comparison's lines on numbers: the float functions, boxes, matrices and the filter's steps.
#![tactic(auto)]

mod boxes;
mod filter;
mod matrices;
mod number;

ghost use Rattle.std.specs.Prelude.{◌≡◌, OnErr};

use protocol::{Buffer, Fault, Words};

// Puts the answer to a line.
pub fn answer(word: &[u8], words: Words<'_>, out: &mut Buffer<'_>) -> Result<(), Fault>
    ensures { OnErr result (out.new ≡ out.old) }
{
    match word {
        b"sqrt" => out.put_line(number::of_one(words, ieee::sqrt)?),
        b"acos" => out.put_line(number::of_one(words, ieee::acos)?),
        b"clamp" => out.put_line(number::of_one(words, |x| ieee::clamp(x, -1.0, 1.0))?),
        b"max" => out.put_line(number::of_two(words, ieee::max)?),
        b"min" => out.put_line(number::of_two(words, ieee::min)?),
        b"widen" => out.put_line(number::widened(words)?),
        b"measure" => boxes::measure(words, out)?,
        b"box" => boxes::corners(words, out)?,
        b"dir" => boxes::direction(words, out)?,
        b"iou" => out.put_line(boxes::overlap(words)?),
        b"inverse" => matrices::inverse(words, out)?,
        b"product" => matrices::product(words, out)?,
        b"predict" => out.put(filter::predicted(words)?),
        b"update" => out.put(filter::updated(words)?),
        b"replay" => out.put(filter::replayed(words)?),
        _ => return Err(Fault::NoSuchLine),
    }
    Ok(())
}

// Answers to the comparison's lines that ask for an assignment, by f64 costs, with the costs read (document 02, 2.12) or without, and
// by whole ones (2.3).
#![tactic(auto)]

mod pairs;

ghost use Rattle.std.specs.Prelude.{◌≡◌, OnErr};

use pairs::{Solved, paired};
use protocol::{Buffer, Fault, Words};

// Room for more costs than any n allows.
const COSTS: usize = 4352;

// Puts the answer to a line.
pub fn answer(word: &[u8], words: Words<'_>, out: &mut Buffer<'_>) -> Result<(), Fault>
    ensures { OnErr result (out.new ≡ out.old) }
{
    match word {
        b"lap" | b"lapreads" => out.put(paired(words, &mut [0.0f64; COSTS], |n, costs, x, y| {
            let solved = lapjv::lapjv(n, costs, x, y);
            Solved {
                outcome: solved.map(|_| ()),
                reads: (word == b"lapreads".as_slice()).then_some(solved.unwrap_or(0)),
            }
        })?),
        b"lapint" => out.put(paired(
            words,
            &mut [0i64; COSTS],
            |n, costs, x, y| Solved {
                outcome: lapint::lapint(n, costs, x, y),
                reads: None,
            },
        )?),
        _ => return Err(Fault::NoSuchLine),
    }
    Ok(())
}

// The lines on boxes.
ghost use Rattle.std.specs.Prelude.{◌≡◌, OnErr};

use object::Corners;
use protocol::{Bits, Buffer, Fault, Row, Words};

// The corners that the next four numbers are.
fn next_corners(words: &mut Words<'_>) -> Result<Corners, Fault> {
    let [x1, y1, x2, y2] = words.numbers::<4>()?;
    Ok(Corners { x1, y1, x2, y2 })
}

// The corners that a line's eight numbers are.
fn two_corners(mut words: Words<'_>) -> Result<(Corners, Corners), Fault> {
    let a = next_corners(&mut words)?;
    let b = next_corners(&mut words)?;
    words.end()?;
    Ok((a, b))
}

pub fn measure(mut words: Words<'_>, out: &mut Buffer<'_>) -> Result<(), Fault>
    ensures { OnErr result (out.new ≡ out.old) }
{
    let b = next_corners(&mut words)?;
    words.end()?;
    let z = strack::convert_bbox_to_z(b);
    out.put_line(Row(&[z.x, z.y, z.s, z.r]));
    Ok(())
}

pub fn corners(words: Words<'_>, out: &mut Buffer<'_>) -> Result<(), Fault>
    ensures { OnErr result (out.new ≡ out.old) }
{
    let [x, y, s, r] = words.all::<4>()?;
    let b = strack::convert_x_to_bbox(x, y, s, r);
    out.put_line(Row(&[b.x1, b.y1, b.x2, b.y2]));
    Ok(())
}

pub fn direction(words: Words<'_>, out: &mut Buffer<'_>) -> Result<(), Fault>
    ensures { OnErr result (out.new ≡ out.old) }
{
    let (a, b) = two_corners(words)?;
    let d = strack::speed_direction(a, b);
    out.put_line(Row(&[d.dy, d.dx]));
    Ok(())
}

pub fn overlap(words: Words<'_>) -> Result<Bits<f32>, Fault> {
    let (a, b) = two_corners(words)?;
    Ok(Bits(pair::overlap(a, b)))
}

//! Writing and reading undo each other.

ghost use Rattle.std.specs.Prelude.{◌≡◌, ◌<◌, length, MatchResult};
ghost use Rattle.refusals.specs.declared.refusal.Refusal.TheVariants.{ShortOutput};
ghost use Rattle.image.specs.Promises.{Rewrites, Unwritten};
ghost use Rattle.image.specs.Written.{written};
ghost use Rattle.image.specs.Reader.{means};

use crate::image::Image;
use crate::writing::write;
use refusals::Refusal;
use timetable::Timetable;

/// Writes a timetable into the output, and has the reader read it there: it means the same. Refused: `ShortOutput`,
/// and the reader is as it was.
pub fn copy<'a, T: Timetable>(
    t: &T,
    out: &'a mut [u8],
    reader: &mut Image<'a>,
) -> Result<(), Refusal>
    ensures { MatchResult result (λ _. means reader.new ≡ T.Means.meaning t.now) (λ e. (e ≡ ShortOutput (length (written (T.Means.meaning t.now)))) × (length out.old < length (written (T.Means.meaning t.now))) × (reader.new ≡ reader.old)) }
{
    let n = write(t, out)?;
    reader.open(&out[0..n])
}

/// Opens an image and writes it out again, at the front of the output: the same bytes. Answers their number; the
/// output behind them stays. Refused: what is wrong with the image first, then `ShortOutput`; the output is as it was.
pub fn rewrite(bytes: &[u8], out: &mut [u8]) -> Result<usize, Refusal>
    ensures { MatchResult result (λ n. Rewrites bytes.now out.old out.new n) (λ e. Unwritten bytes.now (length out.old) e × (out.new ≡ out.old)) }
{
    let image = Image::try_from(bytes)?;
    write(&image, out)
}

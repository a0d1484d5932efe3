//! Opening an image.

ghost use Rattle.std.specs.Prelude.{◌≡◌, Err, MatchResult};
ghost use Rattle.image.specs.Format.{opened, fault, Tells};
ghost use Rattle.image.specs.Promises.{Opens};
ghost use Rattle.image.specs.Reader.{means};

use super::Image;
use crate::body::Body;
use crate::header::Header;
use refusals::Refusal;

/// The first thing that is wrong with the bytes.
fn check(bytes: &[u8]) -> Result<(), Refusal>
    ensures { Tells (fault bytes.now) result }
{
    let header = Header::new(bytes)?;
    header.check_limits()?;
    let body = Body::new(&header)?;
    body.check_transfers()?;
    body.check_records()
}

/// A reader of the bytes, if they are an image: then the timetable is lawful, and written out it gives these bytes
/// again. Refused: what is wrong with them first. Takes one pass over the bytes.
impl<'a> TryFrom<&'a [u8]> for Image<'a> {
    type Error = Refusal;

    ghost try_from_gives = { λ bytes r. MatchResult r (λ x. Opens bytes.now (means x)) (λ e. opened bytes.now ≡ Err e) };

    #[tactic(auto, using(crate::proofs::Sound::lawful))]
    fn try_from(bytes: &'a [u8]) -> Result<Image<'a>, Refusal> {
        check(bytes)?;
        Ok(Image { bytes })
    }
}

impl<'a> Image<'a> {
    /// Reads the bytes from now on, if they are an image, as `try_from` does. Refused: what is wrong with them first,
    /// and the reader is as it was.
    pub fn open(&mut self, bytes: &'a [u8]) -> Result<(), Refusal>
        ensures { MatchResult result (λ _. Opens bytes.now (means self.new)) (λ e. (opened bytes.now ≡ Err e) × (self.new ≡ self.old)) }
    {
        *self = Image::try_from(bytes)?;
        Ok(())
    }
}

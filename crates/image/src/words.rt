//! Numbers of two bytes, the low one first, as they are read.

ghost use Rattle.std.specs.Prelude.{◌≡◌, ◌+◌, ◌<◌, length};
ghost use Rattle.image.specs.Format.{number};

/// The number at a byte.
pub(crate) fn word(bytes: &[u8], at: usize) -> u16
    requires { at + 1 < length bytes.now }
    ensures { result ≡ number bytes.now at }
{
    u16::from_le_bytes([bytes[at], bytes[at + 1]])
}

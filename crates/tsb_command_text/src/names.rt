//! Words that are names.
ghost use Rattle.std.specs.Prelude.{◌≡◌, bytes_eq};

/// Whether a word is this name. Names are short, so their bytes are compared here, one by one.
#[inline(always)]
pub(crate) fn is<const N: usize>(word: &[u8], name: &[u8; N]) -> bool
    ensures { result ≡ bytes_eq word.now name.now }
{
    if word.len() != N {
        return false;
    }
    for k in 0..N {
        if word[k] != name[k] {
            return false;
        }
    }
    true
}

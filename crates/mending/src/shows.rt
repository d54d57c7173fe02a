// Whether a record shows just some bytes.
ghost use Rattle.std.specs.Prelude.{◌≡◌, []};
ghost use Rattle.std.specs.Option.{option_copied, unwrap_or};
ghost use Rattle.record.specs.Words.{same};

use record::control::RECORD;

// The record could be read, and holds the bytes.
pub(crate) fn shows(shown: Option<&[u8; RECORD]>, bytes: &[u8; RECORD]) -> bool
    ensures { result ≡ same (unwrap_or (option_copied shown.entry) []) bytes.now }
{
    // No `is_some_and`: its proof did not close.
    let Some(page) = shown else {
        return false;
    };
    page.as_slice() == bytes.as_slice()
}

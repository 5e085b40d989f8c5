//! The log that words name.
ghost use Rattle.std.specs.Prelude.{◌≡◌, option_map};
ghost use Rattle.tsb_field.specs.Ends.{LogNamed, name_of};

use std::alloc::Global;
use tsb_log_text::Log;
use tsb_program::{Files, ReadError, RefusedLog, log_of};

/// The log that words name, or one without rows where they name none.
pub(crate) fn log_named<F: Files>(
    alloc: Global,
    files: &F,
    path: Option<&str>,
) -> Result<Log, ReadError<RefusedLog>>
    ensures { LogNamed result (F.bytes files.now) (option_map (λ path. path.now) path.entry) }
{
    match path {
        Some(path) => log_of(alloc, files, path),
        None => Ok(Log::empty(alloc)),
    }
}

/// The name of a file that words name, or none.
pub(crate) fn name_of(path: Option<&str>) -> &str
    ensures { result.now ≡ name_of (option_map (λ path. path.now) path.entry) }
{
    match path {
        Some(path) => path,
        None => "",
    }
}

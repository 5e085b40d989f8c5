//! A reader or a writer, and what became of its calls.
ghost use Rattle.std.specs.Prelude.{◌≡◌, false, true};

/// A reader or a writer. It is seen whether a call of it has failed, and whether what it took was passed on. Its calls
/// are made through this alone.
#[derive(Drop)]
pub struct Watched<D> {
    pub(crate) device: D,
    /// A read failed or was interrupted; or a write or a flush did, or a write took no byte.
    pub(crate) failed: bool,
    /// All that was written was passed on.
    pub(crate) flushed: bool,
}

impl<D> Watched<D> {
    /// A device of which no call was made.
    pub fn new(device: D) -> Watched<D>
        ensures device { result.device ≡ device }
        ensures failed { result.failed ≡ false }
        ensures flushed { result.flushed ≡ true }
    {
        Watched {
            device,
            failed: false,
            flushed: true,
        }
    }

    /// The device.
    pub fn device(&self) -> &D
        ensures { result.now ≡ self.now.device }
    {
        &self.device
    }

    /// Whether a call has failed or was interrupted, or a write took no byte.
    pub fn has_failed(&self) -> bool
        ensures { result ≡ self.now.failed }
    {
        self.failed
    }

    /// Whether all that was written was passed on.
    pub fn is_flushed(&self) -> bool
        ensures { result ≡ self.now.flushed }
    {
        self.flushed
    }
}

//! What holds of rows that say their zones, a law that is the contract of a function that does nothing.
ghost use Rattle.tsb_field_streams.specs.ZoneLaws.{ZonesAreSeen};

/// A row says its zone just where a zone follows the clock of its time: Z, an offset with its sign, or UTC.
///
/// Mistakes: the clock of UTC in place of that of a zone that no row can say (`would_be_unseen`).
/// Witness: `is_seen`, `has_zone_there` of ZoneMistakes.
pub fn zones_are_seen()
    ensures { ZonesAreSeen }
{}

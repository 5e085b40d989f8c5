//! Which channels lead to no input, and how they are named.
ghost use Rattle.std.specs.Prelude.{◌≡◌, ◌++◌, OnOk};
ghost use Rattle.tsb_field_streams.specs.Channels.{channel_name, channel_text, channels_from, channels_listed, channels_text, is_listed, is_same_channel, kind_name, more_channels, part_before, with_channel, with_new_channel};
ghost use Rattle.tsb_field_streams.specs.declared.filter.devices.TheConstants.{MOST_NAMED};

use super::devices::MOST_NAMED;
use itoa::Buffer;
use std::alloc::AllocError;
use tsb_field_log::InputKind;

/// A controller's channel of a kind of input.
#[derive(Clone, Copy, PartialEq, Eq)]
pub struct Channel {
    pub kind: InputKind,
    /// The controller's number.
    pub number: u32,
}

/// Channels that lead to no input and had an event.
#[derive(Clone, Copy, PartialEq, Eq)]
pub struct Channels {
    /// They themselves, in the order in which their events came; what is in the places from `count` on is none.
    pub first: [Channel; MOST_NAMED],
    /// How many are named, 8 at most.
    pub count: usize,
    /// Whether there are others beside those that are named.
    pub more: bool,
}

/// No channel.
pub(super) const NO_CHANNELS: Channels = Channels {
    first: [Channel {
        kind: InputKind::Vehicle,
        number: 0,
    }; MOST_NAMED],
    count: 0,
    more: false,
};

/// Channels, and one more event, which is of this one.
pub(super) fn with_channel(channels: Channels, channel: Channel) -> Channels
    ensures { result ≡ with_channel channels channel }
{
    if is_listed(&channels, channel) {
        channels
    } else {
        with_new_channel(channels, channel)
    }
}

/// Whether a channel is one of those that are named.
fn is_listed(channels: &Channels, channel: Channel) -> bool
    ensures { result ≡ is_listed channels.now channel }
{
    channels.first[..channels.count.min(MOST_NAMED)]
        .iter()
        .any(|it| is_same_channel(*it, channel))
}

/// Whether both are the same channel.
fn is_same_channel(a: Channel, b: Channel) -> bool
    ensures { result ≡ is_same_channel b a }
{
    a.kind == b.kind && a.number == b.number
}

/// Channels, and one that is not named: it is, while there is room.
fn with_new_channel(channels: Channels, channel: Channel) -> Channels
    ensures { result ≡ with_new_channel channels channel }
{
    if channels.count >= MOST_NAMED {
        return Channels {
            more: true,
            ..channels
        };
    }
    let mut first = channels.first;
    first[channels.count] = channel;
    Channels {
        first,
        count: channels.count + 1,
        more: channels.more,
    }
}

/// Adds the names of channels to a text, in parentheses, where there are any.
pub fn append_channels(text: &mut Vec<u8>, channels: &Channels) -> Result<(), AllocError>
    ensures { OnOk result (text.new.items ≡ text.old.items ++ channels_text channels.now) }
{
    if channels.count == 0 {
        Ok(())
    } else {
        append_list(text, channels)
    }
}

/// Adds the names of channels to a text, in parentheses.
fn append_list(text: &mut Vec<u8>, channels: &Channels) -> Result<(), AllocError>
    ensures { OnOk result (text.new.items ≡ text.old.items ++ channels_listed channels.now) }
{
    text.extend_from_slice(b" (")?;
    append_names(text, channels)?;
    text.extend_from_slice(more_channels(channels.more))?;
    text.extend_from_slice(b")")
}

/// What follows the names where there are more channels.
fn more_channels(more: bool) -> &'static [u8]
    ensures { result.now ≡ more_channels more }
{
    if more { b", .." } else { b"" }
}

/// Adds the names of the channels that are named.
fn append_names(text: &mut Vec<u8>, channels: &Channels) -> Result<(), AllocError>
    ensures { OnOk result (text.new.items ≡ text.old.items ++ channels_from channels.now 0 MOST_NAMED) }
{
    for place in 0..MOST_NAMED {
        append_channel(text, channels, place)?;
    }
    Ok(())
}

/// Adds the name of the channel in this place, where there is one.
fn append_channel(text: &mut Vec<u8>, channels: &Channels, place: usize) -> Result<(), AllocError>
    ensures { OnOk result (text.new.items ≡ text.old.items ++ channel_text channels.now place) }
{
    if place >= channels.count {
        return Ok(());
    }
    append_name(text, place, channels.first.get(place).copied())
}

/// Adds the name of the channel in this place, where there is one, and a comma before it where it is not the first.
fn append_name(text: &mut Vec<u8>, place: usize, channel: Option<Channel>) -> Result<(), AllocError>
    ensures { OnOk result (text.new.items ≡ text.old.items ++ channel_name place channel) }
{
    let Some(channel) = channel else {
        return Ok(());
    };
    let mut buffer = Buffer::new();
    text.extend_from_slice(part_before(place))?;
    text.extend_from_slice(kind_name(channel.kind))?;
    text.extend_from_slice(b" ")?;
    text.extend_from_slice(buffer.format(channel.number).as_bytes())
}

/// What parts a name from the one before it.
fn part_before(place: usize) -> &'static [u8]
    ensures { result.now ≡ part_before place }
{
    if place == 0 { b"" } else { b", " }
}

/// The name of a kind of input, as options have it.
fn kind_name(kind: InputKind) -> &'static [u8]
    ensures { result.now ≡ kind_name kind }
{
    match kind {
        InputKind::Vehicle => b"vehicle",
        InputKind::Pedestrian => b"pedestrian",
        InputKind::Preempt => b"preempt",
    }
}

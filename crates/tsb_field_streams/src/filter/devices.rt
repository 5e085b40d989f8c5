//! Which devices rows are of, and the line that names them.
ghost use Rattle.std.specs.Prelude.{◌≡◌, ◌++◌, OnOk};
ghost use Rattle.tsb_field_streams.specs.Devices.{are_several, device_text, devices_from, devices_line, devices_text, how_many_devices, is_named, is_same_device, more_devices, named_device, with_device, with_new_device};
ghost use Rattle.tsb_field_streams.specs.declared.filter.devices.TheConstants.{MOST_NAMED};

use crate::fault_lines::shown;
use itoa::Buffer;
use std::alloc::AllocError;
use tsb_event_text::{SHOWN, ShownField};

/// How many devices are named at most.
pub const MOST_NAMED: usize = 8;

/// Devices of rows, by the first 40 bytes of their names.
#[derive(Clone, Copy, PartialEq, Eq)]
pub struct Devices {
    /// Their names, in the order in which they came; what is in the places from `count` on is none.
    pub names: [ShownField; MOST_NAMED],
    /// How many are named, 8 at most.
    pub count: usize,
    /// Whether there are others beside those that are named.
    pub more: bool,
}

/// No device.
pub(super) const NO_DEVICES: Devices = Devices {
    names: [ShownField {
        bytes: [b' '; SHOWN],
        count: 0,
    }; MOST_NAMED],
    count: 0,
    more: false,
};

/// Devices, and one more row, which is of this one.
pub(super) fn with_device(devices: Devices, name: ShownField) -> Devices
    ensures { result ≡ with_device devices name }
{
    if is_named(&devices, name) {
        devices
    } else {
        with_new_device(devices, name)
    }
}

/// Whether a device is one of those that are named.
fn is_named(devices: &Devices, name: ShownField) -> bool
    ensures { result ≡ is_named devices.now name }
{
    devices.names[..devices.count.min(MOST_NAMED)]
        .iter()
        .any(|it| is_same_device(*it, name))
}

/// Whether both are the same device.
fn is_same_device(a: ShownField, b: ShownField) -> bool
    ensures { result ≡ is_same_device b a }
{
    a.count == b.count && a.bytes.as_slice() == b.bytes.as_slice()
}

/// Devices, and one that is not named: it is, while there is room.
fn with_new_device(devices: Devices, name: ShownField) -> Devices
    ensures { result ≡ with_new_device devices name }
{
    if devices.count >= MOST_NAMED {
        return Devices {
            more: true,
            ..devices
        };
    }
    let mut names = devices.names;
    names[devices.count] = name;
    Devices {
        names,
        count: devices.count + 1,
        more: devices.more,
    }
}

/// Adds the line of devices to a text, where there are two or more.
pub fn append_devices(text: &mut Vec<u8>, devices: &Devices) -> Result<(), AllocError>
    ensures { OnOk result (text.new.items ≡ text.old.items ++ devices_text devices.now) }
{
    if are_several(devices) {
        append_devices_line(text, devices)
    } else {
        Ok(())
    }
}

/// Whether there are two devices or more.
pub fn are_several(devices: &Devices) -> bool
    ensures { result ≡ are_several devices.now }
{
    devices.count > 1
}

/// Adds the line of devices to a text.
fn append_devices_line(text: &mut Vec<u8>, devices: &Devices) -> Result<(), AllocError>
    ensures { OnOk result (text.new.items ≡ text.old.items ++ devices_line devices.now) }
{
    text.extend_from_slice(b"devices: ")?;
    append_count(text, devices)?;
    text.extend_from_slice(b" in these rows:")?;
    append_names(text, devices)?;
    text.extend_from_slice(b" (name one by --device)\n")
}

/// Adds how many devices there are.
fn append_count(text: &mut Vec<u8>, devices: &Devices) -> Result<(), AllocError>
    ensures { OnOk result (text.new.items ≡ text.old.items ++ how_many_devices devices.now) }
{
    if devices.more {
        return append_more(text);
    }
    let mut buffer = Buffer::new();
    text.extend_from_slice(buffer.format(devices.count).as_bytes())
}

/// Adds that there are more devices than are named.
fn append_more(text: &mut Vec<u8>) -> Result<(), AllocError>
    ensures { OnOk result (text.new.items ≡ text.old.items ++ more_devices) }
{
    let mut buffer = Buffer::new();
    text.extend_from_slice(buffer.format(MOST_NAMED + 1).as_bytes())?;
    text.extend_from_slice(b" or more")
}

/// Adds the names of the devices that are named.
fn append_names(text: &mut Vec<u8>, devices: &Devices) -> Result<(), AllocError>
    ensures { OnOk result (text.new.items ≡ text.old.items ++ devices_from devices.now 0 MOST_NAMED) }
{
    for place in 0..MOST_NAMED {
        append_device(text, devices, place)?;
    }
    Ok(())
}

/// Adds the name of the device in this place, where there is one.
fn append_device(text: &mut Vec<u8>, devices: &Devices, place: usize) -> Result<(), AllocError>
    ensures { OnOk result (text.new.items ≡ text.old.items ++ device_text devices.now place) }
{
    if place >= devices.count {
        return Ok(());
    }
    append_named(text, devices.names.get(place).copied())
}

/// Adds the name of a device in double quotes, where there is one.
fn append_named(text: &mut Vec<u8>, name: Option<ShownField>) -> Result<(), AllocError>
    ensures { OnOk result (text.new.items ≡ text.old.items ++ named_device name) }
{
    let Some(name) = name else {
        return Ok(());
    };
    text.extend_from_slice(b" \"")?;
    text.extend_from_slice(&shown(name))?;
    text.extend_from_slice(b"\"")
}

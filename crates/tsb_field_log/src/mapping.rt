//! The wires of a bench: those that are mapped, and from each other channel to the input of its own number. And the form
//! of a log by wires.
ghost use Rattle.std.specs.List.{list_any};
ghost use Rattle.std.specs.Prelude.{◌≡◌, ◌++◌, IfOk, OnOk};
ghost use Rattle.tsb_field_log.specs.Inputs.{inputs_in_digits};
ghost use Rattle.tsb_field_log.specs.Mapping.{is_wired, leads_from, own_wires, wires_of};
ghost use Rattle.tsb_field_log.specs.Wires.{form_of_wires, leads_beyond};

use crate::inputs::{InputKind, Wire};
use std::alloc::{AllocError, Global};
use tsb_log_text::RowForm;

/// The wires that are mapped, and then for each kind a wire from channel n to input n, from 1 to as many as a row in digits
/// has, except where channel n is mapped: that channel leads only where it is mapped. The error is that memory ran
/// out.
pub fn wires(alloc: Global, mapped: &[Wire]) -> Result<Vec<Wire>, AllocError>
    ensures { IfOk result (λ all. all.items ≡ wires_of mapped.now) }
{
    let mut all = Vec::new(alloc);
    all.extend_from_slice(mapped)?;
    push_own_wires(&mut all, mapped, InputKind::Vehicle)?;
    push_own_wires(&mut all, mapped, InputKind::Pedestrian)?;
    push_own_wires(&mut all, mapped, InputKind::Preempt)?;
    Ok(all)
}

/// Whether one of these wires is of this kind, and from this channel.
pub fn is_wired(wires: &[Wire], kind: InputKind, channel: u32) -> bool
    ensures { result ≡ is_wired wires.now kind channel }
{
    wires.iter().any(|wire| leads_from(*wire, kind, channel))
}

/// Whether the wire is of this kind, and from this channel.
fn leads_from(wire: Wire, kind: InputKind, channel: u32) -> bool
    ensures { result ≡ leads_from kind channel wire }
{
    wire.kind == kind && wire.channel == channel
}

/// Pushes the wires of a kind from the channels that are not mapped to the inputs of their own numbers.
fn push_own_wires(all: &mut Vec<Wire>, mapped: &[Wire], kind: InputKind) -> Result<(), AllocError>
    ensures { OnOk result (all.new.items ≡ all.old.items ++ own_wires mapped.now kind 1 (inputs_in_digits kind)) }
{
    let most = kind.digits();
    for before in 0..most {
        let input = before + 1;
        let channel = input as u32;
        if !is_wired(mapped, kind, channel) {
            all.push(Wire {
                kind,
                channel,
                input,
            })?;
        }
    }
    Ok(())
}

/// The form of a log by these wires: lists, where one leads to an input for which rows in digits have none.
pub fn form_of_wires(wires: &[Wire]) -> RowForm
    ensures { result ≡ form_of_wires wires.now }
{
    if lead_beyond(wires) {
        RowForm::Lists
    } else {
        RowForm::Digits
    }
}

/// Whether a wire leads to an input for which rows in digits have none.
fn lead_beyond(wires: &[Wire]) -> bool
    ensures { result ≡ list_any leads_beyond wires.now }
{
    wires.iter().any(|wire| leads_beyond(*wire))
}

/// Whether this wire leads to such an input.
fn leads_beyond(wire: Wire) -> bool
    ensures { result ≡ leads_beyond wire }
{
    wire.input > wire.kind.digits()
}

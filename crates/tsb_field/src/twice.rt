//! The lines of vehicle detectors whose delay and extension act twice: in the controller that logs its detectors' outputs,
//! and in the bench that takes these for inputs.
ghost use Rattle.std.specs.Prelude.{◌≡◌, ◌++◌, IfOk, OnOk, string_bytes};
ghost use Rattle.tsb_field_log.specs.Mapping.{wires_of};
ghost use Rattle.tsb_field_log.specs.Wires.{leads_to};
ghost use Rattle.tsb_field_log.specs.declared.inputs.InputKind.TheVariants.{Vehicle};
ghost use Rattle.tsb_types.specs.declared.limits.TheConstants.{VEHICLE_DETECTORS};
ghost use Rattle.tsb_text.specs.tsb_plan.PlanOf.{plan_of};
ghost use Rattle.tsb_field.specs.Twice.{acts_twice, both_line, delay_line, extend_line, is_led, twice_line, twice_lines, twice_text};

use std::alloc::{AllocError, Global};
use tsb_field_log::{InputKind, Wire, wires};
use tsb_text::{Detector, Plan};
use tsb_types::limits::VEHICLE_DETECTORS;

/// The lines of the vehicle detectors with a delay or an extension that a wire leads to, one that is mapped or one that
/// is there without. The error is that memory ran out.
pub(crate) fn twice_text(alloc: Global, mapped: &[Wire], plan: &Plan) -> Result<Vec<u8>, AllocError>
    ensures { IfOk result (λ text. text.items ≡ twice_text (wires_of mapped.now) (plan_of plan.now)) }
{
    let all = wires(alloc, mapped)?;
    let mut text = Vec::new(alloc);
    append_lines(alloc, &mut text, &all, plan)?;
    Ok(text)
}

/// Adds the lines of all vehicle detectors.
fn append_lines(
    alloc: Global,
    text: &mut Vec<u8>,
    wires: &[Wire],
    plan: &Plan,
) -> Result<(), AllocError>
    ensures { OnOk result (text.new.items ≡ text.old.items ++ twice_lines wires.now (plan_of plan.now) 1 VEHICLE_DETECTORS) }
{
    for before in 0..VEHICLE_DETECTORS {
        append_line(alloc, text, wires, plan, Detector::of(before + 1))?;
    }
    Ok(())
}

/// Adds the line of a vehicle detector, where a wire leads to it.
fn append_line(
    alloc: Global,
    text: &mut Vec<u8>,
    wires: &[Wire],
    plan: &Plan,
    detector: Detector,
) -> Result<(), AllocError>
    ensures { OnOk result (text.new.items ≡ text.old.items ++ twice_line wires.now (plan_of plan.now) detector) }
{
    let number = detector.number();
    if !is_led(wires, number) {
        return Ok(());
    }
    let delay = plan.detector_delay(detector);
    let extend = plan.detector_extend(detector);
    let line = acts_twice(alloc, number, delay, extend)?;
    text.extend_from_slice(line.as_bytes())
}

/// Whether one of the wires leads to this vehicle detector.
fn is_led(wires: &[Wire], detector: u8) -> bool
    ensures { result ≡ is_led wires.now detector }
{
    wires.iter().any(|wire| leads_to(*wire, detector))
}

/// Whether the wire leads to this vehicle detector.
fn leads_to(wire: Wire, detector: u8) -> bool
    ensures { result ≡ leads_to wire Vehicle detector }
{
    wire.kind == InputKind::Vehicle && wire.input == detector
}

/// What is told of a detector with this delay and this extension, in tenths of a second: nothing where it has neither.
fn acts_twice(alloc: Global, detector: u8, delay: u32, extend: u32) -> Result<String, AllocError>
    ensures { IfOk result (λ line. string_bytes line ≡ acts_twice detector delay extend) }
{
    if delay == 0 && extend == 0 {
        return Ok(String::new(alloc));
    }
    if extend == 0 {
        return delay_line(alloc, detector, delay);
    }
    if delay == 0 {
        return extend_line(alloc, detector, extend);
    }
    both_line(alloc, detector, delay, extend)
}

/// The line of a detector with a delay.
fn delay_line(alloc: Global, detector: u8, delay: u32) -> Result<String, AllocError>
    ensures { IfOk result (λ line. string_bytes line ≡ delay_line detector delay) }
{
    let seconds = delay / 10;
    let tenths = delay % 10;
    format!(in alloc; "detector {detector}: its delay of {seconds}.{tenths} s acts twice\n")
}

/// The line of a detector with an extension.
fn extend_line(alloc: Global, detector: u8, extend: u32) -> Result<String, AllocError>
    ensures { IfOk result (λ line. string_bytes line ≡ extend_line detector extend) }
{
    let seconds = extend / 10;
    let tenths = extend % 10;
    format!(in alloc; "detector {detector}: its extension of {seconds}.{tenths} s acts twice\n")
}

/// The line of a detector with both.
fn both_line(alloc: Global, detector: u8, delay: u32, extend: u32) -> Result<String, AllocError>
    ensures { IfOk result (λ line. string_bytes line ≡ both_line detector delay extend) }
{
    let seconds = delay / 10;
    let tenths = delay % 10;
    let more = extend / 10;
    let rest = extend % 10;
    format!(in alloc;
        "detector {detector}: its delay of {seconds}.{tenths} s and its extension of {more}.{rest} s act twice\n"
    )
}

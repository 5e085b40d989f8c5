//! The commands of a session.

use crate::inputs::Input;
use tsb_machine::MachineCommand;
use tsb_types::Watch;

/// A command of a session of the controller.
pub type Cmd = MachineCommand<Input, Watch>;

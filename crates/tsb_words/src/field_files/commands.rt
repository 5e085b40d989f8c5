//! The command of the program, as a table.
use crate::commands::{Argument, Leaf, Program};

/// The command of the program.
pub(crate) const PROGRAM: Program = Program {
    top: Leaf {
        name: "tsb_field",
        arguments: &[],
    },
    subcommands: &[
        Leaf {
            name: "log",
            arguments: &LOG,
        },
        Leaf {
            name: "record",
            arguments: &RECORD,
        },
        Leaf {
            name: "events",
            arguments: &EVENTS,
        },
        Leaf {
            name: "diagram",
            arguments: &DIAGRAM,
        },
        Leaf {
            name: "review",
            arguments: &REVIEW,
        },
        Leaf {
            name: "schedule",
            arguments: &SCHEDULE,
        },
        Leaf {
            name: "worksheet",
            arguments: &WORKSHEET,
        },
        Leaf {
            name: "card",
            arguments: &CARD,
        },
    ],
};

/// The options of `log`: of events; how they are read, and what is told of them; by which rows are sorted; of wires.
const LOG: [Argument; 12] = [
    Argument::Required("from"),
    Argument::Optional("device"),
    Argument::Optional("as-outputs"),
    Argument::Optional("time-form"),
    Argument::Optional("zone"),
    Argument::Flag("count"),
    Argument::Flag("allow-empty"),
    Argument::Flag("sort"),
    Argument::Optional("sort-within"),
    Argument::Repeated("vehicle"),
    Argument::Repeated("pedestrian"),
    Argument::Repeated("preempt"),
];

/// The files and options of `record`.
const RECORD: [Argument; 8] = [
    Argument::File("PLAN"),
    Argument::File("LOG"),
    Argument::Flag("go-on"),
    Argument::Flag("recalls"),
    Argument::Flag("outputs"),
    Argument::Flag("no-clock"),
    Argument::Required("from"),
    Argument::Required("device"),
];

/// The options of `events`.
const EVENTS: [Argument; 4] = [
    Argument::Optional("log"),
    Argument::Flag("wide"),
    Argument::Required("from"),
    Argument::Required("device"),
];

/// The options of `diagram`.
const DIAGRAM: [Argument; 6] = [
    Argument::Optional("log"),
    Argument::Flag("wide"),
    Argument::Optional("title"),
    Argument::Optional("seconds-per-line"),
    Argument::Optional("from"),
    Argument::Optional("events"),
];

/// The file of `review`.
const REVIEW: [Argument; 1] = [Argument::File("PLAN")];

/// The file and the options of `schedule`.
const SCHEDULE: [Argument; 3] = [
    Argument::File("PLAN"),
    Argument::Required("week"),
    Argument::Flag("svg"),
];

/// The file of `worksheet`.
const WORKSHEET: [Argument; 1] = [Argument::File("PLAN")];

/// The file and the option of `card`.
const CARD: [Argument; 2] = [Argument::File("PLAN"), Argument::Optional("against")];

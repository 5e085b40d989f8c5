//! The pages that words can ask for.

/// The version of `tsb_live`.
pub(crate) const LIVE_VERSION: &[u8] = b"tsb_live 1.0.0\n";

/// The version of `tsb_field`.
pub(crate) const FIELD_VERSION: &[u8] = b"tsb_field 1.0.0\n";

/// How `tsb_live` is used.
pub(crate) const LIVE_HELP: &[u8] = b"usage: tsb_live [--strict] PLAN

Answers lines of standard input as they come: a row of inputs is one tick of 0.1 s.

PLAN       the file of the plan, as of `tsb check`
--strict   the run ends at the first line that is refused or is no command
--version  the version
--help     this page

A row has 16 vehicle detectors, 8 pedestrian buttons and 4 preempts, 1 for on and 0 for off. Or it lists
what is on, of up to 64 detectors, 16 buttons and 8 preempts: `V1,17-20 P2 E1`. Other lines are commands,
such as `step 10`, `status` or `back 5`. Steps are counted in ticks.

Example: one tick in which detector 2 is on

    echo '0100000000000000 00000000 0000' | tsb_live plan.json

docs/use/LIVE.md has all lines and their answers.
";

/// How `tsb_field` is used.
pub(crate) const FIELD_HELP: &[u8] = b"usage: tsb_field COMMAND ..

log        from a controller's event log to a log of inputs for `tsb run`
record     from the commands of a session to a controller's event log
events     from what `tsb run` answers to a controller's event log
diagram    from what `tsb run` answers to a phase diagram, as SVG
review     what can be wrong with a plan that runs
schedule   what the schedule of a plan runs in a week, as a table or a picture
worksheet  the longest entry of each preempt, and what each split leaves over walk and clearance
card       the pairs of channels that a conflict monitor has to permit

--version  the version
--help     this page; after a command, its words with their units and an example

`review`, `schedule`, `worksheet` and `card` read a plan, all others standard input. All write standard output.
docs/use/FIELD.md has more.
";

/// How `log` is used.
pub(crate) const LOG_HELP: &[u8] = b"usage: tsb_field log --from TIME [OPTION ..] < EXPORT > LOG

Reads a controller's event log as CSV, and writes a log of inputs for `tsb run`. A tick is 0.1 s.

--from TIME                    tick 1 begins then: YYYY-MM-DD HH:MM:SS; has to be given
--device ID                    only rows of this device count
--vehicle CHANNEL=DETECTOR     the channel is vehicle detector 1 to 64 of the bench
--pedestrian CHANNEL=DETECTOR  the channel is pedestrian detector 1 to 16
--preempt CHANNEL=INPUT        the channel is preempt input 1 to 8
--time-form FORM               year-first, month-first, day-first, seconds or milliseconds
--zone OFFSET                  times are told by the clock of this zone, as -07:00 or Z
--sort                         rows may come up to 60 s late
--sort-within SECONDS          rows may come so late, 1 to 3600 s
--as-outputs PLAN              events are of outputs of the detectors of this plan
--count                        tells on standard error how much was read
--allow-empty                  no row, and no event of an input, is no fault

A value that begins with a hyphen comes after `=`, as in --zone=-07:00. Example:

    tsb_field log --from \"2026-11-22 07:00:00\" --device 1001 --count < export.csv > hour.log
";

/// How `record` is used.
pub(crate) const RECORD_HELP: &[u8] =
    b"usage: tsb_field record --from TIME --device ID [OPTION ..] PLAN LOG < COMMANDS > EXPORT

Runs the commands of a session, and writes its events as a controller's event log, as CSV.

PLAN, LOG    the files of a plan and of a log of inputs, as of `tsb run`
--from TIME  tick 1 begins then, YYYY-MM-DD HH:MM:SS, and the clock is set to it; has to be given
--device ID  what the first column has, at most 900 bytes; has to be given
--go-on      goes on after a line that is refused or is no command
--recalls    calls of phases on recall have events too
--outputs    vehicle detectors have events after delay and extension, and not as their inputs
--no-clock   no clock is set: offsets count from tick 0, and not from midnight

Steps are counted in ticks of 0.1 s. Example, ten minutes:

    echo \"step 6000\" | tsb_field record --from \"2026-11-22 07:00:00\" --device 1001 plan.json day.log
";

/// How `events` is used.
pub(crate) const EVENTS_HELP: &[u8] =
    b"usage: tsb_field events --from TIME --device ID [--log LOG] [--wide] < ANSWERS > EXPORT

Reads what `tsb run` answers, and writes what its display lines tell as a controller's event log, as CSV.

--from TIME  tick 1 begins then: YYYY-MM-DD HH:MM:SS; has to be given
--device ID  what the first column has, at most 900 bytes; has to be given
--log LOG    the file of the log that the session ran on: events of its inputs are written too
--wide       display lines are wide: the session said `lines wide`

A tick is 0.1 s. Example, ten minutes:

    echo \"step 6000\" | tsb run plan.json day.log \\
        | tsb_field events --from \"2026-11-22 07:00:00\" --device 1001 --log day.log
";

/// How `diagram` is used.
pub(crate) const DIAGRAM_HELP: &[u8] = b"usage: tsb_field diagram [OPTION ..] < ANSWERS > PICTURE

Reads what `tsb run` answers, and draws it as a phase diagram, as SVG.

--log LOG             the file of the log that the session ran on: its inputs are drawn below the signals
--wide                display lines are wide: the session said `lines wide`
--title TEXT          the title over the picture
--seconds-per-line N  how many seconds a line shows, 1 to 86400 s; 300 s where it is not given
--from TIME           tick 1 begins then, YYYY-MM-DD HH:MM:SS: the axis has the time of day
--events FILE         an event log by `record`, with --from: a letter at the end of each green says why it
                      ended, G gap out, M max out, F force-off

A tick is 0.1 s. Example, four minutes in one line:

    echo \"step 2400\" | tsb run plan.json day.log \\
        | tsb_field diagram --log day.log --seconds-per-line 240 > picture.svg
";

/// How `schedule` is used.
pub(crate) const SCHEDULE_HELP: &[u8] = b"usage: tsb_field schedule [--svg] --week DATE PLAN

Writes what the schedule of the plan in this file runs from this date on, for a week: a line for each midnight and for
each minute with which another action comes into force.

PLAN         the file of the plan, as of `tsb check`
--week DATE  the first day, such as 2026-11-22
--svg        a picture in SVG in place of the lines: a row for each day, with a band for each line

Examples:

    tsb_field schedule --week 2026-11-22 plan.json
    tsb_field schedule --week 2026-11-22 --svg plan.json > week.svg
";

/// How `review` is used.
pub(crate) const REVIEW_HELP: &[u8] = b"usage: tsb_field review PLAN

Writes what can be wrong with the plan in this file: a line for each finding, with its place. Times are in
seconds. A plan that breaks a rule has a line for each place where it does.

PLAN  the file of the plan, as of `tsb check`

Example:

    tsb_field review plan.json
";

/// How `worksheet` is used.
pub(crate) const WORKSHEET_HELP: &[u8] = b"usage: tsb_field worksheet PLAN

Writes the times that follow of the plan in this file. Times are in seconds.

A preempt with dwell phases has a line with its delay and its longest entry: so long after the preempt
enters service all track phases are green at the latest, or all dwell phases where it has no others. That
is proved of every run and all inputs, while the preempt stays in this stage, no commit changes the plan
and the controller does not trip.

A phase that a used pattern serves has a line with its split, the green that yellow and red clearance leave
of it, and its force-off on the local counter. Where it has a walk, the margin is what this green has over
walk and clearance; a margin below 0 is what it lacks.

PLAN  the file of the plan, as of `tsb check`

Example:

    tsb_field worksheet plan.json
";

/// How `card` is used.
pub(crate) const CARD_HELP: &[u8] = b"usage: tsb_field card [--against FILE] PLAN

Writes the pairs of channels of a conflict monitor that have to be permissive for the plan in this file, a
pair a line, as 2-6: the jumpers of its program card. Two channels that any run of the plan lights at once
are a pair, and each pair is of phases that the plan lets go together.

Channels are by channelControlType and channelControlSource; where a plan has neither, 1 to 8 are those
phases, 9 to 12 overlaps 1 to 4, and 13 to 16 the crosswalks of phases 2, 4, 6 and 8.

PLAN            the file of the plan, as of `tsb check`
--against FILE  names jumpers that this card has too many, and those that are missing; the status is 5
                where there are any

Example:

    tsb_field card --against cabinet.txt plan.json
";

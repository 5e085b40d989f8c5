//! What `help` answers.

/// The lines of a live run, each with what it does, without the end of the last.
pub const HELP: &[u8] =
    b"ROW                       one tick with these inputs: 16 digits, 8 digits, 4 digits; or lists, as V1,4,17-20 P2 E1
step N                    N ticks with the row last given
changes N                 N ticks, of whose lines those that differ are printed
back N                    N ticks back
seek T                    back to tick T
goto HH:MM:SS             on or back to that time of the clock; goto YYYY-MM-DD HH:MM:SS names its day
tick HH:MM:SS             the tick of that time; tick YYYY-MM-DD HH:MM:SS names its day
undo                      the newest input is taken back
show                      the display line
status                    the status, as JSON
plan                      the plan in effect, as JSON
edits                     the edits at the desk, as JSON
when WATCH                the tick of its last change: interval P, ped P, call P, output D, alarm D, stage or trip
when INPUT                the same of an input of the rows: input D, button D or preempt N
begin S                   station S opens its transaction
set S OBJECT INDEX VALUE  station S edits an object
verify S                  the edits of station S are checked
commit S                  they come into force
abort S                   they are dropped
pattern N                 pattern N is asked for; 0 is free operation
preempt N on              preempt N is switched on; off switches it off
omit LIST                 the arrows of this list of overlaps do not flash, and no others; 0 for none
fault HEAD ASPECT         a lamp is lit, as by P4 G; fault none ends that
reset                     the monitor is reset
clock YYYY-MM-DD HH:MM:SS the next tick begins then
events on                 inputs print their events; off ends that
echo on                   answers stand after their command; off ends that
lines wide                display lines have a field with overlaps 1 to 16; lines narrow ends that
save                      the input log and the commands that come to this state, as JSON
help                      these lines
quit                      the run ends";

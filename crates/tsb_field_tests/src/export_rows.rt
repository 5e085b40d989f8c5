//! Rows as exports have them: times in several forms, fields with spaces around them, words of headers, lines that are
//! passed over. Expected values are worked by hand from the rules.

use tsb_event_text::{
    Column, Columns, EventRow, Moment, RowFault, Separator, TimeForm, WideRow, event_row, form_of,
    header, is_ambiguous, is_passed, is_preface, moment_in, row_fault, time_form_named,
    time_form_word, wide_row,
};

/// The nanoseconds from -9999-01-01 to 1970-01-01, 4,371,587 days, and from there to 2026-11-22 00:00:00: 56 years of
/// 365 days, 14 leap days and 325 days.
pub(crate) const MIDNIGHT: u128 = 377_705_116_800_000_000_000 + 1_795_305_600_000_000_000;

/// Whether a text is the time so many milliseconds after 2026-11-22 began.
fn is_time(form: TimeForm, text: &[u8], milliseconds: u32) -> bool {
    match moment_in(form, None, text) {
        Some(moment) => moment.nanos == MIDNIGHT + milliseconds as u128 * 1_000_000,
        None => false,
    }
}

/// Times, each with its form and the milliseconds after 2026-11-22 began.
const TIMES: [(TimeForm, &[u8], u32); 29] = [
    (TimeForm::MonthFirst, b"11/22/2026 07:00:03.200", 25_203_200),
    (TimeForm::MonthFirst, b"11/22/2026 7:0:3", 25_203_000),
    (TimeForm::MonthFirst, b"11-22-2026 07:00:03.2", 25_203_200),
    (
        TimeForm::MonthFirst,
        b"11/22/2026 07:00:03.2 AM",
        25_203_200,
    ),
    (TimeForm::MonthFirst, b"11/22/2026 07:00:03 pm", 68_403_000),
    (TimeForm::MonthFirst, b"11/22/2026 12:00:00 AM", 0),
    (TimeForm::MonthFirst, b"11/22/2026 12:00:00 PM", 43_200_000),
    (TimeForm::MonthFirst, b"11/22/2026 11:59:59 PM", 86_399_000),
    (TimeForm::DayFirst, b"22/11/2026 07:00:03.2", 25_203_200),
    (TimeForm::DayFirst, b"22-11-2026 07:00:03 UTC", 25_203_000),
    (TimeForm::YearFirst, b"2026-11-22 07:00:03.2", 25_203_200),
    (TimeForm::YearFirst, b"2026-11-22T07:00:03.2Z", 25_203_200),
    (
        TimeForm::YearFirst,
        b"2026-11-22 07:00:03.200-07:00",
        25_203_200,
    ),
    (
        TimeForm::YearFirst,
        b"2026-11-22 07:00:03.2000000 +00:00",
        25_203_200,
    ),
    (TimeForm::YearFirst, b"2026-11-22 07:00:03+01", 25_203_000),
    (TimeForm::YearFirst, b"2026-11-22 07:00:03-0700", 25_203_000),
    (TimeForm::YearFirst, b"2026/11/22 7:00:03", 25_203_000),
    (TimeForm::YearFirst, b"2026-11-22 07:00:03.001", 25_203_001),
    (TimeForm::Seconds, b"1795330803.2", 25_203_200),
    (TimeForm::Seconds, b"1795330803", 25_203_000),
    (TimeForm::YearFirst, b"2026-11-22 07:00:03,2", 25_203_200),
    (
        TimeForm::YearFirst,
        b"2026-11-22T07:00:03.2 UTC",
        25_203_200,
    ),
    (
        TimeForm::MonthFirst,
        b"11/22/2026 7:00:03,25 PM",
        68_403_250,
    ),
    (TimeForm::DayFirst, b"22.11.2026 07:00:03,200", 25_203_200),
    (TimeForm::DayFirst, b"22.11.2026 7:00:03", 25_203_000),
    (TimeForm::Seconds, b"1795330803,2", 25_203_200),
    (TimeForm::Seconds, b"1795330803.", 25_203_000),
    (TimeForm::Milliseconds, b"1795330803200", 25_203_200),
    (TimeForm::Milliseconds, b"1795330803001", 25_203_001),
];

/// Whether all of the texts are their times.
fn are_times() -> bool {
    for (form, text, milliseconds) in &TIMES {
        if !is_time(*form, text, *milliseconds) {
            return false;
        }
    }
    true
}

#[test]
fn times_of_all_forms_are_moments(rt: HostRuntime) {
    assert!(rt; are_times());
}

/// Texts that are no times in these forms.
const NO_TIMES: [(TimeForm, &[u8]); 25] = [
    (TimeForm::MonthFirst, b"22/11/2026 07:00:03"),
    (TimeForm::MonthFirst, b"11/22/26 07:00:03"),
    (TimeForm::MonthFirst, b"11/22/2026 13:00:00 PM"),
    (TimeForm::MonthFirst, b"11/22/2026 00:00:00 AM"),
    (TimeForm::MonthFirst, b"11/22/2026 07:00:03 XM"),
    (TimeForm::MonthFirst, b"11/22/2026 7:00"),
    (TimeForm::MonthFirst, b"11/22/2026"),
    (TimeForm::MonthFirst, b"02/29/2026 07:00:03"),
    (TimeForm::DayFirst, b"11/22/2026 07:00:03"),
    (TimeForm::YearFirst, b"2026-11-22 07:00:03,2.5"),
    (TimeForm::YearFirst, b"2026-11-22 07:00:03.2,5"),
    (TimeForm::YearFirst, b"2026-11-22 07:00:03,1234567890"),
    (TimeForm::YearFirst, b"2026-11-22 07:00:03+24:00"),
    (TimeForm::YearFirst, b"2026-11-22 07:00:03+"),
    (TimeForm::YearFirst, b"2026-11-22 07:00:03Z+01"),
    (TimeForm::YearFirst, b"2026-11-22 24:00:00.0"),
    (TimeForm::YearFirst, b"2026-11-22 07:00:03Zx"),
    (TimeForm::YearFirst, b"2026-11-22 07:00:03+ab"),
    (TimeForm::YearFirst, b"2026-11-22 07:00:03-07:xx"),
    (TimeForm::YearFirst, b"2026-11-22 07:00:03.1234567890"),
    (TimeForm::YearFirst, b"00:03.2"),
    (TimeForm::YearFirst, b""),
    (TimeForm::Seconds, b"1795330803.2.1"),
    (TimeForm::Seconds, b"1795330803200"),
    (TimeForm::Milliseconds, b"12"),
];

/// Whether none of the texts is a time in its form.
fn are_no_times() -> bool {
    for (form, text) in &NO_TIMES {
        if moment_in(*form, None, text).is_some() {
            return false;
        }
    }
    true
}

#[test]
fn other_texts_are_none(rt: HostRuntime) {
    assert!(rt; are_no_times());
}

/// Whether the forms of times are found.
fn forms_are_found() -> bool {
    form_of(b"2026-11-22 07:00:00") == Some(TimeForm::YearFirst)
        && form_of(b"11/22/2026 07:00:00") == Some(TimeForm::MonthFirst)
        && form_of(b"22/11/2026 07:00:00") == Some(TimeForm::DayFirst)
        && form_of(b"1795330803.2") == Some(TimeForm::Seconds)
        && form_of(b"1795330803200") == Some(TimeForm::Milliseconds)
        && form_of(b"00:03.2").is_none()
}

/// Whether days that can be read in two ways have no form.
fn two_ways_are_none() -> bool {
    form_of(b"03/04/2026 07:00:00").is_none()
        && is_ambiguous(b"03/04/2026 07:00:00")
        && form_of(b"03/03/2026 07:00:00").is_none()
        && !is_ambiguous(b"11/22/2026 07:00:00")
        && !is_ambiguous(b"2026-03-04 07:00:00")
}

#[test]
fn a_time_says_its_form(rt: HostRuntime) {
    assert!(rt; forms_are_found() && two_ways_are_none());
}

/// Whether a line names these columns of a device, a time, a code and a parameter.
fn names(line: &[u8], device: Option<usize>, time: usize, code: usize, parameter: usize) -> bool {
    header(line)
        == Some(Columns {
            device,
            time,
            code,
            parameter,
            separator: Separator::Comma,
        })
}

/// Whether the words of headers are known.
fn words_are_known() -> bool {
    names(
        b"signal_id,timestamp,event_code,event_param",
        Some(0),
        1,
        2,
        3,
    ) && names(
        b"Signal ID, Time Stamp, Event Code, Event Param",
        Some(0),
        1,
        2,
        3,
    ) && names(b"Timestamp,Event Type,Parameter", None, 0, 1, 2)
        && names(b"Param,x,EVENT-ID,DateTime,LocationId,", Some(4), 3, 2, 0)
        && header(b"Signal I.D.,Time stamps,Event Code,Event Param").is_none()
}

#[test]
fn headers_have_words_of_many_makers(rt: HostRuntime) {
    assert!(rt; words_are_known());
}

/// The row of a line of the usual columns, where rows of device 7 count.
fn row(line: &[u8], times: Option<TimeForm>) -> Option<WideRow> {
    wide_row(line, Columns::usual_of(line), times, None, Some(b"7"))
}

/// Whether a line is a row of detector 2 going on 7 hours after 2026-11-22 began, of this form and parameter.
fn is_on(line: &[u8], form: TimeForm, parameter: Option<u32>) -> bool {
    let wanted = WideRow {
        ours: true,
        form,
        moment: Moment {
            nanos: MIDNIGHT + 25_200_000_000_000,
        },
        code: 82,
        parameter,
    };
    row(line, None) == Some(wanted) && row(line, Some(form)) == Some(wanted)
}

/// Whether rows are read with spaces, zeros behind a point, and parameters that are no numbers.
fn rows_are_wide() -> bool {
    is_on(b"7,2026-11-22 07:00:00,82,2", TimeForm::YearFirst, Some(2))
        && is_on(
            b" 7 ,  11/22/2026 07:00:00  , 82.0 ,2.00 ,x",
            TimeForm::MonthFirst,
            Some(2),
        )
        && is_on(b"7,1795330800,82,NULL", TimeForm::Seconds, None)
        && is_on(b"7,1795330800000,82.,-1", TimeForm::Milliseconds, None)
}

/// Whether lines that are no rows are none.
fn others_are_no_rows() -> bool {
    row(b"7,11/22/2026 07:00:00,82,2", Some(TimeForm::DayFirst)).is_none()
        && row(b"7,03/04/2026 07:00:00,82,2", None).is_none()
        && row(b"7,2026-11-22 07:00:00,82.5,2", None).is_none()
        && row(b"7,2026-11-22 07:00:00,82", None).is_none()
        && row(b"7,2026-11-22 07:00:00,\"82,2", None).is_none()
}

#[test]
fn rows_have_spaces_and_zeros(rt: HostRuntime) {
    assert!(rt; rows_are_wide() && others_are_no_rows());
}

/// Whether lines behind a header are passed over that are no rows, and no others.
fn drawn_lines_are_passed() -> bool {
    is_passed(b"--------,---------,---------,----------")
        && is_passed(b"---- +-----|---")
        && is_passed(b"SignalID,Timestamp,EventCode,EventParam")
        && !is_passed(b"7,2026-11-22 07:00:00,82,2")
        && !is_passed(b",,,")
        && is_passed(b"--------;---------;---------;----------")
        && is_passed(b"----\t----")
        && is_passed(b"(2 rows affected)")
        && is_passed(b"(1 row)")
        && !is_passed(b"(2 rows affected")
        && !is_passed(b"(two rows affected)")
        && !is_passed(b"2 rows affected)")
}

/// Whether lines before a header are passed over, and no others.
fn prefaces_are_passed() -> bool {
    is_preface(b"Version: 3")
        && is_preface(b"Phases in use: 1,2")
        && !is_preface(b"a,b,c")
        && !is_preface(b"Timestamp,EventCode")
        && !is_preface(b"<xml>")
        && !is_preface(b"\xff\xfeS\x00")
        && !is_preface(b"\"x")
}

#[test]
fn some_lines_are_passed_over(rt: HostRuntime) {
    assert!(rt; drawn_lines_are_passed() && prefaces_are_passed());
}

/// Whether a header has this separator, its columns standing in the usual order.
fn is_usual(line: &[u8], separator: Separator) -> bool {
    header(line)
        == Some(Columns {
            device: Some(0),
            time: 1,
            code: 2,
            parameter: 3,
            separator,
        })
}

/// Whether headers say what parts fields.
fn headers_say_separators() -> bool {
    is_usual(b"SignalID,Timestamp,EventCode,EventParam", Separator::Comma)
        && is_usual(
            b"SignalID;Timestamp;EventCode;EventParam;",
            Separator::Semicolon,
        )
        && is_usual(b"\"Signal ID\"\ttime\tcode\tparam", Separator::Tab)
        && header(b"SignalID;Timestamp,EventCode;EventParam").is_none()
}

/// Whether first rows say it where there is no header.
fn first_rows_say_separators() -> bool {
    Columns::usual_of(b"7,2026-11-22 07:00:03.2,82,4").separator == Separator::Comma
        && Columns::usual_of(b"7;2026-11-22 07:00:03,2;82;4").separator == Separator::Semicolon
        && Columns::usual_of(b"7\t2026-11-22 07:00:03,2\t82\t4").separator == Separator::Tab
        && Columns::usual_of(b"\"7;8\",\"a;b;c\",82,4").separator == Separator::Comma
        && Columns::usual_of(b"7;8").separator == Separator::Comma
}

#[test]
fn lines_say_what_parts_fields(rt: HostRuntime) {
    assert!(rt; headers_say_separators() && first_rows_say_separators());
}

/// Whether a plain row of detector 2 going on 7 hours after 2026-11-22 began is read, by the columns of its own line.
fn is_plain_on(line: &[u8]) -> bool {
    let wanted = EventRow {
        ours: true,
        moment: Moment {
            nanos: MIDNIGHT + 25_200_000_000_000,
        },
        code: 82,
        parameter: 2,
    };
    event_row(line, Columns::usual_of(line), Some(b"7")) == Some(wanted)
}

/// Whether rows of each separator are read.
fn separators_part_rows() -> bool {
    is_plain_on(b"7;2026-11-22 07:00:00.0;82;2")
        && is_plain_on(b"7;2026-11-22 07:00:00;82;2;")
        && is_plain_on(b"\"7\"\t\"2026-11-22T07:00:00\"\t82\t2\tx")
        && is_on(
            b"7;2026-11-22 07:00:00,0; 82 ;2.0",
            TimeForm::YearFirst,
            Some(2),
        )
        && is_on(
            b"7\t22.11.2026 07:00:00,000\t82\t2",
            TimeForm::DayFirst,
            Some(2),
        )
        && is_on(
            b"7,\"11/22/2026 07:00:00,0 AM\",82,2",
            TimeForm::MonthFirst,
            Some(2),
        )
}

#[test]
fn rows_are_parted_by_semicolons_and_tabs(rt: HostRuntime) {
    assert!(rt; separators_part_rows());
}

/// Whether forms have their words, and no other word names one.
fn forms_have_words() -> bool {
    time_form_named(b"year-first") == Some(TimeForm::YearFirst)
        && time_form_named(b"month-first") == Some(TimeForm::MonthFirst)
        && time_form_named(b"day-first") == Some(TimeForm::DayFirst)
        && time_form_named(b"seconds") == Some(TimeForm::Seconds)
        && time_form_named(b"milliseconds") == Some(TimeForm::Milliseconds)
        && time_form_named(b"month first").is_none()
        && time_form_named(b"").is_none()
        && time_form_word(TimeForm::DayFirst) == "day-first"
}

#[test]
fn forms_are_named(rt: HostRuntime) {
    assert!(rt; forms_have_words());
}

/// Why a line is no row of the usual columns that commas part.
fn fault(line: &[u8], times: Option<TimeForm>) -> RowFault {
    row_fault(line, Columns::usual_of(b""), times)
}

/// Whether a time is told as one of another form: month first where it is year first, day first where it is month first.
fn other_forms_are_told() -> bool {
    let told = fault(b"7,22/11/2026 07:00:03,82,2", Some(TimeForm::MonthFirst));
    let lacking = fault(b"7,22/22/2026 07:00:03,82,2", Some(TimeForm::MonthFirst));
    matches!(&told, RowFault::OtherForm(TimeForm::MonthFirst, TimeForm::DayFirst, time) if time.count == 19)
        && matches!(&lacking, RowFault::NoTime(TimeForm::MonthFirst, _))
}

/// Whether a line with another separator is told so, and one that is only cut is not.
fn other_separators_are_told() -> bool {
    let year = Some(TimeForm::YearFirst);
    fault(b"7;2026-11-22 07:00:03;82;2", year)
        == RowFault::Parted(Separator::Comma, Separator::Semicolon)
        && fault(b"\"7\"\t2026-11-22\t\t", year)
            == RowFault::Parted(Separator::Comma, Separator::Tab)
        && fault(b"7;2026-11-22 07:00:03;82", year) == RowFault::Missing(Column::Time)
        && fault(b"\"7;2026-11-22 07:00:03;82;2", year) == RowFault::Quote
        && fault(b"Timestamp;EventCode", year) == RowFault::Lacks(Column::Parameter)
}

#[test]
fn changes_in_a_file_are_told(rt: HostRuntime) {
    assert!(rt; other_forms_are_told() && other_separators_are_told());
}

/// Whether lines of other separators before a header are passed over, and no header with a quote out of place.
fn other_prefaces_are_passed() -> bool {
    is_preface(b"Version;3")
        && is_preface(b"\"Version\"\t3")
        && !is_preface(b"\"a, b\";3")
        && !is_preface(b"a;b;c")
        && !is_preface(b"a\tb\tc")
        && !is_preface(b"Time;x")
        && !is_preface(b"SignalID,Timestamp,EventCode,EventParam,\"x\"y")
}

#[test]
fn lines_before_a_header_have_any_separator(rt: HostRuntime) {
    assert!(rt; other_prefaces_are_passed());
}

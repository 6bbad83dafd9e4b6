// The example file, written and read back, and the limits of what can be written.
use crate::reading_tests::told;
use book::Flag;
use energy::{Kwh, PartyCode};
use nomination::{
    Detail, Header, LineReader, LineText, Values, longest_line, read_values, write_line,
};

const EXAMPLE: &str =
    "H,IANS,001,AAAA,20041015\nD1,1,AAAA,XXXX,0.010,0.000,\nD2,1,AAAA,XXXX,0.006,0.006\n";

fn heading(date: u32) -> Option<Values> {
    let filer = PartyCode::read(b"AAAA")?;
    Some(Values::Heading(Header::first(filer, date)?))
}

fn detail(period: u8, ns: u64, sn: u64) -> Option<Detail> {
    let north = PartyCode::read(b"AAAA")?;
    let south = PartyCode::read(b"XXXX")?;
    Detail::new(period, north, south, Kwh(ns), Kwh(sn))
}

/// Writes the example file, and answers its length.
fn write_example(out: &mut [u8]) -> Option<usize> {
    let trade = Values::Trading(detail(1, 10, 0)?, Flag::Brown);
    let matched = Values::Matching(detail(1, 6, 6)?);
    let first = write_line(heading(20_041_015)?, out, 0)?;
    let second = first.checked_add(write_line(trade, out, first)?)?;
    second.checked_add(write_line(matched, out, second)?)
}

#[test]
fn example_written(rt: HostRuntime) {
    let mut out = [7; 81];
    assert_eq!(rt; write_example(&mut out), Some(80));
    assert_eq!(rt; &out[0..80], EXAMPLE.as_bytes());
    assert_eq!(rt; out[80], 7);
    assert_eq!(rt; write_example(&mut [7; 80]), Some(80));
    assert_eq!(rt; write_example(&mut [7; 79]), None);
}

fn write_heading(out: &mut [u8], at: usize) -> Option<usize> {
    write_line(heading(20_041_015)?, out, at)
}

#[test]
fn line_that_does_not_fit(rt: HostRuntime) {
    let mut out = [7; 25];
    assert_eq!(rt; write_heading(&mut out, 1), None);
    assert_eq!(rt; write_heading(&mut out, usize::MAX), None);
    assert_eq!(rt; out, [7; 25]);
    assert_eq!(rt; write_heading(&mut out, 0), Some(25));
}

/// What a line of a text says.
fn line_says(text: &[u8], line: usize) -> Option<Values> {
    let mut reader = LineReader::over(text);
    for _ in 1..line {
        reader.next().ok()??;
    }
    read_values(reader.next().ok()??, line).ok()
}

/// What the header on a line says: version, filer and date.
fn header_on(text: &[u8], line: usize) -> Option<(u16, [u8; 4], u32)> {
    match line_says(text, line)? {
        Values::Heading(header) => Some((header.version(), header.filer().bytes(), header.date())),
        _ => None,
    }
}

/// Period, northern and southern code, NS and SN.
type Parts = (u8, [u8; 4], [u8; 4], u64, u64);

fn parts(detail: Detail) -> Parts {
    (
        detail.period(),
        detail.north().bytes(),
        detail.south().bytes(),
        detail.ns().0,
        detail.sn().0,
    )
}

/// What the trade on a line says.
fn trade_on(text: &[u8], line: usize) -> Option<(Parts, Flag)> {
    match line_says(text, line)? {
        Values::Trading(detail, flag) => Some((parts(detail), flag)),
        _ => None,
    }
}

/// What the match on a line says.
fn match_on(text: &[u8], line: usize) -> Option<Parts> {
    match line_says(text, line)? {
        Values::Matching(detail) => Some(parts(detail)),
        _ => None,
    }
}

#[test]
fn example_read(rt: HostRuntime) {
    let text = EXAMPLE.as_bytes();
    assert_eq!(rt; told(text), (0, 3, 0));
    assert_eq!(rt; header_on(text, 1), Some((1, *b"AAAA", 20_041_015)));
    assert_eq!(rt;
        trade_on(text, 2),
        Some(((1, *b"AAAA", *b"XXXX", 10, 0), Flag::Brown))
    );
    assert_eq!(rt; match_on(text, 3), Some((1, *b"AAAA", *b"XXXX", 6, 6)));
}

#[test]
fn limits_of_values(rt: HostRuntime) {
    assert!(rt; heading(99_999_999).is_some());
    assert!(rt; heading(100_000_000).is_none());
    assert!(rt; detail(99, 9_999_999, 9_999_999).is_some());
    assert!(rt; detail(0, 1, 1).is_none());
    assert!(rt; detail(100, 1, 1).is_none());
    assert!(rt; detail(1, 10_000_000, 1).is_none());
    assert!(rt; detail(1, 1, 10_000_000).is_none());
}

fn trade_length(period: u8, ns: u64, sn: u64, flag: Flag) -> Option<usize> {
    Some(LineText::of(Values::Trading(detail(period, ns, sn)?, flag)).len())
}

#[test]
fn lengths(rt: HostRuntime) {
    assert_eq!(rt; longest_line(), 36);
    assert_eq!(rt; trade_length(10, 9_999_999, 1_000_000, Flag::Chp), Some(36));
    assert_eq!(rt; trade_length(9, 999_999, 0, Flag::Brown), Some(30));
}

// What whole texts are told: the number, line and field of their fault.
use nomination::LineReader;
use std::alloc::Global;
use std::process::Abort;
use std::test::Fail;

/// More lines than any text here has.
const MANY_LINES: usize = 5_000;

const HEADER: &str = "H,IANS,001,AAAA,20041015\n";

const TRADE: &str = "D1,1,AAAA,XXXX,0.010,0.000,\n";

const MATCH: &str = "D2,1,AAAA,XXXX,0.006,0.006\n";

/// The number, line and field of a text's fault; 0, the number of its lines and 0 where it has none.
pub(crate) fn told(text: &[u8]) -> (u8, usize, u8) {
    let mut reader = LineReader::over(text);
    for lines in 0..MANY_LINES {
        match reader.next() {
            Ok(Some(_)) => {}
            Ok(None) => return (0, lines, 0),
            Err(fault) => {
                let report = fault.report();
                return (report.number, report.line, report.field);
            }
        }
    }
    (0, MANY_LINES, 0)
}

/// A text, the number of its fault or 0, its line or the number of lines, and its field.
const TEXTS: [(&str, u8, usize, u8); 15] = [
    ("H,IANS,001,AAAA,20041015\n", 0, 1, 0),
    ("", 12, 1, 0),
    ("\n", 12, 1, 0),
    ("H,IANS,001,AAAA,20041015", 12, 1, 0),
    ("D1,1,AAAA,XXXX,0.010,0.000,\n", 12, 1, 0),
    ("D2,1,AAAA,XXXX,0.006,0.006\n", 12, 1, 0),
    ("H,IANS,001,AAAA,20041015\r\n", 13, 1, 5),
    ("H,IANS,001,AAAA,20041015\n\n", 12, 2, 0),
    (
        "H,IANS,001,AAAA,20041015\nH,IANS,001,AAAA,20041015\n",
        12,
        2,
        0,
    ),
    (
        "H,IANS,001,AAAA,20041015\nD1,1,AAAA,XXXX,0.010,0.000,",
        12,
        2,
        0,
    ),
    (
        "H,IANS,001,AAAA,20041015\nD2,1,AAAA,XXXX,0.006,0.006\n",
        0,
        2,
        0,
    ),
    (
        "H,IANS,001,AAAA,20041015\nD2,1,AAAA,XXXX,0.006,0.006\n\n",
        12,
        3,
        0,
    ),
    (
        "H,IANS,001,AAAA,20041015\nD2,1,AAAA,XXXX,0.006,0.006\nD",
        12,
        3,
        0,
    ),
    (
        "H,IANS,001,AAAA,20041015\nD2,1,AAAA,XXXX,0.006,0.06\nD",
        13,
        2,
        6,
    ),
    (
        "H,IANS,000,AAAA,20041015\nD2,1,AAAA,XXXX,0.006,0.06\n",
        13,
        1,
        3,
    ),
];

#[test]
fn texts(rt: HostRuntime) {
    for (text, number, line, field) in TEXTS {
        assert_eq!(rt; told(text.as_bytes()), (number, line, field), "{}", text);
    }
}

/// A first line, the number of its fault or 0, and its field.
const HEADERS: [(&str, u8, u8); 31] = [
    ("H,IANS,001,AAAA,20041015", 0, 0),
    ("H,IANS,999,A0Z9,00000000", 0, 0),
    ("H", 12, 0),
    ("h,IANS,001,AAAA,20041015", 12, 0),
    ("HH,IANS,001,AAAA,20041015", 12, 0),
    (",IANS,001,AAAA,20041015", 12, 0),
    (" H,IANS,001,AAAA,20041015", 12, 0),
    ("H,IANS,001,AAAA", 12, 0),
    ("H,IANS,001,AAAA,20041015,", 12, 0),
    ("H,ians,0,a,b,", 12, 0),
    ("H,,001,AAAA,20041015", 13, 2),
    ("H,IAN,001,AAAA,20041015", 13, 2),
    ("H,IANX,001,AAAA,20041015", 13, 2),
    ("H,ians,001,AAAA,20041015", 13, 2),
    ("H,IANSS,001,AAAA,20041015", 13, 2),
    ("H,IANS,000,AAAA,20041015", 13, 3),
    ("H,IANS,1,AAAA,20041015", 13, 3),
    ("H,IANS,0001,AAAA,20041015", 13, 3),
    ("H,IANS,00a,AAAA,20041015", 13, 3),
    ("H,IANS,001,aaaa,20041015", 13, 4),
    ("H,IANS,001,AAA,20041015", 13, 4),
    ("H,IANS,001,AAAAA,20041015", 13, 4),
    ("H,IANS,001,AA-A,20041015", 13, 4),
    ("H,IANS,001,AAAA,2004101", 13, 5),
    ("H,IANS,001,AAAA,200410150", 13, 5),
    ("H,IANS,001,AAAA,2004101O", 13, 5),
    ("H,IANS,001,AAAA,", 13, 5),
    ("H,ians,1,a,b", 13, 2),
    ("H,IANS,1,a,b", 13, 3),
    ("H,IANS,001,a,b", 13, 4),
    ("H,IANS,001,AAAA,b", 13, 5),
];

#[test]
fn headers(rt: HostRuntime) -> Result<(), Fail> {
    let heap = rt.alloc();
    for (header, number, field) in HEADERS {
        let text = format!(in heap; "{header}\n")?;
        assert_eq!(rt; told(text.as_bytes()), (number, 1, field), "{}", header);
    }
    Ok(())
}

/// What a line behind a good header is told: number and field.
fn second_line(
    rt: &impl Abort,
    heap: Global,
    line: &str,
    number: u8,
    field: u8,
) -> Result<(), Fail> {
    let text = format!(in heap; "{HEADER}{line}\n")?;
    assert_eq!(rt; told(text.as_bytes()), (number, 2, field), "{}", line);
    Ok(())
}

/// A second line, the number of its fault or 0, and its field.
const LINES: [(&str, u8, u8); 17] = [
    ("D1,1,AAAA,XXXX,0.010,0.000,", 0, 0),
    ("D1,1,AAAA,XXXX,0.010,0.000,C", 0, 0),
    ("D1,99,A0Z9,0000,9999.999,0.000,G", 0, 0),
    ("D2,50,AAAA,XXXX,1000.000,10.001", 0, 0),
    ("D1", 12, 0),
    ("D3,1,AAAA,XXXX,0.010,0.000,", 12, 0),
    ("d1,1,AAAA,XXXX,0.010,0.000,", 12, 0),
    ("D,1,AAAA,XXXX,0.010,0.000,", 12, 0),
    ("D11,1,AAAA,XXXX,0.010,0.000,", 12, 0),
    ("D1,1,AAAA,XXXX,0.010,0.000", 12, 0),
    ("D1,1,AAAA,XXXX,0.010,0.000,,", 12, 0),
    ("D2,1,AAAA,XXXX,0.006", 12, 0),
    ("D2,1,AAAA,XXXX,0.006,0.006,", 12, 0),
    ("D1,0,aaaa,x,1,2,B,", 12, 0),
    ("D1\r,1,AAAA,XXXX,0.010,0.000,", 12, 0),
    ("D1,1,AAAA,XXXX,0.010,0.000,\r", 13, 7),
    ("D2,1,AAAA,XXXX,0.006,0.006\r", 13, 6),
];

#[test]
fn lines(rt: HostRuntime) -> Result<(), Fail> {
    for (line, number, field) in LINES {
        second_line(&rt, rt.alloc(), line, number, field)?;
    }
    Ok(())
}

/// A second line with a bad field, and the first such.
const BAD_FIELDS: [(&str, u8); 31] = [
    ("D1,,AAAA,XXXX,0.010,0.000,", 2),
    ("D1,0,AAAA,XXXX,0.010,0.000,", 2),
    ("D1,07,AAAA,XXXX,0.010,0.000,", 2),
    ("D2,100,AAAA,XXXX,0.006,0.006", 2),
    ("D2,a,AAAA,XXXX,0.006,0.006", 2),
    ("D1,1,aaaa,XXXX,0.010,0.000,", 3),
    ("D1,1,AAA,XXXX,0.010,0.000,", 3),
    ("D2,1,AAAAA,XXXX,0.006,0.006", 3),
    ("D1,1,AAAA,xxxx,0.010,0.000,", 4),
    ("D1,1,AAAA,XXX,0.010,0.000,", 4),
    ("D2,1,AAAA,XXXXX,0.006,0.006", 4),
    ("D1,1,AAAA,XXXX,00.010,0.000,", 5),
    ("D1,1,AAAA,XXXX,0.01,0.000,", 5),
    ("D1,1,AAAA,XXXX,0.0100,0.000,", 5),
    ("D2,1,AAAA,XXXX,6,0.006", 5),
    ("D2,1,AAAA,XXXX,10000.000,0.006", 5),
    ("D1,1,AAAA,XXXX,0.010,01.000,", 6),
    ("D1,1,AAAA,XXXX,0.010,0.00,", 6),
    ("D1,1,AAAA,XXXX,0.010,,", 6),
    ("D2,1,AAAA,XXXX,0.006,0.0060", 6),
    ("D2,1,AAAA,XXXX,0.006,10000.000", 6),
    ("D1,1,AAAA,XXXX,0.010,0.000,B", 7),
    ("D1,1,AAAA,XXXX,0.010,0.000,CC", 7),
    ("D1,1,AAAA,XXXX,0.010,0.000,c", 7),
    ("D1,1,AAAA,XXXX,0.010,0.000, ", 7),
    ("D1,0,a,x,1,2,B", 2),
    ("D1,1,a,x,1,2,B", 3),
    ("D1,1,AAAA,x,1,2,B", 4),
    ("D1,1,AAAA,XXXX,1,2,B", 5),
    ("D1,1,AAAA,XXXX,0.010,2,B", 6),
    ("D2,0,a,x,1,2", 2),
];

#[test]
fn bad_fields(rt: HostRuntime) -> Result<(), Fail> {
    for (line, field) in BAD_FIELDS {
        second_line(&rt, rt.alloc(), line, 13, field)?;
    }
    Ok(())
}

#[test]
fn longest_text(rt: HostRuntime) -> Result<(), Fail> {
    let mut text = String::new(rt.alloc());
    text.push_str(HEADER)?;
    for _ in 0..9 {
        text.push_str(TRADE)?;
    }
    for _ in 0..2_417 {
        text.push_str(MATCH)?;
    }
    assert_eq!(rt; text.len(), 65_536);
    assert_eq!(rt; told(text.as_bytes()), (0, 2_427, 0));
    text.push_str("\n")?;
    assert_eq!(rt; told(text.as_bytes()), (11, 0, 0));
    Ok(())
}

// What a day says to whole files: taken with so many rows and lines, or refused with number, line, field and layer.
use book::{FiledKind, FiledRow, Flag};
use calendar::{Date, DayLength};
use energy::{Kwh, Side};
use intake::{FileTerms, Layer, take_file};
use register::Register;

const NO_ROW: FiledRow = FiledRow {
    filer: Side::Northern,
    kind: FiledKind::Match,
    period: 0,
    north: 99,
    south: 99,
    ns: Kwh(0),
    sn: Kwh(0),
    flag: Flag::Brown,
};

/// Two parties on each side: AAAA and BBBB, XXXX and YYYY.
fn parties() -> Register {
    let mut register = Register::empty();
    let _ = register.register(Side::Northern, b"AAAA");
    let _ = register.register(Side::Northern, b"BBBB");
    let _ = register.register(Side::Southern, b"XXXX");
    let _ = register.register(Side::Southern, b"YYYY");
    register
}

/// What 15 October 2004, a day of 48 periods, says to a text: 0, rows in use and lines; or number, line and field.
fn told(text: &str, files: u32, rows: &mut [FiledRow], used: usize) -> (u8, usize, usize, Layer) {
    let Ok(date) = Date::try_from(2004_10_15) else {
        return (1, 0, 0, Layer::Text);
    };
    let terms = FileTerms {
        date,
        length: DayLength::Normal,
        files,
    };
    match take_file(&parties(), terms, rows, used, text.as_bytes()) {
        Ok(taken) => (0, taken.used, taken.lines, Layer::Book),
        Err(fault) => {
            let report = fault.report();
            (
                report.number,
                report.line,
                report.field as usize,
                fault.layer(),
            )
        }
    }
}

/// A text, and what is told of it by a day with an empty book of four rows.
const FILES: [(&str, (u8, usize, usize, Layer)); 21] = [
    ("H,IANS,001,AAAA,20041015\n", (0, 0, 0, Layer::Book)),
    ("H,IANS,001,YYYY,20041015\n", (0, 0, 0, Layer::Book)),
    ("", (12, 1, 0, Layer::Text)),
    ("H,IANS,001,ZZZZ,20041015\n", (14, 1, 4, Layer::Register)),
    ("H,IANS,001,AAAA,20041016\n", (14, 1, 5, Layer::Register)),
    ("H,IANS,001,ZZZZ,20041399\n", (14, 1, 4, Layer::Register)),
    (
        "H,IANS,001,AAAA,20041015\nD1,1,AAAA,XXXX,0.010,0.000,\nD2,1,AAAA,XXXX,0.006,0.006\n",
        (0, 2, 2, Layer::Book),
    ),
    (
        "H,IANS,001,XXXX,20041015\nD1,48,BBBB,XXXX,0.010,0.000,C\n",
        (0, 1, 1, Layer::Book),
    ),
    (
        "H,IANS,001,AAAA,20041015\nD1,1,ZZZZ,XXXX,0.010,0.000,\n",
        (15, 2, 3, Layer::Register),
    ),
    (
        "H,IANS,001,AAAA,20041015\nD1,1,XXXX,AAAA,0.010,0.000,\n",
        (15, 2, 3, Layer::Register),
    ),
    (
        "H,IANS,001,AAAA,20041015\nD1,1,AAAA,BBBB,0.010,0.000,\n",
        (15, 2, 4, Layer::Register),
    ),
    (
        "H,IANS,001,AAAA,20041015\nD1,1,BBBB,XXXX,0.010,0.000,\n",
        (15, 2, 0, Layer::Register),
    ),
    (
        "H,IANS,001,AAAA,20041015\nD1,49,AAAA,XXXX,0.010,0.000,\n",
        (9, 2, 2, Layer::Register),
    ),
    (
        "H,IANS,001,AAAA,20041015\nD1,49,BBBB,XXXX,0.010,0.000,\n",
        (15, 2, 0, Layer::Register),
    ),
    (
        "H,IANS,001,AAAA,20041015\nD1,49,ZZZZ,XXXX,0.010,0.000,B\n",
        (13, 2, 7, Layer::Text),
    ),
    (
        "H,IANS,001,AAAA,20041015\nD1,1,AAAA,XXXX,0.010,0.000,\nD1,1,AAAA,XXXX,0.020,0.000,G\n",
        (16, 3, 0, Layer::Book),
    ),
    (
        "H,IANS,001,AAAA,20041015\nD1,1,AAAA,XXXX,0.010,0.000,\nD2,1,AAAA,XXXX,0.010,0.000\nD1,1,AAAA,YYYY,0.010,0.000,\nD1,2,AAAA,XXXX,0.010,0.000,\n",
        (0, 4, 4, Layer::Book),
    ),
    (
        "H,IANS,001,AAAA,20041015\nD1,1,AAAA,XXXX,0.010,0.000,\nD1,2,AAAA,XXXX,0.010,0.000,\nD1,3,AAAA,XXXX,0.010,0.000,\nD1,4,AAAA,XXXX,0.010,0.000,\nD1,5,AAAA,XXXX,0.010,0.000,\n",
        (17, 6, 0, Layer::Book),
    ),
    (
        "H,IANS,001,AAAA,20041015\nD1,1,AAAA,XXXX,0.010,0.000,\nD1,2,AAAA,XXXX,0.010,0.000,\nD1,3,AAAA,XXXX,0.010,0.000,\nD1,4,AAAA,XXXX,0.010,0.000,\nD1,4,AAAA,XXXX,0.010,0.000,\n",
        (16, 6, 0, Layer::Book),
    ),
    (
        "H,IANS,001,AAAA,20041015\nD1,1,AAAA,ZZZZ,0.010,0.000,\nD1,1,AAAA,XXXX,0.01,0.000,\n",
        (15, 2, 4, Layer::Register),
    ),
    (
        "H,IANS,001,AAAA,20041015\nD1,1,AAAA,XXXX,0.010,0.000,\nD1,2,AAAA,XXXX,0.010,0.000,",
        (12, 3, 0, Layer::Text),
    ),
];

#[test]
fn files(rt: HostRuntime) {
    for (text, answer) in FILES {
        let mut rows = [NO_ROW; 4];
        assert_eq!(rt; told(text, 0, &mut rows, 0), answer, "{}", text);
    }
}

#[test]
fn files_of_a_day(rt: HostRuntime) {
    let mut rows = [NO_ROW; 4];
    let text = "H,IANS,001,AAAA,20041015\n";
    assert_eq!(rt; told(text, 31_967, &mut rows, 0), (0, 0, 0, Layer::Book));
    assert_eq!(rt; told(text, 31_968, &mut rows, 0), (17, 1, 0, Layer::Book));
}

#[test]
fn rows_of_a_file(rt: HostRuntime) {
    let mut rows = [NO_ROW; 4];
    let text = "H,IANS,001,XXXX,20041015\nD1,48,BBBB,XXXX,9999.999,0.001,G\n";
    assert_eq!(rt; told(text, 0, &mut rows, 0), (0, 1, 1, Layer::Book));
    assert_eq!(rt; rows[0].period, 48);
    assert_eq!(rt; rows[0].north, 1);
    assert_eq!(rt; rows[0].south, 0);
    assert_eq!(rt; rows[0].ns.0, 9_999_999);
    assert_eq!(rt; rows[0].sn.0, 1);
    assert_eq!(rt; rows[0].flag, Flag::Renewable);
    // The same line again is known, from the book this time; a later one stands behind it.
    assert_eq!(rt; told(text, 1, &mut rows, 1), (16, 2, 0, Layer::Book));
    let next = "H,IANS,001,XXXX,20041015\nD1,47,BBBB,XXXX,0.000,0.002,\n";
    assert_eq!(rt; told(next, 1, &mut rows, 1), (0, 2, 1, Layer::Book));
    assert_eq!(rt; rows[0].period, 48);
    assert_eq!(rt; rows[1].period, 47);
}

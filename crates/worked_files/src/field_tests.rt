// What single fields say.
use book::Flag;
use energy::Kwh;
use nomination::{Mark, next_mark, read_amount, read_date, read_flag, read_period, read_version};

const AMOUNTS: [(&str, Option<Kwh>); 20] = [
    ("0.000", Some(Kwh(0))),
    ("0.006", Some(Kwh(6))),
    ("0.010", Some(Kwh(10))),
    ("1.000", Some(Kwh(1_000))),
    ("10.203", Some(Kwh(10_203))),
    ("100.000", Some(Kwh(100_000))),
    ("9999.999", Some(Kwh(9_999_999))),
    ("10000.000", None),
    ("00.010", None),
    ("01.000", None),
    ("0000.000", None),
    ("0.01", None),
    ("10.01", None),
    ("0.0100", None),
    ("10000", None),
    (".010", None),
    ("0:010", None),
    ("0.01a", None),
    ("a.010", None),
    ("", None),
];

#[test]
fn amounts(rt: HostRuntime) {
    for (text, said) in AMOUNTS {
        assert_eq!(rt; read_amount(text.as_bytes()), said, "{}", text);
    }
}

const PERIODS: [(&str, Option<u8>); 11] = [
    ("1", Some(1)),
    ("9", Some(9)),
    ("10", Some(10)),
    ("50", Some(50)),
    ("99", Some(99)),
    ("0", None),
    ("07", None),
    ("100", None),
    ("1a", None),
    ("/", None),
    ("", None),
];

#[test]
fn periods(rt: HostRuntime) {
    for (text, said) in PERIODS {
        assert_eq!(rt; read_period(text.as_bytes()), said, "{}", text);
    }
}

const VERSIONS: [(&str, Option<u16>); 8] = [
    ("001", Some(1)),
    ("010", Some(10)),
    ("999", Some(999)),
    ("000", None),
    ("1", None),
    ("0001", None),
    ("0:1", None),
    ("", None),
];

#[test]
fn versions(rt: HostRuntime) {
    for (text, said) in VERSIONS {
        assert_eq!(rt; read_version(text.as_bytes()), said, "{}", text);
    }
}

const DATES: [(&str, Option<u32>); 8] = [
    ("20041015", Some(20_041_015)),
    ("00000000", Some(0)),
    ("99999999", Some(99_999_999)),
    ("2004101", None),
    ("200410150", None),
    ("2004101O", None),
    ("-0041015", None),
    ("", None),
];

#[test]
fn dates(rt: HostRuntime) {
    for (text, said) in DATES {
        assert_eq!(rt; read_date(text.as_bytes()), said, "{}", text);
    }
}

const FLAGS: [(&str, Option<Flag>); 7] = [
    ("", Some(Flag::Brown)),
    ("C", Some(Flag::Chp)),
    ("G", Some(Flag::Renewable)),
    ("B", None),
    ("c", None),
    ("CC", None),
    (" ", None),
];

#[test]
fn flags(rt: HostRuntime) {
    for (text, said) in FLAGS {
        assert_eq!(rt; read_flag(text.as_bytes()), said, "{}", text);
    }
}

#[test]
fn marks(rt: HostRuntime) {
    assert_eq!(rt; (Mark::Comma.byte(), Mark::LineEnd.byte()), (44, 10));
    let text = b"a;\r,b\n";
    assert_eq!(rt; next_mark(text, 0), Some(3));
    assert_eq!(rt; next_mark(text, 3), Some(3));
    assert_eq!(rt; next_mark(text, 4), Some(5));
    assert_eq!(rt; next_mark(text, 6), None);
    assert_eq!(rt; next_mark(text, usize::MAX), None);
}

// The allocation of a period run on the worked numbers and beyond.
use allocation::{Allocations, PeriodTerms, allocate};
use book::{FiledKind, FiledRow, Flag};
use energy::{Direction, Kwh, Mw, Side};
use rationing::{ChosenRule, RegisterRule, RunningRule};
use std::process::Abort;

const REGISTER: ChosenRule = ChosenRule::Register(RegisterRule);

const RUNNING: ChosenRule = ChosenRule::Running(RunningRule);

fn filed(filer: Side, kind: FiledKind, north: u8, ns: u64, sn: u64) -> FiledRow {
    FiledRow {
        filer,
        kind,
        period: 1,
        north,
        south: 0,
        ns: Kwh(ns),
        sn: Kwh(sn),
        flag: Flag::Brown,
    }
}

/// Both parties' rows of a trade with Southern party 0.
fn trade(north: u8, ns: u64, sn: u64) -> [FiledRow; 2] {
    [
        filed(Side::Northern, FiledKind::Trade, north, ns, sn),
        filed(Side::Southern, FiledKind::Trade, north, ns, sn),
    ]
}

/// Period 1 with four Northern parties and one Southern.
fn allocated(rule: ChosenRule, ntc: u32, service: bool, rows: &[FiledRow]) -> Option<Allocations> {
    match PeriodTerms::new(4, 1, [Mw(0); 16], [Mw(0); 16], Mw(ntc), Mw(0), service) {
        Some(terms) => Some(allocate(&rule, &terms, rows, 1)),
        None => None,
    }
}

/// What a Northern party gets to send to the Southern one; past the limits of the terms a figure that no test wants.
fn sent(shown: Option<Allocations>, sender: usize) -> Kwh {
    match shown {
        Some(all) => all.kwh(Direction::NorthSouth, sender, 0),
        None => Kwh(u64::MAX),
    }
}

fn sends(rt: &impl Abort, shown: Option<Allocations>, sender: usize, kwh: u64) {
    assert_eq!(rt; sent(shown, sender), Kwh(kwh));
}

#[test]
fn four_senders(rt: HostRuntime) {
    let [a, b] = trade(0, 1, 2);
    let [c, d] = trade(1, 1, 0);
    let [e, f] = trade(2, 3, 0);
    let [g, h] = trade(3, 3, 0);
    let rows = [a, b, c, d, e, f, g, h];
    let shown = allocated(REGISTER, 0, true, &rows);
    sends(&rt, shown, 0, 1);
    sends(&rt, shown, 1, 1);
    sends(&rt, shown, 2, 0);
    sends(&rt, shown, 3, 0);
    let shown = allocated(RUNNING, 0, true, &rows);
    sends(&rt, shown, 0, 0);
    sends(&rt, shown, 2, 1);
    let off = allocated(REGISTER, 1, false, &rows);
    sends(&rt, off, 2, 0);
}

#[test]
fn matches_keep_and_fall(rt: HostRuntime) {
    let [a, b] = trade(0, 10, 6);
    let [c, d] = trade(1, 10, 0);
    let six = filed(Side::Northern, FiledKind::Match, 0, 6, 6);
    let also = filed(Side::Southern, FiledKind::Match, 0, 6, 6);
    let shown = allocated(REGISTER, 0, true, &[a, b, c, d, six, also]);
    sends(&rt, shown, 0, 6);
    sends(&rt, shown, 1, 0);
    let seven = filed(Side::Northern, FiledKind::Match, 0, 7, 7);
    let too = filed(Side::Southern, FiledKind::Match, 0, 7, 7);
    let shown = allocated(REGISTER, 0, true, &[a, b, c, d, seven, too]);
    sends(&rt, shown, 0, 3);
    sends(&rt, shown, 1, 3);
}

#[test]
fn odd_rows(rt: HostRuntime) {
    // A lone filing, a second one under a key, a row that fails its check and one of another period count for nothing.
    let [a, b] = trade(0, 500, 0);
    let lone = filed(Side::Northern, FiledKind::Trade, 1, 7, 0);
    let again = filed(Side::Southern, FiledKind::Trade, 0, 9, 0);
    let mut large = filed(Side::Northern, FiledKind::Trade, 2, 10_000_000, 0);
    let mut later = b;
    later.period = 2;
    large.north = 99;
    let shown = allocated(REGISTER, 1, true, &[large, later, a, b, lone, again]);
    sends(&rt, shown, 0, 500);
    sends(&rt, shown, 1, 0);
    sends(&rt, shown, 99, 0);
}

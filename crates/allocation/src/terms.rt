// The terms of a period: who is registered, what is entitled, what flows. The struct stands alone: what is said of
// it elsewhere names it.
ghost use Rattle.std.specs.Prelude.{ℕ, ◌≤◌, slice_index_or};
ghost use Rattle.energy.specs.Units.{mw};

use energy::Mw;

mod calls;

/// How many parties each side has, what each is entitled to, the net transfer capacity of each direction
/// and whether the link is in service. A side has at most 16 parties, an entitlement is at most 159,984 MW
/// and a net transfer capacity at most 9,999 MW.
// Arrays beside their counts: the terms are Copy, and an ArrayVec is not.
#[derive(Clone, Copy)]
pub struct PeriodTerms {
    pub(crate) north: usize,
    pub(crate) south: usize,
    pub(crate) northern: [Mw; 16],
    pub(crate) southern: [Mw; 16],
    pub(crate) ns_ntc: Mw,
    pub(crate) sn_ntc: Mw,
    pub(crate) service: bool,
    ghost northfew: { north ≤ 16 },
    ghost southfew: { south ≤ 16 },
    ghost nsmost: { ns_ntc.0 ≤ 9999 },
    ghost snmost: { sn_ntc.0 ≤ 9999 },
    ghost northsmall: { (i : ℕ) → (slice_index_or northern i (mw 0)).0 ≤ 159984 },
    ghost southsmall: { (i : ℕ) → (slice_index_or southern i (mw 0)).0 ≤ 159984 },
}
